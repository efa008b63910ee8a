mod alone;
mod desk;
mod roles;
mod six_threads;
mod turns;
mod waiting;

ghost use Rattle.std.specs.Prelude.{◌≡◌};
ghost use Rattle.lock_tests.specs.Book.{IsWriter};

use super::*;
use std::alloc::Global;
use std::process::Abort;
use turns::{take_out, try_turn, turn, write};

// Creates a lock around a book in which nothing is written yet, and its first seat.
fn new_lock(rt: &impl Abort, alloc: Global) -> (BookLock, BookSeat)
    ensures rest { IsWriter result.0 result.1 }
    ensures first { result.1.id ≡ 0 }
{
    let book = Book {
        title: 7,
        numbers: Vec::new(alloc),
    };
    BookLock::new(alloc, book, &Title { number: 7 }).expect(rt, "a lock")
}
