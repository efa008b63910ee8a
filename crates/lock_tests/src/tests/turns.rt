//! The turns that a thread takes at a book under its lock.

ghost use Rattle.std.specs.Prelude.{◌≡◌, ◌∷◌, ◌++◌, [], MatchBool, ℕ, true};
ghost use Rattle.logged_lock.specs.Rule.{HasLock};
ghost use Rattle.lock_tests.specs.Book.{log_of, IsAny, IsAtRest, IsWriter};

use super::*;
use std::marker::Brand;
use std::sync::Wait;

// Writes the number through a seat that holds the lock, and releases the lock. Returns whether there was memory for the
// number.
fn write_with<P: Number>(lock: &BookLock, seat: &mut BookSeat, number: u32) -> bool
    requires number { P.number ≡ number }
    requires own { seat.old.table_id ≡ lock.now.id }
    requires maker { seat.old.me.0.maker ≡ true }
    requires unchanged { HasLock log_of IsAny seat.old.me seat.old.me.0.own.seen }
    ensures rest { IsWriter lock.now seat.new }
    ensures same { seat.new.id ≡ seat.old.id }
    ensures made { MatchBool result ((at : ℕ) × (seat.new.me.0.own.made ≡ seat.old.me.0.own.made ++ (at, number) ∷ []))
        (seat.new.me.0.own.made ≡ seat.old.me.0.own.made) }
{
    let book = seat.slot_mut(lock.table(), 0);
    match book.numbers.push(number) {
        Ok(()) => {
            lock.unlock_with::<Writes<P>>(seat);
            true
        }
        Err(_) => {
            lock.unlock(seat);
            false
        }
    }
}

// Writes the number at the end of the book, under the lock, and returns whether there was memory for it.
pub(super) fn write<R: Wait>(rt: &R, lock: &BookLock, seat: &mut BookSeat, number: u32) -> bool
    requires { IsWriter lock.now seat.old }
    ensures rest { IsWriter lock.now seat.new }
    ensures same { seat.new.id ≡ seat.old.id }
    ensures made { MatchBool result ((at : ℕ) × (seat.new.me.0.own.made ≡ seat.old.me.0.own.made ++ (at, number) ∷ []))
        (seat.new.me.0.own.made ≡ seat.old.me.0.own.made) }
{
    lock.lock(rt, seat);
    write_with::<Brand>(lock, seat, number)
}

// Takes the lock once it is free, and releases it.
pub(super) fn turn<R: Wait>(rt: &R, lock: &BookLock, seat: &mut BookSeat)
    requires { IsAtRest lock.now seat.old }
    ensures rest { IsAtRest lock.now seat.new }
    ensures same { (seat.new.id ≡ seat.old.id) × (seat.new.me.0.maker ≡ seat.old.me.0.maker) }
{
    lock.lock(rt, seat);
    lock.unlock(seat);
}

// Takes the lock if it is free, and then releases it. Returns whether it was free.
pub(super) fn try_turn(lock: &BookLock, seat: &mut BookSeat) -> bool
    requires { IsAtRest lock.now seat.old }
    ensures rest { IsAtRest lock.now seat.new }
    ensures same { (seat.new.id ≡ seat.old.id) × (seat.new.me.0.maker ≡ seat.old.me.0.maker) }
{
    let taken = lock.try_lock(seat);
    if taken {
        lock.unlock(seat);
    }
    taken
}

// Takes the lock for good, and returns the book under it, which `blank` replaces.
pub(super) fn take_out<R: Wait>(rt: &R, lock: &BookLock, seat: &mut BookSeat, blank: Book) -> Book
    requires { IsAtRest lock.now seat.old }
{
    lock.lock(rt, seat);
    lock.replace(seat, blank)
}
