//! A book of numbers under a lock.

ghost use Rattle.std.specs.Prelude.{ℕ};

use logged_lock::{Head, LockSeat, Logged, LoggedLock, NextEntry};
use std::marker::{Brand, PhantomData};

/// The head of a book's log, which identifies the book.
pub struct Title {
    pub number: u8,
}

impl Head for Title {
    ghost use Rattle.lock_tests.specs.Book.{untitled};

    ghost blank = { untitled };
}

/// A book with the numbers that were written, in order.
#[derive(Drop)]
pub struct Book {
    pub title: u8,
    pub numbers: Vec<u32>,
}

impl Logged<Title, u32> for Book {
    ghost use Rattle.lock_tests.specs.Book.{log_of, IsAny};

    ghost log = { log_of };

    ghost fits = { IsAny };
}

/// The number that a call writes.
pub trait Number {
    ghost number: { ℕ };
}

impl Number for Brand {
    ghost number = { 0 };
}

/// The next entry of a book: the number that was written.
pub struct Writes<P> {
    marker: PhantomData<P>,
}

impl<P: Number> NextEntry<u32> for Writes<P> {
    ghost entry = { P.number };
}

/// A book's lock.
pub type BookLock = LoggedLock<Book, Title, u32>;

/// A seat at a book's lock.
pub type BookSeat = LockSeat<Book, Title, u32>;
