//! Tests of `logged_lock`, with a book of numbers that several threads write, and with desks.
#![tactic(auto)]

mod book;
#[cfg(test)]
mod tests;

pub use book::{Book, BookLock, BookSeat, Number, Title, Writes};
