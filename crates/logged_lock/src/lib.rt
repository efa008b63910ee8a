//! A lock whose contracts name the log of the data that it protects. Each entry of the log belongs to the seat that
//! made it.
//!
//! The data under a [`LoggedLock`] is [`Logged`]: it has a log, which exists only in contracts. The log consists of a
//! head that never changes and the entries so far. Each thread has a seat at the lock. A seat needs no memory. Its view
//! contains the part of the log that the seat has seen, and the entries that were made from it, each with its place.
//! The lock is released with one more entry ([`LoggedLock::unlock_with`]) or without one ([`LoggedLock::unlock`]).
//!
//! At the end the other seats report to the first one ([`LoggedLock::report`]), which then accounts for the log
//! ([`LoggedLock::account`]). If the seats that reported have made as many entries as the log has, the log is a merge
//! of their entries. The numbers are equal if all seats that the first one issued have reported, and the first one has
//! made no entry itself. A guest ([`LoggedLock::guest`]) makes no entries.
#![tactic(auto)]

mod lock;
mod rule;
mod views;

pub use lock::LoggedLock;
pub use rule::{LockRule, LockSeat, NextEntry};
pub use views::{Account, Head, Log, Logged, View};
