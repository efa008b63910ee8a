//! The log, and the view that a seat has of it.

use std::collections::LinkedList;

/// Data that a lock may protect.
pub trait Logged<D, E>: Drop {
    ghost use Rattle.logged_lock.specs.declared.views.Log.{Log};

    ghost log: { Self → Log D E };

    // a further property that the data has whenever the lock is free
    ghost fits: { Self → Type 0 };
}

/// A head that never changes, and the entries so far. No value of this type is ever created.
pub struct Log<D, E> {
    pub head: D,
    pub entries: LinkedList<E>,
}

/// A type of heads. Its blank head stands in places where no head is meant.
pub trait Head {
    ghost blank: { Self };
}

/// The account of one seat: the log that the seat has seen, the entries that it has made, each with its place in the
/// log, and the number of seats that were issued from it. No value of this type is ever created.
pub struct Account<D, E> {
    pub seen: Log<D, E>,
    pub made: LinkedList<(u64, E)>,
    pub issued: u64,
}

/// The view of a seat. No value of this type is ever created.
pub struct View<D, E> {
    /// False for a seat that was joined to the first one, and true for any other.
    pub live: bool,
    /// True if the seat has the lock.
    pub locks: bool,
    /// True if entries may be made from the seat. A guest makes none.
    pub maker: bool,
    pub own: Account<D, E>,
    /// The accounts of the seats that were joined to this one, in their order.
    pub reported: LinkedList<Account<D, E>>,
}
