//! Items on the heap, which contracts see as a list.

ghost use Rattle.std.specs.Prelude.{◌≡◌, ◌==◌, IfOk, length};
ghost use Rattle.std.specs.Cmp.Lexicographic.{pointwise, lists_per, lists_equiv};

use std::alloc::{AllocError, Global};
use std::marker::Model;
use std::ops::DerefSlice;

/// A `Vec` of which contracts see only the items, so that events and settings are plain data in a contract.
#[derive(Debug, Drop)]
pub struct Items<T> {
    items: Vec<T>,
}

impl<T> Model for Items<T> {
    ghost use Rattle.std.specs.Prelude.{List};

    ghost Value = { List T };

    ghost view = { λ o. o.items.items };
}

impl<T> Items<T> {
    /// Lends the items, the first one first.
    pub fn as_slice(&self) -> &[T]
        ensures { result.now ≡ self.now }
    {
        self.items.as_slice()
    }

    /// Returns the number of items.
    pub fn len(&self) -> usize
        ensures { result ≡ length self.now }
    {
        self.items.len()
    }

    /// Returns whether there is no item.
    pub fn is_empty(&self) -> bool
        ensures { result ≡ (length self.now == 0) }
    {
        self.items.is_empty()
    }

    /// Returns the items as a `Vec`. They are moved, not copied.
    pub fn into_vec(self) -> Vec<T>
        ensures { result.items ≡ self }
    {
        let Items { items } = self;
        items
    }
}

impl<T> From<Vec<T>> for Items<T> {
    ghost from_gives = { λ v o. o ≡ v.items };

    fn from(items: Vec<T>) -> Items<T> {
        Items { items }
    }
}

impl<T> From<Items<T>> for Vec<T> {
    ghost from_gives = { λ o v. v.items ≡ o };

    fn from(items: Items<T>) -> Vec<T> {
        items.into_vec()
    }
}

impl<T> DerefSlice for Items<T> {
    type Elem = T;

    ghost deref_gives = { λ o s. s ≡ o };

    fn deref(&self) -> &[T] {
        &self.items
    }
}

impl<T: PartialEq> PartialEq for Items<T> {
    ghost eq = { pointwise T.eq };

    ghost laws = { lists_per T.laws };

    fn eq(&self, other: &Items<T>) -> bool {
        self.as_slice() == other.as_slice()
    }
}

impl<T: Eq> Eq for Items<T> {
    ghost laws = { lists_equiv T.Eq.laws };
}

impl Items<u8> {
    /// Returns a copy of the octets, made with a single allocation.
    pub fn copied(alloc: Global, octets: &[u8]) -> Result<Items<u8>, AllocError>
        ensures { IfOk result (λ o. o ≡ octets.now) }
    {
        Ok(Items {
            items: Vec::from_slice(alloc, octets)?,
        })
    }
}

/// Octets on the heap.
pub type Octets = Items<u8>;
