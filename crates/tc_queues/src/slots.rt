//! A queue of items in rooms of one size. Items that are staged behind the waiting ones don't count yet.

ghost use Rattle.std.specs.Prelude.{◌≡◌, ◌≤◌, ◌==◌, ◌++◌, [], length, drop, false, IfOk, IsOk, OnErr, IfSome, None, slice_get, option_map};
ghost use Rattle.tc_queues.specs.Rooms.{slotted, IsStagedBehind, IsPut};

use crate::ring::Ring;
use std::alloc::{AllocError, Global};
use std::marker::Model;
use tc_packet::{GrowingRoom, Room};

/// Waiting items, the oldest first, each in a room of its own, and items that a caller has staged behind them. The
/// rooms are a ring that is always full: first the rooms of the waiting items, then those of the staged items, then the
/// empty ones. When the oldest item goes, its room is cleared and moves to the back. [`pop_front`](Slots::pop_front)
/// leaves the room in place if no other item is there. Staged items count from [`commit`](Slots::commit) on, unless
/// they are rolled back ([`roll_back`](Slots::roll_back)). If the rooms don't grow, only `with_capacity` allocates.
#[derive(Drop)]
pub struct Slots<R: Room> {
    ring: Ring<R>,
    waiting: usize,
    staged: usize,
    size: usize,
}

impl<R: Room> Model for Slots<R> {
    ghost use Rattle.std.specs.Prelude.{length};
    ghost use Rattle.tc_queues.specs.Rooms.{Slotted, AreSlots, seen};

    ghost Value = { Slotted };

    ghost view = { λ s. seen (length s.ring) s.waiting s.staged s.size s.ring };

    ghost invariant = { λ s. AreSlots (length s.ring) s.waiting s.staged s.size s.ring };
}

impl<R: Room> Slots<R> {
    /// Creates an empty queue for `capacity` items of at most `size` octets each.
    pub fn with_capacity(
        alloc: Global,
        capacity: usize,
        size: usize,
    ) -> Result<Slots<R>, AllocError>
        ensures { IfOk result (λ s. s ≡ slotted [] capacity [] size) }
    {
        let ring = Ring::with_rooms(alloc, capacity, size)?;
        Ok(Slots {
            ring,
            waiting: 0,
            staged: 0,
            size,
        })
    }

    /// Returns the number of items that wait.
    pub fn len(&self) -> usize
        ensures len { result ≡ length self.now.ring.items }
        ensures within { length self.now.ring.items ≤ self.now.ring.capacity }
    {
        self.waiting
    }

    /// Returns whether no item waits.
    pub fn is_empty(&self) -> bool
        ensures { result ≡ (length self.now.ring.items == 0) }
    {
        self.waiting == 0
    }

    /// Returns the largest number of items that may wait.
    pub fn capacity(&self) -> usize
        ensures capacity { result ≡ self.now.ring.capacity }
    {
        self.ring.len()
    }

    /// Returns the largest number of octets that an item may have.
    pub fn size(&self) -> usize
        ensures { result ≡ self.now.size }
    {
        self.size
    }

    /// Lends the oldest item, if one waits.
    pub fn front(&self) -> Option<&[u8]>
        ensures item { option_map (λ octets. octets.now) result ≡ slice_get self.now.ring.items 0 }
        ensures within { IfSome result (λ octets. length octets.now ≤ self.now.size) }
    {
        if self.waiting == 0 {
            return None;
        }
        Some(self.ring.first().as_slice())
    }

    /// Puts an item behind the others if a place is free, and returns whether one was. Nothing may be staged. The item
    /// counts at once.
    #[inline(always)]
    pub fn put(&mut self, octets: &[u8]) -> Result<bool, AllocError>
        requires fits { length octets.now ≤ self.old.size }
        requires committed { self.old.staged ≡ [] }
        ensures put { IfOk result (IsPut octets.now self.old self.new) }
        ensures refused { OnErr result (self.new ≡ self.old) }
        ensures committed { self.new.staged ≡ [] }
        ensures size { self.new.size ≡ self.old.size }
        ensures answered { R.grows ≡ false → IsOk result }
    {
        if self.waiting >= self.ring.len() {
            return Ok(false);
        }
        self.ring.fill(self.waiting, self.size, octets)?;
        self.waiting += 1;
        Ok(true)
    }

    /// Stages an item behind the others if a place is free, and returns whether one was. The item doesn't count until
    /// it is committed.
    #[inline(always)]
    pub fn stage(&mut self, octets: &[u8]) -> Result<bool, AllocError>
        requires { length octets.now ≤ self.old.size }
        ensures staged { IfOk result (IsStagedBehind octets.now self.old self.new) }
        ensures refused { OnErr result (self.new ≡ self.old) }
        ensures ring { self.new.ring ≡ self.old.ring }
        ensures size { self.new.size ≡ self.old.size }
        ensures answered { R.grows ≡ false → IsOk result }
    {
        let count = self.waiting + self.staged;
        if count >= self.ring.len() {
            return Ok(false);
        }
        self.ring.fill(count, self.size, octets)?;
        self.staged += 1;
        Ok(true)
    }

    /// Makes the staged items wait behind the others, so that they count.
    #[inline(always)]
    pub fn commit(&mut self)
        ensures { self.new ≡ slotted (self.old.ring.items ++ self.old.staged) self.old.ring.capacity [] self.old.size }
    {
        self.waiting += self.staged;
        self.staged = 0;
    }

    /// Drops the staged items and clears their rooms.
    pub fn roll_back(&mut self)
        ensures { self.new ≡ slotted self.old.ring.items self.old.ring.capacity [] self.old.size }
    {
        while self.staged > 0 {
            let last = self.waiting + (self.staged - 1);
            self.ring.clear(last, self.size);
            self.staged -= 1;
        }
    }

    /// Drops the oldest item, if there is one.
    #[inline(always)]
    pub fn pop_front(&mut self)
        ensures { self.new ≡ slotted (drop 1 self.old.ring.items) self.old.ring.capacity self.old.staged self.old.size }
    {
        if self.waiting == 0 {
            return;
        }
        self.waiting -= 1;
        if self.waiting + self.staged == 0 {
            self.ring.clear(0, self.size);
            return;
        }
        self.ring.turn(self.size);
    }
}

impl Slots<GrowingRoom> {
    /// Takes the oldest item out, if there is one, in its own block. No octet is copied, and no memory is requested.
    pub fn take_front(&mut self) -> Option<Vec<u8>>
        ensures item { option_map (λ block. block.items) result ≡ slice_get self.old.ring.items 0 }
        ensures taken { self.new ≡ slotted (drop 1 self.old.ring.items) self.old.ring.capacity self.old.staged self.old.size }
        ensures refused { result ≡ None → self.new ≡ self.old }
    {
        if self.waiting == 0 {
            return None;
        }
        let block = self.ring.turn_out(self.size);
        self.waiting -= 1;
        Some(block)
    }
}
