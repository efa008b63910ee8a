//! One queue, whose items lie in rooms.

ghost use Rattle.std.specs.Prelude.{◌≡◌, ◌<◌, ◌≤◌, ◌+◌, [], length, drop, true, false, IfOk, IsOk, OnErr, None, slice_get, option_map};
ghost use Rattle.tc_queues.specs.Rooms.{slotted};
ghost use Rattle.tc_queues.specs.Keyed.{ring_in, staged_in, committed, roll_back as rolled_back_of, IsPutBehind};

use crate::slots::Slots;
use crate::steps::Tick;
use std::alloc::{AllocError, Global};
use std::marker::Model;
use tc_packet::{GrowingRoom, Room};

/// A queue: its key, and the slots of its items. The key of a packet queue is the APID of its application, and the key
/// of a unit queue is its MAP.
#[derive(Drop)]
pub struct Queue<R: Room> {
    key: u16,
    slots: Slots<R>,
}

impl<R: Room> Model for Queue<R> {
    ghost use Rattle.tc_queues.specs.Keyed.{Keyed};

    ghost Value = { Keyed };

    ghost view = { λ q. record { key = q.key; slots = q.slots } };
}

impl<R: Room> Queue<R> {
    /// Creates an empty queue for `capacity` items of at most `size` octets each.
    pub(crate) fn with_capacity(
        alloc: Global,
        key: u16,
        capacity: u16,
        size: usize,
    ) -> Result<Queue<R>, AllocError>
        ensures { IfOk result (λ q. q ≡ record { key = key; slots = slotted [] capacity [] size }) }
    {
        let slots = Slots::with_capacity(alloc, capacity as usize, size)?;
        Ok(Queue { key, slots })
    }

    /// Returns the key and counts a step. There is no other way to read the key.
    #[inline(always)]
    pub(crate) fn key_with_steps<C: Tick>(&self, steps: &mut C) -> u16
        ensures key { result ≡ self.now.key }
        ensures most { C.taken steps.new ≤ C.taken steps.old + 1 }
        ensures one { C.counts ≡ true → C.taken steps.new ≡ C.taken steps.old + 1 }
    {
        steps.tick();
        self.key
    }

    /// Returns the number of items that wait.
    pub fn len(&self) -> usize
        ensures { result ≡ length self.now.slots.ring.items }
    {
        self.slots.len()
    }

    /// Returns whether as many items wait as the queue may hold. Staged items aren't counted.
    #[inline(always)]
    pub(crate) fn is_full(&self) -> bool
        ensures full { result ≡ true → self.now.slots.ring.capacity ≤ length self.now.slots.ring.items }
        ensures free { result ≡ false → length self.now.slots.ring.items < self.now.slots.ring.capacity }
    {
        self.len() >= self.slots.capacity()
    }

    /// Lends the oldest item, if one waits.
    pub(crate) fn front(&self) -> Option<&[u8]>
        ensures { option_map (λ octets. octets.now) result ≡ slice_get self.now.slots.ring.items 0 }
    {
        self.slots.front()
    }

    // Stages an item behind the others if a place is free, and returns whether one was. If rooms never grow, the item
    // is committed at once.
    #[inline(always)]
    pub(crate) fn stage(&mut self, octets: &[u8]) -> Result<bool, AllocError>
        requires fits { length octets.now ≤ self.old.slots.size }
        requires committed { R.grows ≡ false → self.old.slots.staged ≡ [] }
        ensures staged { IfOk result (IsPutBehind octets.now (staged_in self.old) (staged_in self.new)) }
        ensures refused { OnErr result (self.new ≡ self.old) }
        ensures key { self.new.key ≡ self.old.key }
        ensures ring { R.grows ≡ true → self.new.slots.ring ≡ self.old.slots.ring }
        ensures committed { R.grows ≡ false → self.new.slots.staged ≡ [] }
        ensures size { self.new.slots.size ≡ self.old.slots.size }
        ensures answered { R.grows ≡ false → IsOk result }
    {
        if R::may_ask() {
            return self.slots.stage(octets);
        }
        self.put(octets)
    }

    // Puts an item behind the others if a place is free, and returns whether one was. Nothing may be staged.
    #[inline(always)]
    pub(crate) fn put(&mut self, octets: &[u8]) -> Result<bool, AllocError>
        requires fits { length octets.now ≤ self.old.slots.size }
        requires committed { self.old.slots.staged ≡ [] }
        ensures put { IfOk result (IsPutBehind octets.now (ring_in self.old) (ring_in self.new)) }
        ensures refused { OnErr result (self.new ≡ self.old) }
        ensures committed { self.new.slots.staged ≡ [] }
        ensures key { self.new.key ≡ self.old.key }
        ensures size { self.new.slots.size ≡ self.old.slots.size }
        ensures answered { R.grows ≡ false → IsOk result }
    {
        self.slots.put(octets)
    }

    #[inline(always)]
    pub(crate) fn commit(&mut self)
        ensures { self.new ≡ committed self.old }
    {
        self.slots.commit();
    }

    pub(crate) fn roll_back(&mut self)
        ensures { self.new ≡ rolled_back_of self.old }
    {
        self.slots.roll_back();
    }

    // Drops the oldest item, if there is one.
    #[inline(always)]
    pub(crate) fn pop_front(&mut self)
        ensures key { self.new.key ≡ self.old.key }
        ensures slots { self.new.slots ≡ slotted
            (drop 1 self.old.slots.ring.items) self.old.slots.ring.capacity self.old.slots.staged self.old.slots.size }
    {
        self.slots.pop_front();
    }
}

impl Queue<GrowingRoom> {
    // Takes the oldest item out, if there is one. The item isn't copied, because the block that holds it is returned.
    pub(crate) fn take_front(&mut self) -> Option<Vec<u8>>
        ensures key { self.new.key ≡ self.old.key }
        ensures item { option_map (λ block. block.items) result ≡ slice_get self.old.slots.ring.items 0 }
        ensures slots { self.new.slots ≡ slotted
            (drop 1 self.old.slots.ring.items) self.old.slots.ring.capacity self.old.slots.staged self.old.slots.size }
        ensures refused { result ≡ None → self.new ≡ self.old }
    {
        self.slots.take_front()
    }
}
