//! Rooms of one size in a ring that is always full. Once the item in the first room is gone, the room can be moved to
//! the back.

ghost use Rattle.std.specs.Prelude.{◌≡◌, ◌≤◌, ◌<◌, ◌^◌, ◌++◌, ◌∷◌, [], length, map, drop, set, false, Some, IfOk, IsOk, OnOk, OnErr, slice_get};
ghost use Rattle.circular_buffer.specs.Buffer.{buffer};
ghost use Rattle.tc_packet.specs.Room.{contents_of};
ghost use Rattle.tc_queues.specs.Rooms.{HaveSize};

use circular_buffer::HeapCircularBuffer;
use std::alloc::{AllocError, Global};
use std::marker::Model;
use tc_packet::{GrowingRoom, Room};

/// Rooms, the front one first. A `HeapCircularBuffer` has calls that make it grow. No function in this file uses them
/// on a buffer that has been created, and none hands out the buffer, so no other code can use them either.
#[derive(Drop)]
pub struct Ring<R: Room> {
    rooms: HeapCircularBuffer<R>,
}

impl<R: Room> Model for Ring<R> {
    ghost use Rattle.std.specs.Prelude.{List, map};
    ghost use Rattle.tc_packet.specs.Room.{Contents};
    ghost use Rattle.tc_queues.specs.Rooms.{IsFull};

    ghost Value = { List Contents };

    ghost view = { λ r. map R.contents r.rooms.items };

    ghost invariant = { λ r. IsFull r.rooms.capacity (map R.contents r.rooms.items) };
}

// Puts a room behind the others. The buffer must have a free place.
#[inline(always)]
fn put_back<R: Room>(rooms: &mut HeapCircularBuffer<R>, room: R)
    requires { length rooms.old.items < rooms.old.capacity }
    ensures { rooms.new ≡ buffer (rooms.old.items ++ room ∷ []) rooms.old.capacity }
{
    match rooms.try_push_back(room) {
        Ok(()) => {}
        Err(_room) => unreachable!(),
    }
}

// Takes the first room out.
#[inline(always)]
fn take_first<R: Room>(rooms: &mut HeapCircularBuffer<R>) -> R
    requires { 0 < length rooms.old.items }
    ensures room { rooms.old.items ≡ result ∷ drop 1 rooms.old.items }
    ensures rest { rooms.new ≡ buffer (drop 1 rooms.old.items) rooms.old.capacity }
{
    match rooms.pop_front() {
        Some(room) => room,
        None => unreachable!(),
    }
}

// Creates a full buffer of `count` rooms for `size` octets each.
fn full_of_rooms<R: Room>(
    alloc: Global,
    count: usize,
    size: usize,
) -> Result<HeapCircularBuffer<R>, AllocError>
    ensures capacity { IfOk result (λ b. b.capacity ≡ count) }
    ensures full { IfOk result (λ b. length b.items ≡ count) }
    ensures small { IfOk result (λ b. b.capacity < 2 ^ 63) }
    ensures sizes { IfOk result (λ b. HaveSize size (map R.contents b.items)) }
{
    let mut rooms = HeapCircularBuffer::with_capacity(alloc, count)?;
    for _ in 0..count {
        let room: R = Room::with_size(alloc, size)?;
        put_back(&mut rooms, room);
    }
    let _places = rooms.capacity();
    Ok(rooms)
}

impl<R: Room> Ring<R> {
    /// Creates a ring of `count` rooms for `size` octets each.
    pub(crate) fn with_rooms(
        alloc: Global,
        count: usize,
        size: usize,
    ) -> Result<Ring<R>, AllocError>
        ensures count { IfOk result (λ r. length r ≡ count) }
        ensures sizes { IfOk result (λ r. HaveSize size r) }
    {
        let rooms = full_of_rooms(alloc, count, size)?;
        Ok(Ring { rooms })
    }

    /// Returns the number of rooms.
    #[inline(always)]
    pub(crate) fn len(&self) -> usize
        ensures len { result ≡ length self.now }
        ensures small { result < 2 ^ 63 }
    {
        self.rooms.len()
    }

    /// Lends the first room.
    #[inline(always)]
    pub(crate) fn first(&self) -> &R
        requires { 0 < length self.now }
        ensures { Some (R.contents result.now) ≡ slice_get self.now 0 }
    {
        match self.rooms.front() {
            Some(room) => room,
            None => unreachable!(),
        }
    }

    /// Replaces the octets in the room at this place with a copy of `octets`.
    #[inline(always)]
    pub(crate) fn fill(
        &mut self,
        place: usize,
        size: usize,
        octets: &[u8],
    ) -> Result<(), AllocError>
        requires place { place < length self.old }
        requires sizes { HaveSize size self.old }
        requires fits { length octets.now ≤ size }
        ensures filled { OnOk result (self.new ≡ set self.old place (contents_of octets.now size)) }
        ensures refused { OnErr result (self.new ≡ self.old) }
        ensures answered { R.grows ≡ false → IsOk result }
    {
        match self.rooms.get_mut(place) {
            Some(room) => room.fill(octets),
            None => unreachable!(),
        }
    }

    /// Clears the room at this place, which then has no octets in use.
    pub(crate) fn clear(&mut self, place: usize, size: usize)
        requires place { place < length self.old }
        requires sizes { HaveSize size self.old }
        ensures { self.new ≡ set self.old place (contents_of [] size) }
    {
        match self.rooms.get_mut(place) {
            Some(room) => room.clear(),
            None => unreachable!(),
        }
    }

    /// Clears the first room and moves it to the back.
    #[inline(always)]
    pub(crate) fn turn(&mut self, size: usize)
        requires some { 0 < length self.old }
        requires sizes { HaveSize size self.old }
        ensures { self.new ≡ drop 1 self.old ++ contents_of [] size ∷ [] }
    {
        let mut room = take_first(&mut self.rooms);
        room.clear();
        put_back(&mut self.rooms, room);
    }
}

impl Ring<GrowingRoom> {
    /// Takes the octets out of the first room, in the block that holds them, and moves the room to the back.
    #[inline(always)]
    pub(crate) fn turn_out(&mut self, size: usize) -> Vec<u8>
        requires some { 0 < length self.old }
        requires sizes { HaveSize size self.old }
        ensures octets { Some (contents_of result.items size) ≡ slice_get self.old 0 }
        ensures turned { self.new ≡ drop 1 self.old ++ contents_of [] size ∷ [] }
    {
        let mut room = take_first(&mut self.rooms);
        let block = room.take_block();
        put_back(&mut self.rooms, room);
        block
    }
}
