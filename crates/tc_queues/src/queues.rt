//! The queues of a channel, and the delivery of units to them.

ghost use Rattle.std.specs.Prelude.{ℕ, List, ◌≡◌, ◌≤◌, ◌↔◌, ◌+◌, length, false, IfOk, IsOk, IsTrue, IsSome, OnErr, OnOk, Some, None, option_map};
ghost use Rattle.std.specs.Option.{option_copied};
ghost use Rattle.tc_packet.specs.SpacePacket.{packets_of};
ghost use Rattle.tc_queues.specs.Copying.{IsCopiedIn, copied_out};
ghost use Rattle.tc_queues.specs.StoredQueues.{items_for, keys_of, AreDistinct, queue_for, popped, StoredQueue, oldest_for};
ghost use Rattle.tc_packet.specs.declared.runs.Ended.TheVariants as Ended;
ghost use Rattle.tc_packet.specs.Store.{unit_in, IsThere, IsAtMost};
ghost use Rattle.tc_queues.specs.Keyed.{ring_in, rings_in, room_sizes, Fit, FitsIn, AreCommitted};
ghost use Rattle.tc_queues.specs.Delivering.{IsDelivered};
ghost use Rattle.tc_queues.specs.Steps.{delivery_steps, looks_for, packet_steps};

use crate::delivering::deliver;
use crate::places::{find_in, see_places};
use crate::queue::Queue;
use crate::reply::{Delivery, NotCopied};
use crate::steps::Tick;
use crate::taking::{copy_from, pop_from, take_from};
use std::alloc::{AllocError, Global};
use std::boxed::BoxedSlice;
use std::marker::Model;
use tc_packet::{Ended, GrowingRoom, LARGEST_UNIT, Room, Runs};

/// The queues of one kind, packet queues or unit queues, each with its key.
#[derive(Drop)]
pub struct Queues<R: Room> {
    queues: BoxedSlice<Queue<R>>,
    // The table has an entry for each possible APID: the place of the queue with that key, or the number of queues if
    // there is none. The table is empty if there are fewer than 8 queues, or more than 65,535.
    table: BoxedSlice<u16>,
}

impl<R: Room> Model for Queues<R> {
    ghost use Rattle.std.specs.Prelude.{List};
    ghost use Rattle.std.specs.Box.{boxed_slice_items};
    ghost use Rattle.tc_queues.specs.StoredQueues.{keys_of};
    ghost use Rattle.tc_queues.specs.Keyed.{Keyed, rings_in};
    ghost use Rattle.tc_queues.specs.Places.{IsTabled};

    ghost Value = { List Keyed };

    ghost view = { λ q. boxed_slice_items q.queues };

    ghost invariant = { λ q. IsTabled (keys_of (rings_in (boxed_slice_items q.queues))) (boxed_slice_items q.table) };
}

impl<R: Room> Queues<R> {
    /// Creates the collection of these queues, whose keys never change. If there are 8 to 65,535 queues, the call also
    /// creates a table that shows, for each APID, the place of the queue with that key.
    pub fn new<C: Tick>(
        alloc: Global,
        queues: Vec<Queue<R>>,
        steps: &mut C,
    ) -> Result<Queues<R>, AllocError>
        ensures { IfOk result (λ q. q ≡ queues.items) }
    {
        let table = see_places(alloc, &queues, steps)?;
        Ok(Queues {
            queues: queues.into_boxed_slice(),
            table,
        })
    }

    /// Returns the first queue with this key, or `None` if no queue has the key.
    pub fn find<C: Tick>(&self, key: u16, steps: &mut C) -> Option<&Queue<R>>
        ensures queue { option_map ring_in (option_copied result) ≡ queue_for key (rings_in self.now) }
        ensures cost { C.taken steps.new ≤ C.taken steps.old + looks_for key (length self.now) }
    {
        find_in(&self.queues, &self.table, key, steps)
    }

    /// Lends the octets of the oldest item of the queue with this key. Returns `None` if no queue has the key or no
    /// item waits.
    pub fn oldest<C: Tick>(&self, key: u16, steps: &mut C) -> Option<&[u8]>
        ensures item { option_map (λ octets. octets.now) result ≡ oldest_for key (rings_in self.now) }
        ensures cost { C.taken steps.new ≤ C.taken steps.old + looks_for key (length self.now) }
    {
        self.find(key, steps)?.front()
    }

    /// Drops the oldest item of the queue with this key, if one waits, and returns whether one waited.
    pub fn pop<C: Tick>(&mut self, key: u16, steps: &mut C) -> bool
        ensures waits { IsTrue result ↔ IsSome (oldest_for key (rings_in self.old)) }
        ensures rings { rings_in self.new ≡ popped key (rings_in self.old) }
        ensures sizes { room_sizes self.new ≡ room_sizes self.old }
        ensures committed { AreCommitted self.old → AreCommitted self.new }
        ensures refused { result ≡ false → self.new ≡ self.old }
        ensures cost { C.taken steps.new ≤ C.taken steps.old + looks_for key (length self.old) }
    {
        pop_from(&mut self.queues, &self.table, key, steps)
    }

    /// Copies the oldest item of the queue with this key to the front of `into`, drops it from the queue, and returns
    /// the number of its octets. Fails if no queue has the key, if no item waits, or if the item is longer than `into`.
    /// A call that fails changes neither the queues nor `into`.
    #[inline(always)]
    pub fn copy_out<C: Tick>(
        &mut self,
        key: u16,
        into: &mut [u8],
        steps: &mut C,
    ) -> Result<usize, NotCopied>
        ensures count { result ≡ copied_out (length into.old) (items_for key (rings_in self.old)) }
        ensures item { IfOk result (λ count. IsCopiedIn (oldest_for key (rings_in self.old)) count into.old into.new) }
        ensures rings { OnOk result (rings_in self.new ≡ popped key (rings_in self.old)) }
        ensures sizes { room_sizes self.new ≡ room_sizes self.old }
        ensures committed { AreCommitted self.old → AreCommitted self.new }
        ensures refused { OnErr result ((self.new ≡ self.old) × (into.new ≡ into.old)) }
        ensures cost { C.taken steps.new ≤ C.taken steps.old + looks_for key (length self.old) }
    {
        copy_from(&mut self.queues, &self.table, key, into, steps)
    }
}

impl Queues<GrowingRoom> {
    /// Takes the oldest item out of the queue with this key, if one waits. The block in which the item lies is
    /// returned, so no octet is copied, and no memory is requested.
    pub fn take<C: Tick>(&mut self, key: u16, steps: &mut C) -> Option<Vec<u8>>
        ensures item { option_map (λ block. block.items) result ≡ oldest_for key (rings_in self.old) }
        ensures rings { rings_in self.new ≡ popped key (rings_in self.old) }
        ensures sizes { room_sizes self.new ≡ room_sizes self.old }
        ensures committed { AreCommitted self.old → AreCommitted self.new }
        ensures refused { result ≡ None → self.new ≡ self.old }
        ensures cost { C.taken steps.new ≤ C.taken steps.old + looks_for key (length self.old) }
    {
        take_from(&mut self.queues, &self.table, key, steps)
    }
}

// Delivers a unit: whole if its MAP is chosen, otherwise as its packets. If memory runs out, all queues are as they
// were before the call.
#[inline(always)]
fn deliver_unit<R: Room, C: Tick>(
    queues: &mut Queues<R>,
    units: &mut Queues<R>,
    map: u8,
    unit: &[u8],
    steps: &mut C,
) -> Result<Delivery, AllocError>
    requires within { length unit.now ≤ LARGEST_UNIT }
    requires distinct { AreDistinct (keys_of (rings_in queues.old)) }
    requires units_distinct { AreDistinct (keys_of (rings_in units.old)) }
    requires fits { Fit unit.now (room_sizes queues.old) }
    requires units_fit { Fit unit.now (room_sizes units.old) }
    requires committed { AreCommitted queues.old }
    requires units_committed { AreCommitted units.old }
    ensures delivered { IfOk result (IsDelivered map (Some unit.now) (rings_in queues.old) (rings_in queues.new)
        (rings_in units.old) (rings_in units.new)) }
    ensures refused { OnErr result ((rings_in queues.new ≡ rings_in queues.old) × (rings_in units.new ≡ rings_in units.old)) }
    ensures committed { AreCommitted queues.new }
    ensures units_committed { AreCommitted units.new }
    ensures sizes { room_sizes queues.new ≡ room_sizes queues.old }
    ensures unit_sizes { room_sizes units.new ≡ room_sizes units.old }
    ensures answered { R.grows ≡ false → IsOk result }
    ensures cost { IfOk result (λ _. C.taken steps.new ≤ C.taken steps.old + packet_steps (length (packets_of unit.now))
        (length queues.old) (length units.old)) }
    ensures refused_cost { OnErr result (C.taken steps.new ≤ C.taken steps.old +
        (packet_steps (length (packets_of unit.now)) (length queues.old) (length units.old) + length queues.old)) }
{
    deliver(
        &mut queues.queues,
        &queues.table,
        &mut units.queues,
        &units.table,
        map,
        unit,
        steps,
    )
}

// Lends the unit that a data field ended, if it ended one. The unit isn't copied.
#[inline(always)]
fn unit_of<'a, R: Room>(runs: &'a Runs<R>, field: &'a [u8], ended: Ended) -> Option<&'a [u8]>
    requires { IsThere ended runs.now field.now }
    ensures { option_map (λ unit. unit.now) result ≡ unit_in ended runs.now field.now }
{
    match ended {
        Ended::Nothing => None,
        Ended::Lying(from) => Some(&field[from..]),
        Ended::Joined(place) => Some(runs.joined(place)),
    }
}

/// Delivers the unit that a data field ended, if it ended one, from the place at which it lies. If memory runs out, all
/// queues are as they were before the call. A step is counted for each packet that is cut from the unit. A step is also
/// counted for each queue that is looked at in a search for a queue, or that is committed or rolled back. So the number
/// of steps grows as the number of the unit's packets times the number of queues that one search looks at. A search
/// looks at one queue if there is a table, and otherwise at most at all of them.
#[inline(always)]
pub fn deliver_ended<R: Room, C: Tick>(
    runs: &Runs<R>,
    queues: &mut Queues<R>,
    units: &mut Queues<R>,
    map: u8,
    field: &[u8],
    ended: Ended,
    steps: &mut C,
) -> Result<Delivery, AllocError>
    requires there { IsThere ended runs.now field.now }
    requires within { IsAtMost LARGEST_UNIT (unit_in ended runs.now field.now) }
    requires distinct { AreDistinct (keys_of (rings_in queues.old)) }
    requires units_distinct { AreDistinct (keys_of (rings_in units.old)) }
    requires fits { FitsIn (room_sizes queues.old) (unit_in ended runs.now field.now) }
    requires units_fit { FitsIn (room_sizes units.old) (unit_in ended runs.now field.now) }
    requires committed { AreCommitted queues.old }
    requires units_committed { AreCommitted units.old }
    ensures delivered { IfOk result (IsDelivered map (unit_in ended runs.now field.now) (rings_in queues.old) (rings_in queues.new)
        (rings_in units.old) (rings_in units.new)) }
    ensures refused { OnErr result ((rings_in queues.new ≡ rings_in queues.old) × (rings_in units.new ≡ rings_in units.old)) }
    ensures ended { OnErr result (ended ≡ Ended.Nothing → ⊥) }
    ensures committed { AreCommitted queues.new }
    ensures units_committed { AreCommitted units.new }
    ensures sizes { room_sizes queues.new ≡ room_sizes queues.old }
    ensures unit_sizes { room_sizes units.new ≡ room_sizes units.old }
    ensures answered { R.grows ≡ false → IsOk result }
    ensures cost { IfOk result (λ _. C.taken steps.new ≤ C.taken steps.old + delivery_steps (unit_in ended runs.now field.now)
        (length queues.old) (length units.old)) }
    ensures refused_cost { OnErr result (C.taken steps.new ≤ C.taken steps.old +
        (delivery_steps (unit_in ended runs.now field.now) (length queues.old) (length units.old) + length queues.old)) }
{
    match unit_of(runs, field, ended) {
        Some(unit) => deliver_unit(queues, units, map, unit, steps),
        None => Ok(deliver_nothing()),
    }
}

/// Returns the outcome when there is no unit to deliver.
pub fn deliver_nothing() -> Delivery
    ensures { (map_id : ℕ) (queues units : List StoredQueue) → IsDelivered map_id None queues queues units units result }
{
    Delivery {
        queued: 0,
        dropped: 0,
        rest: false,
    }
}
