//! The delivery of a unit: whole if its MAP is chosen, otherwise as its packets.

ghost use Rattle.std.specs.Prelude.{◌<◌, ◌≤◌, ◌≡◌, ◌+◌, length, get_or, false, IfOk, IsOk, OnErr, Some};
ghost use Rattle.std.specs.Box.{boxed_slice_items};
ghost use Rattle.tc_packet.specs.SpacePacket.{packets_of};
ghost use Rattle.tc_queues.specs.StoredQueues.{keys_of, AreDistinct};
ghost use Rattle.tc_queues.specs.Keyed.{rings_in, room_sizes, Fit, AreCommitted};
ghost use Rattle.tc_queues.specs.Places.{IsTableOf};
ghost use Rattle.tc_queues.specs.Delivering.{IsPutAt, ArePut, IsPutWhole, IsDelivered};
ghost use Rattle.tc_queues.specs.Steps.{looks, pass_steps, unit_steps};

use crate::committing::{commit_packets, roll_back};
use crate::places::place_of;
use crate::queue::Queue;
use crate::reply::Delivery;
use crate::staging::stage_packets;
use crate::steps::Tick;
use std::alloc::AllocError;
use std::boxed::BoxedSlice;
use tc_packet::{LARGEST_UNIT, Room};

// Puts an item at the end of the queue at this place, if the queue has room. Returns whether it had room.
#[tactic(auto, using(crate::proofs::Closing::at_place))]
fn put_item_at<R: Room>(
    queues: &mut BoxedSlice<Queue<R>>,
    place: usize,
    octets: &[u8],
) -> Result<bool, AllocError>
    requires place { place < length (boxed_slice_items queues.old) }
    requires fits { Fit octets.now (room_sizes (boxed_slice_items queues.old)) }
    requires committed { AreCommitted (boxed_slice_items queues.old) }
    ensures put { IfOk result (IsPutAt place octets.now (rings_in (boxed_slice_items queues.old)) (rings_in (boxed_slice_items queues.new))) }
    ensures refused { OnErr result (rings_in (boxed_slice_items queues.new) ≡ rings_in (boxed_slice_items queues.old)) }
    ensures committed { AreCommitted (boxed_slice_items queues.new) }
    ensures keys { keys_of (rings_in (boxed_slice_items queues.new)) ≡ keys_of (rings_in (boxed_slice_items queues.old)) }
    ensures sizes { room_sizes (boxed_slice_items queues.new) ≡ room_sizes (boxed_slice_items queues.old) }
    ensures answered { R.grows ≡ false → IsOk result }
{
    let queue = &mut queues[place];
    queue.put(octets)
}

// Delivers a unit whole to the unit queue at this place, if that queue has room.
fn deliver_whole<R: Room>(
    units: &mut BoxedSlice<Queue<R>>,
    place: usize,
    map: u8,
    unit: &[u8],
) -> Result<Delivery, AllocError>
    requires place { place < length (boxed_slice_items units.old) }
    requires key { map ≡ get_or (keys_of (rings_in (boxed_slice_items units.old))) place map }
    requires distinct { AreDistinct (keys_of (rings_in (boxed_slice_items units.old))) }
    requires fits { Fit unit.now (room_sizes (boxed_slice_items units.old)) }
    requires committed { AreCommitted (boxed_slice_items units.old) }
    ensures put { IfOk result (IsPutWhole map unit.now (rings_in (boxed_slice_items units.old)) (rings_in (boxed_slice_items units.new))) }
    ensures refused { OnErr result (rings_in (boxed_slice_items units.new) ≡ rings_in (boxed_slice_items units.old)) }
    ensures committed { AreCommitted (boxed_slice_items units.new) }
    ensures keys { keys_of (rings_in (boxed_slice_items units.new)) ≡ keys_of (rings_in (boxed_slice_items units.old)) }
    ensures sizes { room_sizes (boxed_slice_items units.new) ≡ room_sizes (boxed_slice_items units.old) }
    ensures answered { R.grows ≡ false → IsOk result }
{
    let put = put_item_at(units, place, unit)?;
    if put {
        return Ok(Delivery {
            queued: 1,
            dropped: 0,
            rest: false,
        });
    }
    Ok(Delivery {
        queued: 0,
        dropped: 1,
        rest: false,
    })
}

// Delivers the packets of a unit. If memory runs out, the queues are as they were before the call.
#[inline(always)]
fn deliver_packets<R: Room, C: Tick>(
    queues: &mut BoxedSlice<Queue<R>>,
    table: &[u16],
    unit: &[u8],
    steps: &mut C,
) -> Result<Delivery, AllocError>
    requires table { IsTableOf (keys_of (rings_in (boxed_slice_items queues.old))) table.now }
    requires within { length unit.now ≤ LARGEST_UNIT }
    requires distinct { AreDistinct (keys_of (rings_in (boxed_slice_items queues.old))) }
    requires fits { Fit unit.now (room_sizes (boxed_slice_items queues.old)) }
    requires committed { AreCommitted (boxed_slice_items queues.old) }
    ensures put { IfOk result (ArePut unit.now (rings_in (boxed_slice_items queues.old)) (rings_in (boxed_slice_items queues.new))) }
    ensures refused { OnErr result (rings_in (boxed_slice_items queues.new) ≡ rings_in (boxed_slice_items queues.old)) }
    ensures committed { AreCommitted (boxed_slice_items queues.new) }
    ensures keys { keys_of (rings_in (boxed_slice_items queues.new)) ≡ keys_of (rings_in (boxed_slice_items queues.old)) }
    ensures sizes { room_sizes (boxed_slice_items queues.new) ≡ room_sizes (boxed_slice_items queues.old) }
    ensures answered { R.grows ≡ false → IsOk result }
    ensures cost { IfOk result (λ _. C.taken steps.new ≤ C.taken steps.old +
        (pass_steps (length (packets_of unit.now)) (looks (boxed_slice_items queues.old) table.now) +
        (pass_steps (length (packets_of unit.now)) (looks (boxed_slice_items queues.old) table.now) + looks
        (boxed_slice_items queues.old) table.now))) }
    ensures refused_cost { OnErr result (C.taken steps.new ≤ C.taken steps.old +
        (pass_steps (length (packets_of unit.now)) (looks (boxed_slice_items queues.old) table.now) + length
        (boxed_slice_items queues.old))) }
{
    match stage_packets(queues, table, unit, steps) {
        Ok(delivery) => {
            commit_packets(queues, table, unit, delivery.queued as usize, steps);
            Ok(delivery)
        }
        Err(error) => {
            roll_back(queues, steps);
            Err(error)
        }
    }
}

/// Delivers a unit: whole if its MAP is chosen, otherwise as its packets. If memory runs out, all queues are as they
/// were before the call.
#[inline(always)]
pub(crate) fn deliver<R: Room, C: Tick>(
    queues: &mut BoxedSlice<Queue<R>>,
    table: &[u16],
    units: &mut BoxedSlice<Queue<R>>,
    unit_table: &[u16],
    map: u8,
    unit: &[u8],
    steps: &mut C,
) -> Result<Delivery, AllocError>
    requires table { IsTableOf (keys_of (rings_in (boxed_slice_items queues.old))) table.now }
    requires unit_table { IsTableOf (keys_of (rings_in (boxed_slice_items units.old))) unit_table.now }
    requires within { length unit.now ≤ LARGEST_UNIT }
    requires distinct { AreDistinct (keys_of (rings_in (boxed_slice_items queues.old))) }
    requires units_distinct { AreDistinct (keys_of (rings_in (boxed_slice_items units.old))) }
    requires fits { Fit unit.now (room_sizes (boxed_slice_items queues.old)) }
    requires units_fit { Fit unit.now (room_sizes (boxed_slice_items units.old)) }
    requires committed { AreCommitted (boxed_slice_items queues.old) }
    requires units_committed { AreCommitted (boxed_slice_items units.old) }
    ensures delivered { IfOk result (IsDelivered map (Some unit.now) (rings_in (boxed_slice_items queues.old))
        (rings_in (boxed_slice_items queues.new))
        (rings_in (boxed_slice_items units.old)) (rings_in (boxed_slice_items units.new))) }
    ensures refused { OnErr result ((rings_in (boxed_slice_items queues.new) ≡ rings_in (boxed_slice_items queues.old))
        × (rings_in (boxed_slice_items units.new) ≡ rings_in (boxed_slice_items units.old))) }
    ensures committed { AreCommitted (boxed_slice_items queues.new) }
    ensures units_committed { AreCommitted (boxed_slice_items units.new) }
    ensures keys { keys_of (rings_in (boxed_slice_items queues.new)) ≡ keys_of (rings_in (boxed_slice_items queues.old)) }
    ensures unit_keys { keys_of (rings_in (boxed_slice_items units.new)) ≡ keys_of (rings_in (boxed_slice_items units.old)) }
    ensures sizes { room_sizes (boxed_slice_items queues.new) ≡ room_sizes (boxed_slice_items queues.old) }
    ensures unit_sizes { room_sizes (boxed_slice_items units.new) ≡ room_sizes (boxed_slice_items units.old) }
    ensures answered { R.grows ≡ false → IsOk result }
    ensures cost { IfOk result (λ _. C.taken steps.new ≤ C.taken steps.old + unit_steps (length (packets_of unit.now))
        (looks (boxed_slice_items queues.old) table.now) (looks (boxed_slice_items units.old) unit_table.now)) }
    ensures refused_cost { OnErr result (C.taken steps.new ≤ C.taken steps.old +
        (unit_steps (length (packets_of unit.now)) (looks (boxed_slice_items queues.old) table.now)
        (looks (boxed_slice_items units.old) unit_table.now) + length (boxed_slice_items queues.old))) }
{
    match place_of(units, unit_table, map as u16, steps) {
        Some(place) => deliver_whole(units, place, map, unit),
        None => deliver_packets(queues, table, unit, steps),
    }
}
