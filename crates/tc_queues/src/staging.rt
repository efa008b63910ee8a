//! Staging the packets of a unit behind the committed items of their queues.

ghost use Rattle.std.specs.Prelude.{ℕ, List, ◌∷◌, ◌<◌, ◌≤◌, ◌≡◌, ◌+◌, length, get_or, true, false, IfOk, IsOk};
ghost use Rattle.std.specs.Box.{boxed_slice_items};
ghost use Rattle.tc_packet.specs.PacketFields.{HasFields};
ghost use Rattle.tc_packet.specs.SpacePacket.{packets_of};
ghost use Rattle.tc_queues.specs.Admission.{is_for};
ghost use Rattle.tc_queues.specs.StoredQueues.{keys_of, AreDistinct, StoredQueue};
ghost use Rattle.tc_queues.specs.Keyed.{rings_in, all_staged_in, room_sizes, Fit, AreCommitted};
ghost use Rattle.tc_queues.specs.Places.{IsTableOf};
ghost use Rattle.tc_queues.specs.Delivering.{IsOnItsWay, IsPutAt, ArePut, IsAmong, AreStagedOf, room_at};
ghost use Rattle.tc_queues.specs.Steps.{looks, pass_steps};

use crate::places::place_of;
use crate::queue::Queue;
use crate::reply::Delivery;
use crate::steps::Tick;
use std::alloc::AllocError;
use std::boxed::BoxedSlice;
use tc_packet::{LARGEST_UNIT, Packet, Room, each_unit_has_one_cut, next_packet};

// Stages an item at the end of the queue at this place, if the queue has room. Returns whether it had room. If rooms
// never grow, the item is committed at once.
#[inline(always)]
#[tactic(auto, using(crate::proofs::Closing::at_place))]
fn stage_at<R: Room>(
    queues: &mut BoxedSlice<Queue<R>>,
    place: usize,
    octets: &[u8],
) -> Result<bool, AllocError>
    requires place { place < length (boxed_slice_items queues.old) }
    requires fits { Fit octets.now (room_sizes (boxed_slice_items queues.old)) }
    requires committed { R.grows ≡ false → AreCommitted (boxed_slice_items queues.old) }
    ensures among { (key : ℕ) (packets : List (List ℕ))
        → key ≡ get_or (keys_of (rings_in (boxed_slice_items queues.old))) place key → IsAmong key packets
        → AreStagedOf packets (boxed_slice_items queues.old) → AreStagedOf packets (boxed_slice_items queues.new) }
    ensures put { IfOk result (IsPutAt place octets.now (all_staged_in (boxed_slice_items queues.old))
        (all_staged_in (boxed_slice_items queues.new))) }
    ensures rings { R.grows ≡ true → rings_in (boxed_slice_items queues.new) ≡ rings_in (boxed_slice_items queues.old) }
    ensures keys { keys_of (rings_in (boxed_slice_items queues.new)) ≡ keys_of (rings_in (boxed_slice_items queues.old)) }
    ensures committed { R.grows ≡ false → AreCommitted (boxed_slice_items queues.new) }
    ensures sizes { room_sizes (boxed_slice_items queues.new) ≡ room_sizes (boxed_slice_items queues.old) }
    ensures answered { R.grows ≡ false → IsOk result }
{
    let queue = &mut queues[place];
    queue.stage(octets)
}

// Returns whether the queue at this place is full, if rooms never grow. If they grow, the result is always false, and a
// full queue is found only when a packet is staged.
#[inline(always)]
#[tactic(auto, using(crate::proofs::Closing::at_place))]
fn is_full_at<R: Room>(queues: &BoxedSlice<Queue<R>>, place: usize) -> bool
    requires place { place < length (boxed_slice_items queues.now) }
    ensures full { result ≡ true → room_at place (all_staged_in (boxed_slice_items queues.now)) ≡ 0 }
{
    if R::may_ask() {
        return false;
    }
    queues[place].is_full()
}

// Stages a packet into its queue, if the packet is a telecommand packet and has a queue with room. Returns the number
// of packets staged, 0 or 1.
#[inline(always)]
fn stage_packet<R: Room, C: Tick>(
    queues: &mut BoxedSlice<Queue<R>>,
    table: &[u16],
    packet: &Packet,
    steps: &mut C,
) -> Result<usize, AllocError>
    requires table { IsTableOf (keys_of (rings_in (boxed_slice_items queues.old))) table.now }
    requires fields { HasFields packet.now }
    requires distinct { AreDistinct (keys_of (rings_in (boxed_slice_items queues.old))) }
    requires fits { Fit packet.now.octets.now (room_sizes (boxed_slice_items queues.old)) }
    requires committed { R.grows ≡ false → AreCommitted (boxed_slice_items queues.old) }
    ensures among { (packets : List (List ℕ)) → ((key : ℕ) → is_for key packet.now.octets.now ≡ true → IsAmong key packets)
        → AreStagedOf packets (boxed_slice_items queues.old) → AreStagedOf packets (boxed_slice_items queues.new) }
    ensures way { IfOk result (λ more. (base : List StoredQueue) (left all : List (List ℕ)) (n : ℕ)
        → IsOnItsWay base (packet.now.octets.now ∷ left) all n (all_staged_in (boxed_slice_items queues.old))
        → IsOnItsWay base left all (n + more) (all_staged_in (boxed_slice_items queues.new))) }
    ensures rings { R.grows ≡ true → rings_in (boxed_slice_items queues.new) ≡ rings_in (boxed_slice_items queues.old) }
    ensures keys { keys_of (rings_in (boxed_slice_items queues.new)) ≡ keys_of (rings_in (boxed_slice_items queues.old)) }
    ensures committed { R.grows ≡ false → AreCommitted (boxed_slice_items queues.new) }
    ensures one { IfOk result (λ more. more ≤ 1) }
    ensures sizes { room_sizes (boxed_slice_items queues.new) ≡ room_sizes (boxed_slice_items queues.old) }
    ensures answered { R.grows ≡ false → IsOk result }
    ensures cost { C.taken steps.new ≤ C.taken steps.old + looks (boxed_slice_items queues.old) table.now }
{
    if !packet.telecommand {
        return Ok(0);
    }
    let Some(place) = place_of(queues, table, packet.apid, steps) else {
        return Ok(0);
    };
    let full = is_full_at(queues, place);
    if full {
        return Ok(0);
    }
    let put = stage_at(queues, place, packet.octets)?;
    if put {
        return Ok(1);
    }
    Ok(0)
}

/// Stages the packets of a unit into their queues, and returns the outcome for the unit. If memory runs out, the
/// packets that were staged before stay staged.
#[inline(always)]
pub(crate) fn stage_packets<R: Room, C: Tick>(
    queues: &mut BoxedSlice<Queue<R>>,
    table: &[u16],
    unit: &[u8],
    steps: &mut C,
) -> Result<Delivery, AllocError>
    requires table { IsTableOf (keys_of (rings_in (boxed_slice_items queues.old))) table.now }
    requires within { length unit.now ≤ LARGEST_UNIT }
    requires distinct { AreDistinct (keys_of (rings_in (boxed_slice_items queues.old))) }
    requires fits { Fit unit.now (room_sizes (boxed_slice_items queues.old)) }
    requires committed { AreCommitted (boxed_slice_items queues.old) }
    ensures among { AreStagedOf (packets_of unit.now) (boxed_slice_items queues.new) }
    ensures put { IfOk result (ArePut unit.now (rings_in (boxed_slice_items queues.old)) (all_staged_in (boxed_slice_items queues.new))) }
    ensures few { IfOk result (λ delivery. delivery.queued ≤ length (packets_of unit.now)) }
    ensures rings { R.grows ≡ true → rings_in (boxed_slice_items queues.new) ≡ rings_in (boxed_slice_items queues.old) }
    ensures keys { keys_of (rings_in (boxed_slice_items queues.new)) ≡ keys_of (rings_in (boxed_slice_items queues.old)) }
    ensures committed { R.grows ≡ false → AreCommitted (boxed_slice_items queues.new) }
    ensures sizes { room_sizes (boxed_slice_items queues.new) ≡ room_sizes (boxed_slice_items queues.old) }
    ensures answered { R.grows ≡ false → IsOk result }
    ensures cost { C.taken steps.new ≤ C.taken steps.old + pass_steps (length (packets_of unit.now))
        (looks (boxed_slice_items queues.old) table.now) }
{
    each_unit_has_one_cut();
    let mut packets = 0;
    let mut queued = 0;
    let mut rest = unit;
    while let Some((packet, after)) = next_packet(rest) {
        steps.tick();
        let one = stage_packet(queues, table, &packet, steps)?;
        queued += one;
        packets += 1;
        rest = after;
    }
    Ok(Delivery {
        queued: queued as u32,
        dropped: (packets - queued) as u32,
        rest: !rest.is_empty(),
    })
}
