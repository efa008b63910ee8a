//! Committing the items that are staged in the queues, and rolling them back.

ghost use Rattle.std.specs.Prelude.{ℕ, List, ◌∷◌, ◌≡◌, ◌≤◌, ◌+◌, false, length, map};
ghost use Rattle.std.specs.Box.{boxed_slice_items};
ghost use Rattle.tc_packet.specs.PacketFields.{HasFields};
ghost use Rattle.tc_packet.specs.SpacePacket.{packets_of};
ghost use Rattle.tc_queues.specs.StoredQueues.{keys_of, AreDistinct};
ghost use Rattle.tc_queues.specs.Keyed.{rings_in, AreCommitted, committed, roll_back as rolled_back_of};
ghost use Rattle.tc_queues.specs.Places.{IsTableOf};
ghost use Rattle.tc_queues.specs.Delivering.{AreStagedOf};
ghost use Rattle.tc_queues.specs.Steps.{looks, pass_steps};

use crate::places::place_of;
use crate::queue::Queue;
use crate::steps::Tick;
use std::boxed::BoxedSlice;
use tc_packet::{Packet, Room, each_unit_has_one_cut, next_packet};

// Commits the staged items of every queue.
fn commit_all<R: Room, C: Tick>(queues: &mut BoxedSlice<Queue<R>>, steps: &mut C)
    ensures committed { boxed_slice_items queues.new ≡ map committed (boxed_slice_items queues.old) }
    ensures cost { C.taken steps.new ≤ C.taken steps.old + length (boxed_slice_items queues.old) }
{
    for i in 0..queues.as_slice().len() {
        steps.tick();
        queues[i].commit();
    }
}

// Commits the staged items in the queue of this packet, if it is a telecommand packet and a queue has its APID.
#[inline(always)]
#[tactic(auto, using(crate::proofs::Closing::passing))]
fn commit_packet<R: Room, C: Tick>(
    queues: &mut BoxedSlice<Queue<R>>,
    table: &[u16],
    packet: &Packet,
    steps: &mut C,
)
    requires table { IsTableOf (keys_of (rings_in (boxed_slice_items queues.old))) table.now }
    requires fields { HasFields packet.now }
    requires distinct { AreDistinct (keys_of (rings_in (boxed_slice_items queues.old))) }
    ensures among { (left : List (List ℕ)) → AreStagedOf (packet.now.octets.now ∷ left) (boxed_slice_items queues.old)
        → AreStagedOf left (boxed_slice_items queues.new) }
    ensures committed { map committed (boxed_slice_items queues.new) ≡ map committed (boxed_slice_items queues.old) }
    ensures keys { keys_of (rings_in (boxed_slice_items queues.new)) ≡ keys_of (rings_in (boxed_slice_items queues.old)) }
    ensures cost { C.taken steps.new ≤ C.taken steps.old + looks (boxed_slice_items queues.old) table.now }
{
    if !packet.telecommand {
        return;
    }
    let Some(place) = place_of(queues, table, packet.apid, steps) else {
        return;
    };
    queues[place].commit();
}

/// Commits the staged packets of this unit, whose number is `staged`. If rooms never grow, there is nothing left to
/// commit, since each packet was committed when it was staged. If there is a table of places, and there are at least
/// `staged` queues, only the queues of the unit's packets are looked at. Otherwise every queue is committed.
pub(crate) fn commit_packets<R: Room, C: Tick>(
    queues: &mut BoxedSlice<Queue<R>>,
    table: &[u16],
    unit: &[u8],
    staged: usize,
    steps: &mut C,
)
    requires table { IsTableOf (keys_of (rings_in (boxed_slice_items queues.old))) table.now }
    requires distinct { AreDistinct (keys_of (rings_in (boxed_slice_items queues.old))) }
    requires committed { R.grows ≡ false → AreCommitted (boxed_slice_items queues.old) }
    requires few { staged ≤ length (packets_of unit.now) }
    requires among { AreStagedOf (packets_of unit.now) (boxed_slice_items queues.old) }
    ensures committed { boxed_slice_items queues.new ≡ map committed (boxed_slice_items queues.old) }
    ensures cost { C.taken steps.new ≤ C.taken steps.old +
        (pass_steps (length (packets_of unit.now)) (looks (boxed_slice_items queues.old) table.now) + looks
        (boxed_slice_items queues.old) table.now) }
{
    if !R::may_ask() {
        return;
    }
    if table.is_empty() || queues.as_slice().len() < staged {
        commit_all(queues, steps);
        return;
    }
    each_unit_has_one_cut();
    let mut rest = unit;
    while let Some((packet, after)) = next_packet(rest) {
        steps.tick();
        commit_packet(queues, table, &packet, steps);
        rest = after;
    }
}

/// Rolls back everything that is staged in the queues.
pub(crate) fn roll_back<R: Room, C: Tick>(queues: &mut BoxedSlice<Queue<R>>, steps: &mut C)
    ensures roll_back { boxed_slice_items queues.new ≡ map rolled_back_of (boxed_slice_items queues.old) }
    ensures cost { C.taken steps.new ≤ C.taken steps.old + length (boxed_slice_items queues.old) }
{
    for i in 0..queues.as_slice().len() {
        steps.tick();
        queues[i].roll_back();
    }
}
