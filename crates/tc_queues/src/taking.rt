//! Taking items from the queue with a key.

ghost use Rattle.std.specs.Prelude.{ℕ, ◌<◌, ◌≤◌, ◌≡◌, ◌↔◌, ◌+◌, length, false, IfOk, IsTrue, IsSome, None, OnErr, OnOk, option_map};
ghost use Rattle.std.specs.Box.{boxed_slice_items};
ghost use Rattle.tc_queues.specs.Copying.{IsCopiedIn, copied_in, copied_out};
ghost use Rattle.tc_queues.specs.StoredQueues.{items_for, keys_of, popped, oldest_for};
ghost use Rattle.tc_queues.specs.Keyed.{rings_in, room_sizes, AreCommitted};
ghost use Rattle.tc_queues.specs.Places.{IsFirst, IsTableOf};
ghost use Rattle.tc_queues.specs.Steps.{looks};

use crate::places::place_of;
use crate::queue::Queue;
use crate::reply::NotCopied;
use crate::steps::Tick;
use std::boxed::BoxedSlice;
use tc_packet::{GrowingRoom, Room};

// Drops the oldest item of the queue at this place, and returns whether there was one.
#[tactic(auto, using(crate::proofs::Closing::at_place))]
fn pop_at<R: Room>(queues: &mut BoxedSlice<Queue<R>>, place: usize) -> bool
    requires { place < length (boxed_slice_items queues.old) }
    ensures waits { (key : ℕ) → IsFirst key place (keys_of (rings_in (boxed_slice_items queues.old)))
        → IsTrue result ↔ IsSome (oldest_for key (rings_in (boxed_slice_items queues.old))) }
    ensures rings { (key : ℕ) → IsFirst key place (keys_of (rings_in (boxed_slice_items queues.old)))
        → rings_in (boxed_slice_items queues.new) ≡ popped key (rings_in (boxed_slice_items queues.old)) }
    ensures keys { keys_of (rings_in (boxed_slice_items queues.new)) ≡ keys_of (rings_in (boxed_slice_items queues.old)) }
    ensures sizes { room_sizes (boxed_slice_items queues.new) ≡ room_sizes (boxed_slice_items queues.old) }
    ensures committed { AreCommitted (boxed_slice_items queues.old) → AreCommitted (boxed_slice_items queues.new) }
    ensures refused { result ≡ false → boxed_slice_items queues.new ≡ boxed_slice_items queues.old }
{
    if queues[place].len() == 0 {
        return false;
    }
    queues[place].pop_front();
    true
}

// Takes the oldest item out of the queue at this place, if one waits, and returns the block in which it lies.
#[tactic(auto, using(crate::proofs::Closing::at_place))]
fn take_at(queues: &mut BoxedSlice<Queue<GrowingRoom>>, place: usize) -> Option<Vec<u8>>
    requires { place < length (boxed_slice_items queues.old) }
    ensures item { (key : ℕ) → IsFirst key place (keys_of (rings_in (boxed_slice_items queues.old)))
        → option_map (λ block. block.items) result ≡ oldest_for key (rings_in (boxed_slice_items queues.old)) }
    ensures rings { (key : ℕ) → IsFirst key place (keys_of (rings_in (boxed_slice_items queues.old)))
        → rings_in (boxed_slice_items queues.new) ≡ popped key (rings_in (boxed_slice_items queues.old)) }
    ensures keys { keys_of (rings_in (boxed_slice_items queues.new)) ≡ keys_of (rings_in (boxed_slice_items queues.old)) }
    ensures sizes { room_sizes (boxed_slice_items queues.new) ≡ room_sizes (boxed_slice_items queues.old) }
    ensures committed { AreCommitted (boxed_slice_items queues.old) → AreCommitted (boxed_slice_items queues.new) }
    ensures refused { result ≡ None → boxed_slice_items queues.new ≡ boxed_slice_items queues.old }
{
    queues[place].take_front()
}

/// Drops the oldest item of the queue with this key, if one waits, and returns whether one waited.
pub(crate) fn pop_from<R: Room, C: Tick>(
    queues: &mut BoxedSlice<Queue<R>>,
    table: &[u16],
    key: u16,
    steps: &mut C,
) -> bool
    requires { IsTableOf (keys_of (rings_in (boxed_slice_items queues.old))) table.now }
    ensures waits { IsTrue result ↔ IsSome (oldest_for key (rings_in (boxed_slice_items queues.old))) }
    ensures rings { rings_in (boxed_slice_items queues.new) ≡ popped key (rings_in (boxed_slice_items queues.old)) }
    ensures keys { keys_of (rings_in (boxed_slice_items queues.new)) ≡ keys_of (rings_in (boxed_slice_items queues.old)) }
    ensures sizes { room_sizes (boxed_slice_items queues.new) ≡ room_sizes (boxed_slice_items queues.old) }
    ensures committed { AreCommitted (boxed_slice_items queues.old) → AreCommitted (boxed_slice_items queues.new) }
    ensures refused { result ≡ false → boxed_slice_items queues.new ≡ boxed_slice_items queues.old }
    ensures cost { key < 2048 → C.taken steps.new ≤ C.taken steps.old + looks (boxed_slice_items queues.old) table.now }
    ensures far { 2048 ≤ key → C.taken steps.new ≤ C.taken steps.old + length (boxed_slice_items queues.old) }
{
    match place_of(queues, table, key, steps) {
        Some(place) => pop_at(queues, place),
        None => false,
    }
}

/// Takes the oldest item out of the queue with this key, and returns the block in which it lies. Returns `None` if no
/// queue has the key or no item waits.
pub(crate) fn take_from<C: Tick>(
    queues: &mut BoxedSlice<Queue<GrowingRoom>>,
    table: &[u16],
    key: u16,
    steps: &mut C,
) -> Option<Vec<u8>>
    requires { IsTableOf (keys_of (rings_in (boxed_slice_items queues.old))) table.now }
    ensures item { option_map (λ block. block.items) result ≡ oldest_for key (rings_in (boxed_slice_items queues.old)) }
    ensures rings { rings_in (boxed_slice_items queues.new) ≡ popped key (rings_in (boxed_slice_items queues.old)) }
    ensures keys { keys_of (rings_in (boxed_slice_items queues.new)) ≡ keys_of (rings_in (boxed_slice_items queues.old)) }
    ensures sizes { room_sizes (boxed_slice_items queues.new) ≡ room_sizes (boxed_slice_items queues.old) }
    ensures committed { AreCommitted (boxed_slice_items queues.old) → AreCommitted (boxed_slice_items queues.new) }
    ensures refused { result ≡ None → boxed_slice_items queues.new ≡ boxed_slice_items queues.old }
    ensures cost { key < 2048 → C.taken steps.new ≤ C.taken steps.old + looks (boxed_slice_items queues.old) table.now }
    ensures far { 2048 ≤ key → C.taken steps.new ≤ C.taken steps.old + length (boxed_slice_items queues.old) }
{
    match place_of(queues, table, key, steps) {
        Some(place) => take_at(queues, place),
        None => None,
    }
}

// Copies an item to the front of `into`, and returns the number of its octets. Fails, without a change to `into`, if
// there is no item or the item is longer than `into`.
#[inline(always)]
fn copy_to_front(item: Option<&[u8]>, into: &mut [u8]) -> Result<usize, NotCopied>
    ensures count { result ≡ copied_in (length into.old) (option_map (λ octets. octets.now) item.entry) }
    ensures item { IfOk result (λ count. IsCopiedIn (option_map (λ octets. octets.now) item.entry) count into.old into.new) }
    ensures refused { OnErr result (into.new ≡ into.old) }
{
    let Some(octets) = item else {
        return Err(NotCopied::Empty);
    };
    if into.len() < octets.len() {
        return Err(NotCopied::NoRoom(octets.len()));
    }
    into[..octets.len()].copy_from_slice(octets);
    Ok(octets.len())
}

/// Copies the oldest item of the queue with this key to the front of `into`, drops it from the queue, and returns the
/// number of its octets. Fails, and changes nothing, if no queue has the key, if no item waits, or if the item is
/// longer than `into`.
#[inline(always)]
#[tactic(auto, using(crate::proofs::Closing::at_place))]
pub(crate) fn copy_from<R: Room, C: Tick>(
    queues: &mut BoxedSlice<Queue<R>>,
    table: &[u16],
    key: u16,
    into: &mut [u8],
    steps: &mut C,
) -> Result<usize, NotCopied>
    requires { IsTableOf (keys_of (rings_in (boxed_slice_items queues.old))) table.now }
    ensures count { result ≡ copied_out (length into.old) (items_for key (rings_in (boxed_slice_items queues.old))) }
    ensures item { IfOk result (λ count. IsCopiedIn (oldest_for key (rings_in (boxed_slice_items queues.old))) count into.old into.new) }
    ensures rings { OnOk result (rings_in (boxed_slice_items queues.new) ≡ popped key (rings_in (boxed_slice_items queues.old))) }
    ensures keys { keys_of (rings_in (boxed_slice_items queues.new)) ≡ keys_of (rings_in (boxed_slice_items queues.old)) }
    ensures sizes { room_sizes (boxed_slice_items queues.new) ≡ room_sizes (boxed_slice_items queues.old) }
    ensures committed { AreCommitted (boxed_slice_items queues.old) → AreCommitted (boxed_slice_items queues.new) }
    ensures refused { OnErr result ((boxed_slice_items queues.new ≡ boxed_slice_items queues.old) × (into.new ≡ into.old)) }
    ensures cost { key < 2048 → C.taken steps.new ≤ C.taken steps.old + looks (boxed_slice_items queues.old) table.now }
    ensures far { 2048 ≤ key → C.taken steps.new ≤ C.taken steps.old + length (boxed_slice_items queues.old) }
{
    let Some(place) = place_of(queues, table, key, steps) else {
        return Err(NotCopied::NoQueue);
    };
    let queue = &mut queues[place];
    let count = copy_to_front(queue.front(), into)?;
    queue.pop_front();
    Ok(count)
}
