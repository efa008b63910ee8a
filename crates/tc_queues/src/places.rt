//! Finding the place of the queue with a key: by a search, or by a table if there are many queues.

ghost use Rattle.std.specs.Prelude.{◌<◌, ◌≤◌, ◌+◌, ◌≡◌, ◌≢◌, length, get_or, IfOk, IfSome, IfNone, option_map};
ghost use Rattle.std.specs.Box.{boxed_slice_items};
ghost use Rattle.std.specs.Option.{option_copied};
ghost use Rattle.std.specs.List.{AllByRecursion};
ghost use Rattle.tc_queues.specs.StoredQueues.{keys_of, queue_for};
ghost use Rattle.tc_queues.specs.Keyed.{ring_in, rings_in};
ghost use Rattle.tc_queues.specs.Places.{IsFirst, IsTableOf, IsTabled};
ghost use Rattle.tc_queues.specs.Steps.{looks};

use crate::queue::Queue;
use crate::steps::Tick;
use std::alloc::{AllocError, Global};
use std::boxed::BoxedSlice;
use tc_packet::Room;

// The number of keys in a table: one for each APID, which has 11 bits (CCSDS 133.0-B, 4.1.3.3).
pub(crate) const KEYS: usize = 2_048;

// The smallest number of queues for which a table is worthwhile.
pub(crate) const QUEUES_FOR_A_TABLE: usize = 8;

// The largest number of queues for which there is a table. Each entry of the table is a `u16`: the place of a queue, or
// the number of queues if no queue has the key.
const QUEUES_IN_A_TABLE: usize = 65_535;

// Returns the place of the first queue with this key, found by a search, or `None` if no queue has the key.
#[tactic(auto, using(crate::proofs::Closing::searched))]
fn search_place<R: Room, C: Tick>(queues: &[Queue<R>], key: u16, steps: &mut C) -> Option<usize>
    ensures first { IfSome result (λ place. IsFirst key place (keys_of (rings_in queues.now))) }
    ensures some { IfSome result (λ place. (place < length queues.now) × (key ≡ get_or (keys_of (rings_in queues.now)) place key)) }
    ensures none { IfNone result (AllByRecursion (λ other. key ≢ other) (keys_of (rings_in queues.now))) }
    ensures cost { C.taken steps.new ≤ C.taken steps.old + length queues.now }
{
    for (place, queue) in queues.iter().enumerate() {
        if key == queue.key_with_steps(steps) {
            return Some(place);
        }
    }
    None
}

/// Returns the place of the first queue with this key, or `None` if no queue has the key. If the table has an entry for
/// the key, the place is read from there, and one step is counted. Otherwise the queues are searched, and a step is
/// counted for each queue that is looked at.
#[inline(always)]
#[tactic(auto, using(crate::proofs::Closing::reported))]
pub(crate) fn place_of<R: Room, C: Tick>(
    queues: &[Queue<R>],
    table: &[u16],
    key: u16,
    steps: &mut C,
) -> Option<usize>
    requires { IsTableOf (keys_of (rings_in queues.now)) table.now }
    ensures first { IfSome result (λ place. IsFirst key place (keys_of (rings_in queues.now))) }
    ensures some { IfSome result (λ place. (place < length queues.now) × (key ≡ get_or (keys_of (rings_in queues.now)) place key)) }
    ensures none { IfNone result (AllByRecursion (λ other. key ≢ other) (keys_of (rings_in queues.now))) }
    ensures cost { key < 2048 → C.taken steps.new ≤ C.taken steps.old + looks queues.now table.now }
    ensures far { 2048 ≤ key → C.taken steps.new ≤ C.taken steps.old + length queues.now }
{
    if key as usize >= table.len() {
        return search_place(queues, key, steps);
    }
    steps.tick();
    let place = table[key as usize] as usize;
    if place < queues.len() {
        return Some(place);
    }
    None
}

/// Returns a table of the places of these queues. The table is empty if there are fewer than 8 queues, or more than
/// 65,535.
pub(crate) fn see_places<R: Room, C: Tick>(
    alloc: Global,
    queues: &[Queue<R>],
    steps: &mut C,
) -> Result<BoxedSlice<u16>, AllocError>
    ensures { IfOk result (λ table. IsTabled (keys_of (rings_in queues.now)) (boxed_slice_items table)) }
{
    if queues.len() < QUEUES_FOR_A_TABLE || queues.len() > QUEUES_IN_A_TABLE {
        return Ok(Vec::new(alloc).into_boxed_slice());
    }
    let none = queues.len() as u16;
    let mut table = vec![in alloc; none; KEYS]?;
    for (place, queue) in queues.iter().enumerate() {
        let key = queue.key_with_steps(steps) as usize;
        if key < KEYS && table[key] == none {
            table[key] = place as u16;
        }
    }
    Ok(table.into_boxed_slice())
}

/// Returns the first queue with this key, or `None` if no queue has the key.
#[tactic(auto, using(crate::proofs::Closing::by_key))]
pub(crate) fn find_in<'a, R: Room, C: Tick>(
    queues: &'a [Queue<R>],
    table: &[u16],
    key: u16,
    steps: &mut C,
) -> Option<&'a Queue<R>>
    requires { IsTableOf (keys_of (rings_in queues.now)) table.now }
    ensures queue { option_map ring_in (option_copied result) ≡ queue_for key (rings_in queues.now) }
    ensures cost { key < 2048 → C.taken steps.new ≤ C.taken steps.old + looks queues.now table.now }
    ensures far { 2048 ≤ key → C.taken steps.new ≤ C.taken steps.old + length queues.now }
{
    match place_of(queues, table, key, steps) {
        Some(place) => Some(&queues[place]),
        None => None,
    }
}
