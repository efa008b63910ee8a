//! The operators of a station's channels.

ghost use Rattle.std.specs.Prelude.{◌≡◌, ◌==◌, ◌<◌, ◌≤◌, [], vec_capacity, length, map, position, slice_index, IfOk, MatchOption, Contains};
ghost use Rattle.tc_desk.specs.Log.{with_one_issued};
ghost use Rattle.tc_desk.specs.Together.{settings_of_desks};
ghost use Rattle.tc_station.specs.StationSettings.{vcids_of};
ghost use Rattle.tc_station.specs.Room.{IsRoomFor};
ghost use Rattle.tc_station.specs.Tally.{count_in, tally, newcomer_at_desks, arrival};

use std::alloc::{AllocError, Global};
use std::marker::Model;
use tc_channel::Journal;
use tc_desk::{DeskOperator, OperatorList, OwnedDesk};

/// An operator of the channels of a station, with a count of the answered operations on each channel. Only one thread
/// has the operator at a time.
#[derive(Drop)]
pub struct Operator {
    vcids: Vec<u8>,
    // An operator at the desk of each channel, through which the station runs operations.
    pub(crate) desks: Vec<DeskOperator>,
}

impl Model for Operator {
    ghost use Rattle.std.specs.Prelude.{◌≡◌};
    ghost use Rattle.tc_desk.specs.Together.{settings_of_desks};
    ghost use Rattle.tc_station.specs.StationSettings.{vcids_of};
    ghost use Rattle.tc_station.specs.Tally.{AtStation, at_station};

    ghost Value = { AtStation };

    ghost view = { λ o. at_station o.vcids.items o.desks.items };

    ghost invariant = { λ o. vcids_of (settings_of_desks o.desks.items) ≡ o.vcids.items };
}

impl OperatorList for Operator {
    ghost at_desks = { λ o. o.desks };

    fn operators(&self) -> &[DeskOperator] {
        self.desks.as_slice()
    }

    fn into_operators(self) -> Vec<DeskOperator> {
        let Operator { vcids: _, desks } = self;
        desks
    }
}

/// Returns the place of `vcid` in `vcids`, or `None` if it isn't among them.
pub(crate) fn place_of(vcids: &[u8], vcid: u8) -> Option<usize>
    ensures place { result ≡ position (λ v. v == vcid) vcids.now }
    ensures found { MatchOption result (¬ Contains vcids.now vcid) (λ k. (k < length vcids.now) × (slice_index vcids.now k ≡ vcid)) }
{
    vcids.iter().position(|v| *v == vcid)
}

/// Memory for an operator: the ids of its channels, and a list with room for its operators at the channels' desks.
#[derive(Drop)]
pub(crate) struct Room {
    vcids: Vec<u8>,
    desks: Vec<DeskOperator>,
}

impl Room {
    /// Creates room for an operator of channels with these ids.
    pub(crate) fn new(alloc: Global, vcids: &[u8]) -> Result<Room, AllocError>
        ensures { IfOk result (IsRoomFor vcids.now) }
    {
        let desks = Vec::with_capacity(alloc, vcids.len())?;
        let vcids = Vec::from_slice(alloc, vcids)?;
        Ok(Room { vcids, desks })
    }
}

// Creates an operator at each of these desks, and appends it to `operators`, which is empty and has room for all of
// them. A new operator has made no event.
fn desk_operators<J: Journal>(
    mut operators: Vec<DeskOperator>,
    owned_desks: &mut [OwnedDesk<J>],
) -> Vec<DeskOperator>
    requires empty { operators.items ≡ [] }
    requires room { length owned_desks.old ≤ vec_capacity operators }
    ensures issued { owned_desks.new ≡ map with_one_issued owned_desks.old }
    ensures operators { result.items ≡ map arrival owned_desks.old }
{
    for place in 0..owned_desks.len() {
        operators.push_reserved(owned_desks[place].operator());
    }
    operators
}

impl Operator {
    /// Creates an operator that has made no event. At each of these desks, it has seen the moment that the desk's owner
    /// has seen.
    pub(crate) fn new<J: Journal>(room: Room, owned_desks: &mut [OwnedDesk<J>]) -> Operator
        requires room { IsRoomFor (vcids_of (settings_of_desks owned_desks.old)) room }
        ensures issued { owned_desks.new ≡ map with_one_issued owned_desks.old }
        ensures operator { result ≡ newcomer_at_desks (vcids_of (settings_of_desks owned_desks.old)) owned_desks.old }
    {
        let Room { vcids, desks } = room;
        let desks = desk_operators(desks, owned_desks);
        Operator { vcids, desks }
    }

    /// Returns the number of this operator's operations on this channel that were answered, or 2^64 - 1 if there are
    /// more. Returns `None` if there is no such channel.
    pub fn count(&self, vcid: u8) -> Option<u64>
        ensures { result ≡ count_in vcid (tally self.now) }
    {
        let place = place_of(&self.vcids, vcid)?;
        Some(self.desks[place].count())
    }

    /// Does nothing. Its contract states that each channel has a count.
    pub(crate) fn has_a_count_for_each_channel(&self)
        ensures { length self.now.counts ≡ length self.now.vcids }
    {
        let _ = self.desks.len();
    }

    /// Returns the count of the channel at `place`.
    pub(crate) fn count_at(&self, place: usize) -> u64
        requires { place < length self.now.vcids }
        ensures { result ≡ slice_index self.now.counts place }
    {
        self.desks[place].count()
    }
}
