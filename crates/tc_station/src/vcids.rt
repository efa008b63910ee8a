//! The virtual channel ids of a station, and the place of each.

ghost use Rattle.std.specs.Prelude.{◌≡◌, ◌≢◌, ◌==◌, ◌<◌, ◌≤◌, length, position, slice_index, All, AllPairs, Contains, MatchOption};

use std::marker::Model;

// The number of possible ids.
const VCIDS: usize = 64;

// The table's entry for an id that isn't in the list.
const NOWHERE: u8 = 64;

/// Virtual channel ids, with a table of their places. Contracts see the ids alone.
#[derive(Drop)]
pub(crate) struct Vcids {
    ids: Vec<u8>,
    table: [u8; VCIDS],
}

impl Model for Vcids {
    ghost use Rattle.std.specs.Prelude.{ℕ, List};
    ghost use Rattle.tc_station.specs.VcidTable.{IsVcidTable};

    ghost Value = { List ℕ };

    ghost view = { λ v. v.ids.items };

    ghost invariant = { λ v. IsVcidTable v.ids.items v.table };
}

impl Vcids {
    /// Creates the table for these ids, which are distinct and at most 63.
    pub(crate) fn new(ids: Vec<u8>) -> Vcids
        requires distinct { AllPairs (λ a b. a ≢ b) ids.items }
        requires allowed { All (λ v. v ≤ 63) ids.items }
        ensures { result ≡ ids.items }
    {
        let mut table = [NOWHERE; VCIDS];
        for (place, vcid) in ids.iter().enumerate() {
            table[usize::from(*vcid)] = place as u8;
        }
        Vcids { ids, table }
    }

    /// Returns the ids in order.
    pub(crate) fn as_slice(&self) -> &[u8]
        ensures { result.now ≡ self.now }
    {
        self.ids.as_slice()
    }

    /// Returns the ids as a `Vec`, without a copy.
    pub(crate) fn into_vec(self) -> Vec<u8>
        ensures { result.items ≡ self }
    {
        let Vcids { ids, table: _ } = self;
        ids
    }

    /// Returns the place of `vcid`, or `None` if it isn't among the ids.
    pub(crate) fn place_of(&self, vcid: u8) -> Option<usize>
        ensures place { result ≡ position (λ v. v == vcid) self.now }
        ensures found { MatchOption result (¬ Contains self.now vcid) (λ k. (k < length self.now) × (slice_index self.now k ≡ vcid)) }
    {
        let place = *self.table.get(usize::from(vcid))?;
        if place == NOWHERE {
            return None;
        }
        Some(usize::from(place))
    }
}
