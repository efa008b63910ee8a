//! Reassembly of segmented units (CCSDS 232.0-B, 4.4), and fields that are units by themselves.

ghost use Rattle.std.specs.Prelude.{◌≡◌, ◌<◌, ◌∷◌, ◌++◌, ℕ, List, [], length, replicate, None, IfOk, OnOk, OnErr};
ghost use Rattle.tc_packet.specs.Reassembly.{AreOpenRuns, Leave, run_at, stream_count, stream_place, unit_ended};
ghost use Rattle.tc_packet.specs.Runs.{octets_in};

use crate::fault::NoMemory;
use crate::room::GrowingRoom;
use crate::runs::Runs;
use crate::segment::read_segment;
use crate::service::{LARGEST_UNIT, Service};
use std::alloc::Global;
use std::marker::Model;

/// The open run of each stream. The AD service's 64 MAPs come first, then the BD service's. If data fields have no
/// segment header, each is a unit by itself and no run is ever open.
///
/// A channel uses [`Runs`], the type that this one wraps. The rooms of a `Reassembler` grow up to the largest unit, and
/// each unit is returned in a list of its own.
#[derive(Drop)]
pub struct Reassembler {
    alloc: Global,
    runs: Runs<GrowingRoom>,
}

impl Model for Reassembler {
    ghost use Rattle.tc_packet.specs.Reassembly.{OpenRuns};
    ghost use Rattle.tc_packet.specs.Store.{open_runs, of_streams, IsUnlimited};

    ghost Value = { OpenRuns };

    ghost view = { λ r. of_streams (open_runs r.runs) };

    ghost invariant = { λ r. IsUnlimited r.runs };
}

impl Reassembler {
    /// Creates a reassembler with no open run. `segmented` is true if data fields begin with a segment header. The list
    /// of the streams' rooms is allocated here.
    pub fn new(alloc: Global, segmented: bool) -> Result<Reassembler, NoMemory>
        ensures { IfOk result (λ r. r ≡ record { segmented = segmented; runs = replicate stream_count None }) }
    {
        let runs = Runs::new(alloc, segmented, LARGEST_UNIT)?;
        Ok(Reassembler { alloc, runs })
    }

    /// Returns the unit that this field would complete, if any, in a list of its own. At most one block is allocated,
    /// with room for the stream's open run and this field.
    pub fn unit_after(&self, service: Service, field: &[u8]) -> Result<Option<Vec<u8>>, NoMemory>
        requires { 0 < length field.now }
        ensures unit { (fields : List (List ℕ)) → Leave fields self.now (stream_place service field.now)
            → IfOk result (λ unit. octets_in unit ≡ unit_ended self.now.segmented fields field.now) }
        ensures limit { AreOpenRuns self.now }
    {
        let unit = self.runs.unit_after(self.alloc, service, field)?;
        Ok(unit)
    }

    /// Processes the next field of its stream, and returns a copy of the unit that it completes, if any. If memory runs
    /// out, the open runs are unchanged.
    pub fn push(&mut self, service: Service, field: &[u8]) -> Result<Option<Vec<u8>>, NoMemory>
        requires { 0 < length field.now }
        ensures unit { (fields : List (List ℕ)) → Leave fields self.old (stream_place service field.now)
            → IfOk result (λ unit. octets_in unit ≡ unit_ended self.old.segmented fields field.now) }
        ensures run { (fields : List (List ℕ)) → Leave fields self.old (stream_place service field.now)
            → OnOk result (Leave (fields ++ field.now ∷ []) self.new (stream_place service field.now)) }
        ensures others { (other : ℕ) → (other ≡ stream_place service field.now → ⊥) → run_at self.new.runs other ≡ run_at self.old.runs other }
        ensures segmented { self.new.segmented ≡ self.old.segmented }
        ensures limit_before { AreOpenRuns self.old }
        ensures limit { AreOpenRuns self.new }
        ensures refused { OnErr result (self.new ≡ self.old) }
    {
        let ended = self.runs.stage(service, field)?;
        let unit = self.runs.copied(self.alloc, ended, field)?;
        self.runs.commit(service, read_segment(field[0]).map, ended);
        Ok(unit)
    }
}
