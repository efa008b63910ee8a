//! The components that a CLCW can show, and sets of them.

ghost use Rattle.std.specs.Prelude.{◌≡◌, ◌<◌, ◌↔◌, IsTrue, IsSome, IfSome, IfNone, IfOk};
ghost use Rattle.tc_link.specs.declared.farm.Report.{Report};
ghost use Rattle.tc_judge.specs.Layer.{Has, IsEmpty, place_in_layer};
ghost use Rattle.tc_judge.specs.Reading.{IsShown, shown_state};

use crate::layer::{COMPONENTS, has, report_at};
use std::alloc::{AllocError, Global};
use std::marker::Model;
use tc_link::{Report, State};

/// The components of a FARM-1, as a CLCW can show them: the FARM-B counter is below 4, and the state is the one that
/// the flags show. It is S3 if Lockout is set, S2 if Wait is set and Lockout isn't, and otherwise S1.
///
/// A right FARM-1 has such components from the start on. In contracts, the value is the [`Report`].
#[derive(Clone, Copy, Debug, PartialEq, Eq)]
pub struct Shown {
    report: Report,
}

impl Model for Shown {
    ghost use Rattle.tc_link.specs.declared.farm.Report.{Report};
    ghost use Rattle.tc_judge.specs.Reading.{IsShown};

    ghost Value = { Report };

    ghost view = { λ s. s.report };

    ghost inverse = { λ r. record { report = r } };

    ghost invariant = { λ s. IsShown s.report };
}

impl Shown {
    /// Creates the components from a report. Returns `None` unless a CLCW can show them.
    pub fn new(report: Report) -> Option<Shown>
        ensures variant { IsSome result ↔ IsShown report }
        ensures report { IfSome result (λ shown. shown ≡ report) }
    {
        if report.farm_b < 4 && report.state == shown_state(report.lockout, report.wait) {
            Some(Shown { report })
        } else {
            None
        }
    }

    /// Returns the components as a report.
    pub fn report(&self) -> Report
        ensures report { result ≡ self.now }
        ensures shown { IsShown result }
    {
        self.report
    }
}

/// A set of components that a CLCW can show.
///
/// Each of the 8,192 different components that a CLCW can show has a place in a set. The places are in the order of the
/// CLCWs as numbers: by Lockout, Wait, Retransmit, the FARM-B counter and V(R). In contracts, the value is a list with
/// a flag for each place.
#[derive(Debug, Drop)]
pub struct ShownSet {
    pub(crate) flags: Vec<bool>,
}

impl Model for ShownSet {
    ghost use Rattle.std.specs.Prelude.{◌≡◌, Bool, List, length};

    ghost Value = { List Bool };

    ghost view = { λ s. s.flags.items };

    ghost invariant = { λ s. length s.flags.items ≡ 8192 };
}

impl ShownSet {
    /// Creates an empty set. This allocates 8,192 bytes. It fails if there is too little memory.
    pub fn new(alloc: Global) -> Result<ShownSet, AllocError>
        ensures { IfOk result (λ set. IsEmpty set) }
    {
        Ok(ShownSet {
            flags: vec![in alloc; false; COMPONENTS]?,
        })
    }

    /// Returns whether the set contains these components.
    pub fn contains(&self, shown: Shown) -> bool
        ensures contains { IsTrue result ↔ Has self.now shown }
        ensures place { IsTrue result → place_in_layer shown < 8192 }
    {
        has(&self.flags, shown.report())
    }

    /// Returns the components at a place, if the set contains them. To list the whole set, call this for each place
    /// below [`COMPONENTS`].
    pub fn get(&self, place: usize) -> Option<Shown>
        ensures some { IfSome result (λ shown. Has self.now shown × (place_in_layer shown ≡ place)) }
        ensures none { IfNone result ((r : Report) → Has self.now r → place_in_layer r ≡ place → ⊥) }
    {
        if place >= COMPONENTS || !self.flags[place] {
            return None;
        }
        Some(Shown {
            report: report_at(place),
        })
    }
}

/// Returns the state that the flags of a CLCW show.
pub fn shown_state(lockout: bool, wait: bool) -> State
    ensures { result ≡ shown_state lockout wait }
{
    if lockout {
        State::S3
    } else if wait {
        State::S2
    } else {
        State::S1
    }
}
