//! Layers: the components that a unit may have at one place among the frames on their way.
//!
//! A layer has a flag for each of the 8,192 different components that a CLCW can show.

ghost use Rattle.std.specs.Prelude.{◌≡◌, ◌<◌, ◌⊎◌, ◌↔◌, IsTrue, IfSome, Some, length};
ghost use Rattle.tc_link.specs.declared.farm.Report.{Report};
ghost use Rattle.tc_link.specs.Farm.{E10, after};
ghost use Rattle.tc_judge.specs.Layer.{Has, IsEmpty, place_in_layer};
ghost use Rattle.tc_judge.specs.Reading.{IsShown};

use crate::shown::shown_state;
use crate::step::freed;
use tc_link::Report;

/// The number of different components that a CLCW can show, which are one of 256 values of V(R), one of 4 values of the
/// FARM-B counter, and three flags.
pub const COMPONENTS: usize = 8192;

/// Returns whether a layer has these components.
pub fn has(layer: &[bool], x: Report) -> bool
    requires len { length layer.now ≡ 8192 }
    requires shown { IsShown x }
    ensures { IsTrue result ↔ Has layer.now x }
{
    layer[place(&x)]
}

/// Empties a layer.
pub fn clear(layer: &mut [bool])
    ensures empty { IsEmpty layer.new }
    ensures len { length layer.new ≡ length layer.old }
{
    layer.fill(false);
}

/// Adds the components `now` to a layer, and those after a release, if `here` is true. The last CLCW showed `now`, and
/// `here` is true if the unit may have made this CLCW at the layer's place.
pub fn join(layer: &mut [bool], here: bool, now: Report)
    requires len { length layer.old ≡ 8192 }
    requires shown { IsShown now }
    ensures layer { (y : Report) → Has layer.new y ↔ (Has layer.old y ⊎ (IsTrue here × ((y ≡ now) ⊎ (y ≡ after E10 now)))) }
    ensures len { length layer.new ≡ 8192 }
{
    if here {
        add_both(layer, now);
    }
}

/// Adds all components of a layer to another one.
pub fn unite(into: &mut [bool], layer: &[bool])
    requires into { length into.old ≡ 8192 }
    requires layer { length layer.now ≡ 8192 }
    ensures united { (y : Report) → Has into.new y ↔ (Has into.old y ⊎ Has layer.now y) }
    ensures len { length into.new ≡ 8192 }
{
    for place in 0..layer.len() {
        if layer[place] {
            add(into, report_at(place));
        }
    }
}

/// Adds components to a layer, if there are some, and those after a release.
pub fn add_some(layer: &mut [bool], x: Option<Report>)
    requires len { length layer.old ≡ 8192 }
    requires shown { IfSome x (λ y. IsShown y) }
    ensures layer { (y : Report) → Has layer.new y ↔ (Has layer.old y ⊎ ((new : Report) × (x ≡ Some new) × ((y ≡ new) ⊎ (y ≡ after E10 new)))) }
    ensures len { length layer.new ≡ 8192 }
{
    if let Some(r) = x {
        add_both(layer, r);
    }
}

fn add_both(layer: &mut [bool], x: Report)
    requires len { length layer.old ≡ 8192 }
    requires shown { IsShown x }
    ensures layer { (y : Report) → Has layer.new y ↔ (Has layer.old y ⊎ ((y ≡ x) ⊎ (y ≡ after E10 x))) }
    ensures len { length layer.new ≡ 8192 }
{
    add(layer, x);
    add(layer, freed(x));
}

fn add(layer: &mut [bool], x: Report)
    requires len { length layer.old ≡ 8192 }
    requires shown { IsShown x }
    ensures layer { (y : Report) → Has layer.new y ↔ (Has layer.old y ⊎ (y ≡ x)) }
    ensures len { length layer.new ≡ 8192 }
{
    layer[place(&x)] = true;
}

fn place(r: &Report) -> usize
    requires { IsShown r.now }
    ensures place { result ≡ place_in_layer r.now }
    ensures bound { result < 8192 }
{
    let flags = 4 * usize::from(r.lockout) + 2 * usize::from(r.wait) + usize::from(r.retransmit);
    (flags * 4 + usize::from(r.farm_b)) * 256 + usize::from(r.vr)
}

/// Returns the components whose flag is at this place.
pub fn report_at(place: usize) -> Report
    requires { place < 8192 }
    ensures place { place_in_layer result ≡ place }
    ensures shown { IsShown result }
    ensures number { result.vr < 256 }
{
    let lockout = place / 4096 == 1;
    let wait = place / 2048 % 2 == 1;
    Report {
        state: shown_state(lockout, wait),
        vr: (place % 256) as u8,
        lockout,
        wait,
        retransmit: place / 1024 % 2 == 1,
        farm_b: (place / 256 % 4) as u8,
    }
}
