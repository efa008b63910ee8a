//! The walk along the frames on their way to a unit, from layer to layer.

ghost use Rattle.std.specs.Prelude.{◌≡◌, ◌<◌, ◌≤◌, ◌⊎◌, ◌↔◌, ◌+◌, None, List, ◌∷◌, [], length, slice_get, vec_capacity};
ghost use Rattle.tc_link.specs.declared.farm.Report.{Report};
ghost use Rattle.tc_judge.specs.Layer.{Has, IsEmpty, IsLayer, IsMadeOf, IsNext, Goes, IsTurn, SomeAt};
ghost use Rattle.tc_judge.specs.Account.{Explains};
ghost use Rattle.tc_judge.specs.Reading.{IsShown};
ghost use Rattle.tc_judge.specs.declared.account.SentFrame.{SentFrame};
ghost use Rattle.tc_judge.specs.declared.account.Item.{Item};
ghost use Rattle.tc_judge.specs.declared.account.Item.TheVariants.{Heard};

use crate::account::{Rules, SentFrame};
use crate::layer::{add_some, clear, has, join, report_at, unite};
use crate::step::{dealt, otherwise};
use std::mem::swap;
use tc_link::Report;

/// The layer at one place among the frames on their way, and the next one. Each has 8,192 flags.
#[derive(Debug, Drop)]
pub struct Layers {
    pub here: Vec<bool>,
    pub next: Vec<bool>,
}

/// Writes a mark to `found` for each place among the frames on their way. The mark is set if the unit may have made a
/// CLCW there that shows the components `shown`. At a place, the unit has dealt with the frames before it.
///
/// `now` are the components that the last CLCW showed, `way` are the frames on their way, and `marks` are the places
/// at which the unit may have made the last CLCW. `found` has room for as many marks. Nothing is allocated.
pub fn hear(
    rules: &Rules,
    now: Report,
    shown: Report,
    way: &[SentFrame],
    marks: &[bool],
    found: &mut Vec<bool>,
    layers: &mut Layers,
)
    requires now { IsShown now }
    requires shown { IsShown shown }
    requires marks { length marks.now ≡ length way.now + 1 }
    requires room { length marks.now ≤ vec_capacity found.old }
    requires layers { (length layers.old.here.items ≡ 8192) × (length layers.old.next.items ≡ 8192) }
    ensures heard { (items : List Item) → SomeAt (λ s. Explains rules.now s shown items) found.new.items way.now
        ↔ SomeAt (λ s. Explains rules.now s now (Heard shown ∷ items)) marks.now way.now }
    ensures len { length found.new.items ≡ length marks.now }
    ensures room { vec_capacity found.new ≡ vec_capacity found.old }
    ensures layers { (length layers.new.here.items ≡ 8192) × (length layers.new.next.items ≡ 8192) }
{
    found.clear();
    clear(&mut layers.here);
    for i in 0..marks.len() {
        take_turn(rules, now, marks[i], frame_at(way, i), layers);
        found.push_reserved(has(&layers.next, shown));
    }
}

/// Adds to `into`, which is empty, the components that the next CLCW can show. They are those of the layers at all
/// places among the frames on their way. The other arguments are those of [`hear`]. Nothing is allocated.
pub fn gather(
    rules: &Rules,
    now: Report,
    way: &[SentFrame],
    marks: &[bool],
    layers: &mut Layers,
    into: &mut [bool],
)
    requires now { IsShown now }
    requires marks { length marks.now ≡ length way.now + 1 }
    requires layers { (length layers.old.here.items ≡ 8192) × (length layers.old.next.items ≡ 8192) }
    requires len { length into.old ≡ 8192 }
    requires empty { IsEmpty into.old }
    ensures gathered { (shown : Report) → Has into.new shown ↔ SomeAt (λ s. Explains rules.now s now (Heard shown ∷ [])) marks.now way.now }
    ensures layers { (length layers.new.here.items ≡ 8192) × (length layers.new.next.items ≡ 8192) }
    ensures len { length into.new ≡ 8192 }
{
    clear(&mut layers.here);
    for i in 0..marks.len() {
        take_turn(rules, now, marks[i], frame_at(way, i), layers);
        unite(into, &layers.next);
    }
}

fn frame_at(way: &[SentFrame], place: usize) -> Option<SentFrame>
    ensures { result ≡ slice_get way.now place }
{
    way.get(place).copied()
}

// Takes one step along the frames on their way, from one place to the next. Before it, `layers.here` is the layer at
// the place, without the components `now`. After it, `layers.next` is that layer with these components, if `here` is
// true, and `layers.here` is the layer at the next place.
fn take_turn(rules: &Rules, now: Report, here: bool, coming: Option<SentFrame>, layers: &mut Layers)
    requires now { IsShown now }
    requires layer { IsLayer layers.old.here.items }
    requires layers { (length layers.old.here.items ≡ 8192) × (length layers.old.next.items ≡ 8192) }
    ensures turn { (shown : Report) (way : List SentFrame) (items : List Item) → slice_get way 0 ≡ coming
        → IsTurn rules.now now shown here layers.old.here.items layers.new.next.items layers.new.here.items way items }
    ensures layer { IsLayer layers.new.here.items }
    ensures none { coming ≡ None → IsEmpty layers.new.here.items }
    ensures layers { (length layers.new.here.items ≡ 8192) × (length layers.new.next.items ≡ 8192) }
{
    let Layers { here: layer, next } = layers;
    turn(rules, now, here, coming, layer, next);
    swap(layer, next);
}

fn turn(
    rules: &Rules,
    now: Report,
    here: bool,
    coming: Option<SentFrame>,
    layer: &mut [bool],
    next: &mut [bool],
)
    requires now { IsShown now }
    requires layer { IsLayer layer.old }
    requires len { length layer.old ≡ 8192 }
    requires next { length next.old ≡ 8192 }
    ensures turn { (shown : Report) (way : List SentFrame) (items : List Item) → slice_get way 0 ≡ coming
        → IsTurn rules.now now shown here layer.old layer.new next.new way items }
    ensures layer { IsLayer next.new }
    ensures none { coming ≡ None → IsEmpty next.new }
    ensures len { length layer.new ≡ 8192 }
    ensures next { length next.new ≡ 8192 }
{
    join(layer, here, now);
    go(rules, coming, layer, next);
}

// Writes the layer after the frame that comes, or an empty layer if none comes.
fn go(rules: &Rules, coming: Option<SentFrame>, layer: &[bool], next: &mut [bool])
    requires layer { length layer.now ≡ 8192 }
    requires next { length next.old ≡ 8192 }
    ensures goes { Goes rules.now coming layer.now next.new }
    ensures len { length next.new ≡ 8192 }
{
    clear(next);
    match coming {
        Some(frame) => advance(rules, frame, layer, next),
        None => {}
    }
}

fn advance(rules: &Rules, frame: SentFrame, layer: &[bool], next: &mut [bool])
    requires layer { length layer.now ≡ 8192 }
    requires next { length next.old ≡ 8192 }
    requires empty { IsEmpty next.old }
    ensures next { IsNext rules.now frame layer.now next.new }
    ensures len { length next.new ≡ 8192 }
{
    for place in 0..layer.len() {
        if layer[place] {
            deal(rules, frame, report_at(place), next);
        }
    }
}

// Adds all components that the components `r` can become by a frame, or by a frame and a release after it. If frames
// may be lost, `r` can also stay.
fn deal(rules: &Rules, frame: SentFrame, r: Report, layer: &mut [bool])
    requires shown { IsShown r }
    requires len { length layer.old ≡ 8192 }
    ensures made { (y : Report) → Has layer.new y ↔ (Has layer.old y ⊎ IsMadeOf rules.now frame r y) }
    ensures len { length layer.new ≡ 8192 }
{
    let stays = if rules.lossy { Some(r) } else { None };
    add_some(layer, stays);
    add_some(layer, dealt(rules.window, r, frame, false));
    add_some(layer, dealt(rules.window, r, frame, true));
    add_some(layer, otherwise(rules, r, frame));
}
