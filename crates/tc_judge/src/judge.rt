//! A judge of a unit that receives.

ghost use Rattle.std.specs.Prelude.{◌≡◌, ◌<◌, ◌≤◌, ◌+◌, ◌↔◌, ◌∷◌, [], List, ℕ, true, false, vec_capacity, length, slice_index_or, IsTrue, IfOk};
ghost use Rattle.tc_link.specs.declared.farm.Report.{Report};
ghost use Rattle.tc_judge.specs.Account.{Explains};
ghost use Rattle.tc_judge.specs.Layer.{SomeAt};
ghost use Rattle.tc_judge.specs.declared.account.Rules.{Rules};
ghost use Rattle.tc_judge.specs.declared.account.Item.{Item};

use crate::account::{Item, Rules, SentFrame};
use crate::layer::{COMPONENTS, clear};
use crate::shown::{Shown, ShownSet};
use crate::walk::{Layers, gather, hear};
use std::alloc::{AllocError, Global};
use std::marker::Model;
use std::mem::swap;

/// The verdict of a judge on a CLCW that was heard.
#[derive(Clone, Copy, Debug, PartialEq, Eq)]
pub enum Verdict {
    /// A history of the unit explains the CLCW together with everything that was noted before.
    Possible,
    /// No history explains it. The unit isn't right, or something was noted wrongly.
    Impossible,
    /// More frames were on their way than the judge has room for, so that nothing is known of the CLCW.
    Unknown,
}

/// A judge of one virtual channel of a unit. Frames that are sent and CLCWs that are heard are noted in it, and it
/// finds whether a history of a right unit explains them.
///
/// Contracts are about the judge's knowledge of the unit. It consists of the rules, the components that the last CLCW
/// showed, the frames that the unit may not have dealt with, the places among these frames at which the unit may have
/// made that CLCW, the number of frames for which there is room, and whether there was an overrun. Memory is requested
/// only when a judge is created.
#[derive(Debug, Drop)]
pub struct Judge {
    rules: Rules,
    now: Shown,
    way: Vec<SentFrame>,
    marks: Vec<bool>,
    found: Vec<bool>,
    layers: Layers,
    most: usize,
    overrun: bool,
}

impl Model for Judge {
    ghost use Rattle.std.specs.Prelude.{◌≡◌, ◌+◌, ◌≤◌, length, vec_capacity};
    ghost use Rattle.tc_judge.specs.Judge.{Knowledge};

    ghost Value = { Knowledge };

    ghost view = { λ j. record { rules = j.rules; now = j.now; way = j.way.items; marks = j.marks.items; most = j.most; overrun = j.overrun } };

    ghost invariant = { λ j. (length j.marks.items ≡ length j.way.items + 1) × (length j.way.items ≤ j.most) × (j.most ≤ vec_capacity j.way)
        × (j.most + 1 ≤ vec_capacity j.marks) × (j.most + 1 ≤ vec_capacity j.found)
        × (length j.layers.here.items ≡ 8192) × (length j.layers.next.items ≡ 8192) };
}

impl Judge {
    ghost use Rattle.std.specs.Prelude.{◌≡◌, ◌≢◌, ◌<◌, ◌≤◌, ◌↔◌, ◌∷◌, [], List, ℕ, true, false, drop, length, IfOk};
    ghost use Rattle.tc_judge.specs.Account.{Explains};
    ghost use Rattle.tc_judge.specs.Judge.{Allows};
    ghost use Rattle.tc_judge.specs.Layer.{Has, IsEmpty};
    ghost use Rattle.tc_judge.specs.declared.account.Item.{Item};
    ghost use Rattle.tc_judge.specs.declared.account.Item.TheVariants.{Sent, Heard};

    /// Creates a judge of a unit that has these components, and to which no frame is on its way. It has room for `most`
    /// frames on their way.
    ///
    /// This allocates two layers of 8,192 bytes each, room for `most` frames, and two lists of `most` + 1 marks. It
    /// fails if there is too little memory.
    pub fn new(alloc: Global, rules: Rules, first: Shown, most: usize) -> Result<Judge, AllocError>
        ensures allows { IfOk result (λ j. (items : List Item) → Allows j items ↔ Explains rules [] first items) }
        ensures rules { IfOk result (λ j. j.rules ≡ rules) }
        ensures room { IfOk result (λ j. (j.way ≡ []) × (j.most ≡ most) × (j.overrun ≡ false)) }
    {
        Ok(Judge {
            rules,
            now: first,
            way: Vec::with_capacity(alloc, most)?,
            marks: room_for_marks(alloc, most)?,
            found: room_for_marks(alloc, most)?,
            layers: Layers {
                here: vec![in alloc; false; COMPONENTS]?,
                next: vec![in alloc; false; COMPONENTS]?,
            },
            most,
            overrun: false,
        })
    }

    /// Notes that a frame was sent. If there is no room for it, there is an overrun, and each later verdict is `Unknown`
    /// until [`Judge::restart`].
    pub fn sent(&mut self, frame: SentFrame)
        ensures allows { length self.old.way < self.old.most → (items : List Item) → Allows self.new items ↔ Allows self.old (Sent frame ∷ items) }
        ensures noted { length self.old.way < self.old.most
            → (length self.new.way ≡ length self.old.way + 1) × (self.new.overrun ≡ self.old.overrun) }
        ensures overrun { self.old.most ≤ length self.old.way → self.new ≡ record self.old { overrun = true } }
        ensures kept { (self.new.rules ≡ self.old.rules) × (self.new.most ≡ self.old.most) }
    {
        if self.way.len() >= self.most {
            self.overrun = true;
            return;
        }
        self.way.push_reserved(frame);
        self.marks.push_reserved(false);
    }

    /// Notes that a CLCW was heard, which showed these components. Returns the verdict on it, together with everything
    /// that was noted before. Unless the verdict is `Possible`, the CLCW isn't noted.
    pub fn heard(&mut self, shown: Shown) -> Verdict
        ensures unknown { (result ≡ Verdict.Unknown) ↔ (self.old.overrun ≡ true) }
        ensures possible { result ≡ Verdict.Possible → (items : List Item) → Allows self.new items ↔ Allows self.old (Heard shown ∷ items) }
        ensures explained { result ≡ Verdict.Possible → Allows self.new [] }
        ensures impossible { result ≡ Verdict.Impossible → (items : List Item) → Allows self.old (Heard shown ∷ items) → ⊥ }
        ensures unchanged { result ≢ Verdict.Possible → self.new ≡ self.old }
        ensures kept { (self.new.rules ≡ self.old.rules) × (self.new.most ≡ self.old.most) × (self.new.overrun ≡ self.old.overrun) }
        ensures shorter { length self.new.way ≤ length self.old.way }
    {
        if self.overrun {
            return Verdict::Unknown;
        }
        let Judge {
            rules,
            now,
            way,
            marks,
            found,
            layers,
            ..
        } = self;
        hear(
            rules,
            now.report(),
            shown.report(),
            way,
            marks,
            found,
            layers,
        );
        if !any(found) {
            return Verdict::Impossible;
        }
        *now = shown;
        swap(marks, found);
        trim(way, marks);
        Verdict::Possible
    }

    /// Writes to `set` the components that the next CLCW can show. They are exactly those for which [`Judge::heard`]
    /// would return `Possible`. After an overrun, `set` is empty.
    ///
    /// After an impossible CLCW, these are the components that would have been possible. The call's steps are those of
    /// `heard`, and 8,192 more for each place among the frames on their way. Nothing is allocated.
    pub fn possible(&mut self, set: &mut ShownSet)
        ensures possible { self.old.overrun ≡ false → (shown : Report) → Has set.new shown ↔ Allows self.old (Heard shown ∷ []) }
        ensures overrun { self.old.overrun ≡ true → IsEmpty set.new }
        ensures unchanged { self.new ≡ self.old }
    {
        clear(&mut set.flags);
        if self.overrun {
            return;
        }
        let Judge {
            rules,
            now,
            way,
            marks,
            layers,
            ..
        } = self;
        gather(rules, now.report(), way, marks, layers, &mut set.flags);
    }

    /// Goes on from these components: those of a CLCW that no history explains, those of the first CLCW that was heard
    /// of a unit to which frames were already on their way, or the first components of a unit that was reset while
    /// frames were on their way. Any number of the frames on their way, from the oldest on, may be gone.
    pub fn go_on(&mut self, from: Shown)
        ensures allows { (items : List Item) → Allows self.new items ↔ ((n : ℕ) × Explains self.old.rules (drop n self.old.way) from items) }
        ensures kept { (self.new.rules ≡ self.old.rules) × (self.new.way ≡ self.old.way) × (self.new.most ≡ self.old.most)
            × (self.new.overrun ≡ self.old.overrun) }
    {
        self.now = from;
        self.marks.fill(true);
    }

    /// Begins anew with a unit that has these components, and to which no frame is on its way. This ends an overrun.
    pub fn restart(&mut self, first: Shown)
        ensures allows { (items : List Item) → Allows self.new items ↔ Explains self.old.rules [] first items }
        ensures rules { self.new.rules ≡ self.old.rules }
        ensures room { (self.new.way ≡ []) × (self.new.most ≡ self.old.most) × (self.new.overrun ≡ false) }
    {
        self.now = first;
        self.way.clear();
        self.marks.clear();
        self.marks.push_reserved(true);
        self.overrun = false;
    }
}

// Returns a list of one mark, which is set, with room for `most` more.
fn room_for_marks(alloc: Global, most: usize) -> Result<Vec<bool>, AllocError>
    ensures mark { IfOk result (λ marks. marks.items ≡ true ∷ []) }
    ensures room { IfOk result (λ marks. most + 1 ≤ vec_capacity marks) }
{
    let mut marks = Vec::new(alloc);
    marks.push(true)?;
    marks.reserve(most)?;
    Ok(marks)
}

/// Returns whether a history of a unit that has the components `first`, and to which no frame is on its way, explains a
/// whole account. This allocates a judge with room for as many frames as the account has items. It fails if there is
/// too little memory.
pub fn is_possible(
    alloc: Global,
    rules: Rules,
    first: Shown,
    account: &[Item],
) -> Result<bool, AllocError>
    ensures { IfOk result (λ b. IsTrue b ↔ Explains rules [] first account.now) }
{
    let mut judge = Judge::new(alloc, rules, first, account.len())?;
    for item in account {
        match item {
            Item::Sent(frame) => judge.sent(*frame),
            Item::Heard(shown) => match judge.heard(*shown) {
                Verdict::Possible => {}
                Verdict::Impossible => return Ok(false),
                Verdict::Unknown => unreachable!(), // There is room for all frames of the account.
            },
        }
    }
    Ok(true)
}

// Returns whether some mark is set.
fn any(marks: &[bool]) -> bool
    ensures { IsTrue result ↔ ((k : ℕ) × (k < length marks.now) × IsTrue (slice_index_or marks.now k false)) }
{
    for mark in marks {
        if *mark {
            return true;
        }
    }
    false
}

// Drops the frames that the unit has certainly dealt with, and the marks in front of them.
fn trim(way: &mut Vec<SentFrame>, marks: &mut Vec<bool>)
    requires { length marks.old.items ≡ length way.old.items + 1 }
    ensures marks { length marks.new.items ≡ length way.new.items + 1 }
    ensures shorter { length way.new.items ≤ length way.old.items }
    ensures room { (vec_capacity way.new ≡ vec_capacity way.old) × (vec_capacity marks.new ≡ vec_capacity marks.old) }
    ensures some { (rules : Rules) (r : Report) (items : List Item)
        → SomeAt (λ s. Explains rules s r items) marks.new.items way.new.items
        ↔ SomeAt (λ s. Explains rules s r items) marks.old.items way.old.items }
{
    while way.len() > 0 {
        if marks[0] {
            return;
        }
        let _mark = marks.remove(0);
        let _frame = way.remove(0);
    }
}
