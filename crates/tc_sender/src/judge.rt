//! A judge of a sender, at the receiving end.

ghost use Rattle.std.specs.Prelude.{◌≡◌, ◌≢◌, ◌<◌, ◌≤◌, ◌+◌, ◌∷◌, ◌++◌, ◌-◌, [], ℕ, IsTrue, true, IfSome, IfNone, ◌↔◌, drop, length, slice_index_or, vec_capacity, vec_len, IsSome};
ghost use Rattle.tc_sender.specs.Account.{IsWithin, vr_after};

use std::alloc::{AllocError, Global};
use std::marker::Model;

/// The window of a sender: the number K of frames, from 1 to 127, that it may send from the first one on that it
/// doesn't know to be accepted.
///
/// In contracts, the value is K.
#[derive(Clone, Copy, Debug)]
pub struct SenderWindow {
    width: u8,
}

impl Model for SenderWindow {
    ghost use Rattle.std.specs.Prelude.{ℕ, ◌≤◌};

    ghost Value = { ℕ };

    ghost view = { λ w. w.width };

    ghost inverse = { λ n. record { width = n } };

    ghost invariant = { λ w. (1 ≤ w.width) × (w.width ≤ 127) };
}

impl SenderWindow {
    /// Creates a window. Returns `None` unless the width is from 1 to 127.
    pub fn new(width: u8) -> Option<SenderWindow>
        ensures variant { IsSome result ↔ ((1 ≤ width) × (width ≤ 127)) }
        ensures width { IfSome result (λ window. window ≡ width) }
    {
        if width >= 1 && width <= 127 {
            Some(SenderWindow { width })
        } else {
            None
        }
    }

    /// Returns K.
    pub fn width(self) -> u8
        ensures width { result ≡ self }
        ensures range { (1 ≤ result) × (result ≤ 127) }
    {
        self.width
    }
}

/// The verdict of a judge on a frame that arrived or a CLCW that was made.
#[derive(Clone, Copy, Debug, PartialEq, Eq)]
pub enum SenderVerdict {
    /// A history of the sender explains it together with everything that was noted before.
    Explained,
    /// No history explains it. The sender doesn't keep its window, or a link doesn't keep the order.
    Breach,
    /// No right receiver does this. It accepts only a frame with the number V(R), and reports V(R) in each CLCW.
    Contradictory,
}

/// A judge of the sender of one virtual channel. What the receiving end sees is noted in it: the Type-AD frames that
/// arrive, the CLCWs that the receiver makes, and each Set V(R) that is obeyed. It finds whether a sender with a window
/// of K frames can have sent these frames over links that keep order.
///
/// Contracts are about the judge's knowledge of the sender. Memory is requested only when a judge is created.
#[derive(Debug, Drop)]
pub struct SenderJudge {
    window: SenderWindow,
    numbers: Vec<u8>,
    vr: u8,
}

impl Model for SenderJudge {
    ghost use Rattle.std.specs.Prelude.{◌≡◌, ◌+◌, ◌≤◌, length, vec_capacity};
    ghost use Rattle.tc_sender.specs.Account.{SenderKnowledge, IsKnown};

    ghost Value = { SenderKnowledge };

    ghost view = { λ j. record { window = j.window; numbers = j.numbers.items; vr = j.vr } };

    ghost invariant = { λ j. (j.window ≤ 127) × IsKnown j.window j.numbers.items j.vr × (j.window + 1 ≤ vec_capacity j.numbers) };
}

impl SenderJudge {
    ghost use Rattle.std.specs.Prelude.{◌≡◌, ◌≢◌, ◌↔◌, ◌∷◌, [], List, true, IfOk};
    ghost use Rattle.tc_sender.specs.Account.{Seen, Arrived, Made, Set, SenderExplains, SenderAllows};

    /// Creates a judge of a sender with this window, which numbers its frames from `vr` on, the V(R) of the receiver.
    ///
    /// This allocates K + 1 bytes. It fails if there is too little memory.
    pub fn new(alloc: Global, window: SenderWindow, vr: u8) -> Result<SenderJudge, AllocError>
        ensures allows { IfOk result (λ j. (items : List Seen) → SenderAllows j items ↔ SenderExplains window vr [] vr items) }
        ensures window { IfOk result (λ j. j.window ≡ window) }
    {
        let mut numbers = Vec::with_capacity(alloc, usize::from(window.width()) + 1)?;
        numbers.push_reserved(vr);
        Ok(SenderJudge {
            window,
            numbers,
            vr,
        })
    }

    /// Notes that a Type-AD frame arrived with this N(S) and this data field, and whether the receiver accepted it.
    /// Unless the verdict is `Explained`, the frame isn't noted.
    pub fn arrived(&mut self, number: u8, accepted: bool, field: &[u8]) -> SenderVerdict
        ensures explained { result ≡ SenderVerdict.Explained
            → (items : List Seen) → SenderAllows self.new items ↔ SenderAllows self.old (Arrived number accepted field.now ∷ items) }
        ensures unexplained { result ≢ SenderVerdict.Explained → (items : List Seen) → SenderAllows self.old (Arrived number accepted field.now ∷ items) → ⊥ }
        ensures contradictory { (result ≡ SenderVerdict.Contradictory) ↔ ((accepted ≡ true) × (number ≢ self.old.vr)) }
        ensures unchanged { result ≢ SenderVerdict.Explained → self.new ≡ self.old }
        ensures kept { self.new.window ≡ self.old.window }
    {
        if is_accepted_otherwise(accepted, number, self.vr) {
            return SenderVerdict::Contradictory;
        }
        let Some(read) = fewest_read(self.window.width(), &self.numbers, number) else {
            return SenderVerdict::Breach;
        };
        forget(&mut self.numbers, read);
        self.vr = vr_after(accepted, self.vr);
        SenderVerdict::Explained
    }

    /// Notes that the receiver made a CLCW with this V(R). Returns `Contradictory` if V(R) is another number. Then the
    /// CLCW isn't noted.
    pub fn made(&mut self, vr: u8) -> SenderVerdict
        ensures explained { result ≡ SenderVerdict.Explained → (items : List Seen) → SenderAllows self.new items ↔ SenderAllows self.old (Made vr ∷ items) }
        ensures unexplained { result ≢ SenderVerdict.Explained → (items : List Seen) → SenderAllows self.old (Made vr ∷ items) → ⊥ }
        ensures contradictory { (result ≡ SenderVerdict.Contradictory) ↔ (vr ≢ self.old.vr) }
        ensures no_breach { result ≢ SenderVerdict.Breach }
        ensures unchanged { result ≢ SenderVerdict.Explained → self.new ≡ self.old }
        ensures kept { self.new.window ≡ self.old.window }
    {
        if vr != self.vr {
            return SenderVerdict::Contradictory;
        }
        note(&mut self.numbers, vr);
        SenderVerdict::Explained
    }

    /// Notes that a Set V(R) to this number was obeyed. The sender numbers its frames from this number on. This call
    /// also lets a judge go on after a breach, with the V(R) of the receiver.
    pub fn set(&mut self, vr: u8)
        ensures allows { (items : List Seen) → SenderAllows self.new items ↔ SenderAllows self.old (Set vr ∷ items) }
        ensures kept { self.new.window ≡ self.old.window }
    {
        self.numbers.clear();
        self.numbers.push_reserved(vr);
        self.vr = vr;
    }
}

// Returns the place of the first number from which on the frame is within the window, or `None` if there is none.
fn fewest_read(window: u8, numbers: &[u8], number: u8) -> Option<usize>
    ensures some { IfSome result (λ place. (place < length numbers.now) × IsWithin window (slice_index_or numbers.now place 0) number
        × ((k : ℕ) → k < place → IsWithin window (slice_index_or numbers.now k 0) number → ⊥)) }
    ensures none { IfNone result ((k : ℕ) → k < length numbers.now → IsWithin window (slice_index_or numbers.now k 0) number → ⊥) }
{
    for (place, next) in numbers.iter().enumerate() {
        if is_within(window, *next, number) {
            return Some(place);
        }
    }
    None
}

fn is_accepted_otherwise(accepted: bool, number: u8, vr: u8) -> bool
    ensures { IsTrue result ↔ ((accepted ≡ true) × (number ≢ vr)) }
{
    accepted && number != vr
}

fn is_within(window: u8, next: u8, number: u8) -> bool
    ensures { IsTrue result ↔ IsWithin window next number }
{
    (u16::from(number) + 256 - u16::from(next)) % 256 < u16::from(window)
}

// Removes this many numbers from the front.
fn forget(numbers: &mut Vec<u8>, count: usize)
    requires { count ≤ length numbers.old.items }
    ensures items { numbers.new.items ≡ drop count numbers.old.items }
    ensures room { vec_capacity numbers.new ≡ vec_capacity numbers.old }
{
    let mut left = count;
    while left > 0 {
        let _number = numbers.remove(0);
        left -= 1;
    }
}

// Adds the number of a CLCW, unless it is the last one already.
fn note(numbers: &mut Vec<u8>, vr: u8)
    requires { slice_index_or numbers.old.items (length numbers.old.items - 1) vr ≢ vr → length numbers.old.items < vec_capacity numbers.old }
    ensures added { slice_index_or numbers.old.items (length numbers.old.items - 1) vr ≢ vr → numbers.new.items ≡ numbers.old.items ++ vr ∷ [] }
    ensures known { slice_index_or numbers.old.items (length numbers.old.items - 1) vr ≡ vr → numbers.new.items ≡ numbers.old.items }
    ensures room { vec_capacity numbers.new ≡ vec_capacity numbers.old }
{
    if newest(numbers, vr) == vr {
        return;
    }
    numbers.push_reserved(vr);
}

// Returns the last number, or `otherwise` if there is none.
fn newest(numbers: &[u8], otherwise: u8) -> u8
    ensures { result ≡ slice_index_or numbers.now (length numbers.now - 1) otherwise }
{
    match numbers.last() {
        Some(number) => *number,
        None => otherwise,
    }
}

fn vr_after(accepted: bool, vr: u8) -> u8
    ensures { result ≡ vr_after accepted vr }
{
    if accepted { vr.wrapping_add(1) } else { vr }
}
