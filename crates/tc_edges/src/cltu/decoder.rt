//! The receiving end of CLTUs.

ghost use Rattle.std.specs.Prelude.{◌≡◌, ◌≢◌, ◌++◌, ◌∷◌, [], List, ℕ, true, map, length, Option, Some, None, ◌+◌, ◌<◌, IfSome, IfNone, IfOk, OnOk, OnErr, if◌then◌else◌};
ghost use Rattle.tc_edges.specs.Cltu.Cltu.{most_octets};
ghost use Rattle.tc_edges.specs.Cltu.CodeBlock.{decoded};
ghost use Rattle.tc_edges.specs.Cltu.Reception.{Receiver, Searching, Decoding, IsTaken, StopsShort, start_errors, is_start, reception_step, after_block, state_after, frames_of, counted_in, fate_of, fate_after, is_decoding};
ghost use Rattle.tc_edges.specs.declared.cltu.block.Fate.{Fate};

use crate::cltu::block::{Fate, Judged, Mode, judge};
use crate::cltu::writer::{MOST_OCTETS, START};
use std::alloc::{AllocError, Global};
use std::marker::Model;
use std::mem::replace;

/// The effect of an octet of a stream, or of the eight octets of a code block.
#[derive(Clone, Copy, Debug, PartialEq, Eq)]
pub struct Fed {
    /// The fate of the code block that was completed, if one was.
    pub fate: Option<Fate>,
    /// True if a candidate frame was completed, which [`carried`](Decoder::carried) then lends.
    pub ended: bool,
}

const NOTHING: Fed = Fed {
    fate: None,
    ended: false,
};

/// A decoder that finds CLTUs in a stream of octets. A CLTU yields a candidate frame, which still includes any fill.
///
/// While it searches, the decoder compares each two consecutive octets with the start sequence. In [`Mode::Correct`]
/// one of their sixteen bits may be wrong, and in [`Mode::Detect`] none. After the start sequence, code blocks are
/// decoded until one is rejected or exceeds [`MOST_OCTETS`]. The tail sequence is rejected in each mode. A CLTU that
/// carries more than [`MOST_OCTETS`] yields no candidate frame. The fate of the block that exceeds this limit is
/// [`Fate::Overlong`].
#[derive(Drop)]
pub struct Decoder {
    mode: Mode,
    decoding: bool,
    // the last octet of a search for a start sequence, or 0 if none has come
    last: u8,
    frame: Vec<u8>,
    block: [u8; 8],
    count: usize,
}

impl Model for Decoder {
    ghost use Rattle.std.specs.Prelude.{◌≡◌, ◌<◌, ◌≤◌, length, take, vec_capacity, if◌then◌else◌};
    ghost use Rattle.tc_edges.specs.Cltu.Cltu.{most_octets};
    ghost use Rattle.tc_edges.specs.Cltu.Reception.{Receiver, Searching, Decoding};

    ghost Value = { Receiver };

    ghost view = { λ d. record {
      mode = d.mode;
      state = (if d.decoding then Decoding d.frame.items (take d.count d.block) else Searching d.last);
      carried = d.frame.items;
    } };

    ghost invariant = { λ d. (d.count < 8) × (most_octets ≤ vec_capacity d.frame) × (length d.block ≡ 8) };
}

impl Decoder {
    /// Creates a decoder that searches for a start sequence. Memory for [`MOST_OCTETS`] is allocated here.
    pub fn new(alloc: Global, mode: Mode) -> Result<Decoder, AllocError>
        ensures { IfOk result (λ decoder. decoder ≡ record { mode = mode; state = Searching 0; carried = [] }) }
    {
        let frame = Vec::with_capacity(alloc, MOST_OCTETS)?;
        Ok(Decoder {
            mode,
            decoding: false,
            last: 0,
            frame,
            block: [0; 8],
            count: 0,
        })
    }

    /// Processes the next octet of the stream. No memory is requested.
    pub fn feed_octet(&mut self, octet: u8) -> Fed
        ensures mode { self.new.mode ≡ self.old.mode }
        ensures state { self.new.state ≡ (reception_step self.old.mode most_octets self.old.state octet).0 }
        ensures given { (if result.ended then self.new.carried ∷ [] else []) ≡ (reception_step self.old.mode most_octets self.old.state octet).1 }
        ensures fate { result.fate ≡ fate_of self.old.mode most_octets self.old.state octet }
    {
        if !self.decoding {
            if begins(self.mode, self.last, octet) {
                self.decoding = true;
                self.frame.clear();
                self.count = 0;
            } else {
                self.last = octet;
            }
            return NOTHING;
        }
        self.block[self.count] = octet;
        if self.count < 7 {
            self.count += 1;
            return NOTHING;
        }
        self.count = 0;
        let block = self.block;
        self.end_block(&block)
    }

    /// Processes the next eight octets of the stream at once, if a code block begins with them. Otherwise it processes
    /// none, and returns `None`. No memory is requested.
    #[inline(always)]
    pub fn feed_block(&mut self, block: &[u8; 8]) -> Option<Fed>
        ensures mode { self.new.mode ≡ self.old.mode }
        ensures begins { IfSome result (λ fed. self.old.state ≡ Decoding self.old.carried []) }
        ensures state { IfSome result (λ fed. self.new.state ≡ state_after self.old.mode most_octets self.old.state block.now) }
        ensures given { IfSome result (λ fed. (if fed.ended then self.new.carried ∷ [] else [])
            ≡ frames_of self.old.mode most_octets self.old.state block.now) }
        ensures fate { IfSome result (λ fed. fed.fate ≡ Some (fate_after self.old.mode most_octets self.old.carried block.now)) }
        ensures none { IfNone result ((self.old.state ≢ Decoding self.old.carried []) × (self.new ≡ self.old)) }
    {
        if !self.decoding || self.count != 0 {
            return None;
        }
        Some(self.end_block(block))
    }

    /// Processes the front of a piece of the stream. The front is a code block if one begins there and the piece has
    /// all of it, and otherwise one octet. Returns the effect of the front and the rest of the piece, or `None` if the
    /// piece is empty. No memory is requested.
    #[inline(always)]
    #[tactic(auto, using(crate::proofs::CltuLemmas::Decoding::taken_block, crate::proofs::CltuLemmas::Decoding::taken_octet))]
    pub fn feed_front<'a>(&mut self, piece: &'a [u8]) -> Option<(Fed, &'a [u8])>
        ensures mode { self.new.mode ≡ self.old.mode }
        ensures less { IfSome result (λ p. length p.1.now < length piece.now) }
        ensures front { IfSome result (λ p. IsTaken most_octets self.old self.new piece.now p.1.now
            (if p.0.ended then self.new.carried ∷ [] else [])) }
        ensures state { IfSome result (λ p. state_after self.old.mode most_octets self.new.state p.1.now
            ≡ state_after self.old.mode most_octets self.old.state piece.now) }
        ensures given { IfSome result (λ p. (if p.0.ended then self.new.carried ∷ [] else [])
            ++ frames_of self.old.mode most_octets self.new.state p.1.now
            ≡ frames_of self.old.mode most_octets self.old.state piece.now) }
        ensures fates { IfSome result (λ p. (count : Option Fate → ℕ) → count None ≡ 0
            → count p.0.fate + counted_in count self.old.mode most_octets self.new.state p.1.now
            ≡ counted_in count self.old.mode most_octets self.old.state piece.now) }
        ensures none { IfNone result ((piece.now ≡ []) × (self.new ≡ self.old)) }
    {
        if let Some((block, rest)) = piece.split_first_chunk::<8>() {
            if let Some(fed) = self.feed_block(block) {
                return Some((fed, rest));
            }
        }
        let (octet, rest) = piece.split_first()?;
        Some((self.feed_octet(*octet), rest))
    }

    // Processes a code block after its last octet.
    #[inline(always)]
    fn end_block(&mut self, block: &[u8; 8]) -> Fed
        requires { self.old.state ≡ Decoding self.old.carried [] }
        ensures mode { self.new.mode ≡ self.old.mode }
        ensures state { self.new.state ≡ (after_block most_octets self.old.carried (decoded self.old.mode block.now)).0 }
        ensures given { (if result.ended then self.new.carried ∷ [] else [])
            ≡ (after_block most_octets self.old.carried (decoded self.old.mode block.now)).1 }
        ensures fate { result.fate ≡ Some (fate_after self.old.mode most_octets self.old.carried block.now) }
    {
        let Judged { fate, block } = judge(block, self.mode);
        match block {
            None => {
                self.decoding = false;
                self.last = 0;
                Fed {
                    fate: Some(fate),
                    ended: self.frame.len() > 0,
                }
            }
            Some(block) => {
                if self.frame.len() + 7 > MOST_OCTETS {
                    self.decoding = false;
                    self.last = 0;
                    return Fed {
                        fate: Some(Fate::Overlong),
                        ended: false,
                    };
                }
                self.frame.extend_from_slice(&block[..7]).unwrap();
                Fed {
                    fate: Some(fate),
                    ended: false,
                }
            }
        }
    }

    /// Restarts the search for a start sequence, as after a loss of bit lock (CCSDS 231.0-B). Returns whether the
    /// restart cuts a CLTU short. In that case the code blocks that were accepted since its start sequence yield no
    /// candidate frame.
    pub fn search_anew(&mut self) -> bool
        ensures mode { self.new.mode ≡ self.old.mode }
        ensures state { self.new.state ≡ Searching 0 }
        ensures cut_short { result ≡ is_decoding self.old.state }
    {
        self.last = 0;
        replace(&mut self.decoding, false)
    }

    /// Lends the octets of the code blocks that were accepted since the last start sequence. They are a candidate frame
    /// if the last octet completed one.
    pub fn carried(&self) -> &[u8]
        ensures { result.now ≡ self.now.carried }
    {
        &self.frame
    }

    /// Processes the next piece of the stream, of any length, and adds a copy of each candidate frame that ends in it.
    ///
    /// If memory runs out for a candidate frame, the octets up to its end have been processed, and those after it
    /// haven't. All candidate frames before it were added, and [`carried`](Decoder::carried) lends this one.
    pub fn feed(
        &mut self,
        alloc: Global,
        frames: &mut Vec<Vec<u8>>,
        piece: &[u8],
    ) -> Result<(), AllocError>
        ensures mode { self.new.mode ≡ self.old.mode }
        ensures state { OnOk result (self.new.state ≡ state_after self.old.mode most_octets self.old.state piece.now) }
        ensures short { OnErr result ((given : List (List ℕ))
            × (map (λ frame. frame.items) frames.new.items ≡ map (λ frame. frame.items) frames.old.items ++ given)
            × StopsShort most_octets self.old self.new piece.now given) }
        ensures frames { OnOk result (map (λ frame. frame.items) frames.new.items
            ≡ map (λ frame. frame.items) frames.old.items ++ frames_of self.old.mode most_octets self.old.state piece.now) }
    {
        let mut rest = piece;
        while let Some((fed, others)) = self.feed_front(rest) {
            rest = others;
            self.keep(alloc, frames, fed.ended)?;
        }
        Ok(())
    }

    // Adds a copy of the candidate frame that the last octets completed, if they completed one.
    fn keep(&self, alloc: Global, frames: &mut Vec<Vec<u8>>, ended: bool) -> Result<(), AllocError>
        ensures unchanged { OnErr result (map (λ frame. frame.items) frames.new.items ≡ map (λ frame. frame.items) frames.old.items) }
        ensures ended { OnErr result (ended ≡ true) }
        ensures frames { OnOk result (map (λ frame. frame.items) frames.new.items
            ≡ map (λ frame. frame.items) frames.old.items ++ (if ended then self.now.carried ∷ [] else [])) }
    {
        if !ended {
            return Ok(());
        }
        let frame = Vec::from_slice(alloc, self.carried())?;
        frames.push(frame)?;
        Ok(())
    }
}

/// Returns whether two octets count as the start sequence. They may have as many wrong bits as the mode allows in a
/// code block.
pub fn begins(mode: Mode, last: u8, octet: u8) -> bool
    ensures { result ≡ is_start mode last octet }
{
    let wrong = wrong_bits(last, octet);
    match mode {
        Mode::Detect => wrong == 0,
        Mode::Correct => wrong <= 1,
    }
}

// Returns the number of bits in which two octets differ from the start sequence.
fn wrong_bits(last: u8, octet: u8) -> u32
    ensures { result ≡ start_errors last octet }
{
    (last ^ START[0]).count_ones() + (octet ^ START[1]).count_ones()
}
