//! Reading the items of an account from octets.

ghost use Rattle.std.specs.Prelude.{◌≡◌, ◌↔◌, IsTrue, List, ℕ, drop, IsSome, IfSome, IfNone};
ghost use Rattle.tc_link.specs.Clcw.{IsClcw, fields_of};
ghost use Rattle.tc_link.specs.Frame.{header_of};
ghost use Rattle.tc_judge.specs.Reading.{IsFor, is_other_command, shown, as_taken};

use crate::account::SentFrame;
use crate::shown::{Shown, shown_state};
use tc_link::{Frame, Kind, Report, kind, read_clcw, read_frame};

/// Reads the frame at the front of octets that are sent, as the unit of this spacecraft and virtual channel takes it.
/// Returns `None` if the octets don't begin with a frame, or if the frame is for another spacecraft or channel. Then
/// there is nothing to note.
///
/// `intact` is false if the frame has a wrong check sum, which makes it an invalid frame. If the sum is right, pass the
/// frame without its sum, and `true`. If frames on this link have no check sum, pass `true`. Nothing is allocated.
pub fn read_sent(octets: &[u8], scid: u16, vcid: u8, intact: bool) -> Option<SentFrame>
    ensures sent { IfSome result (λ sent. (frame : List ℕ) × IsFor octets.now frame scid vcid × (sent ≡ as_taken intact frame)) }
    ensures none { IfNone result ((frame : List ℕ) → IsFor octets.now frame scid vcid → ⊥) }
{
    let Ok(frame) = read_frame(octets) else {
        return None;
    };
    let header = frame.header();
    if header.scid != scid || header.vcid != vcid {
        return None;
    }
    Some(taken(&frame, intact))
}

fn taken(frame: &Frame, intact: bool) -> SentFrame
    ensures { result ≡ as_taken intact frame.now }
{
    if !intact {
        return SentFrame::Known(Kind::Invalid);
    }
    let header = frame.header();
    if header.bypass && header.control && is_other_command(frame.field()) {
        return SentFrame::OtherCommand;
    }
    SentFrame::Known(kind(frame))
}

fn is_other_command(field: &[u8]) -> bool
    ensures { result ≡ is_other_command field.now }
{
    match field {
        [] => false,
        [first, ..] => *first != 0 && *first != 0x82,
    }
}

/// Reads the components that a CLCW shows. Returns `None` if the word isn't a CLCW of COP-1 for this virtual channel.
/// Then there is nothing to note.
///
/// Nothing is allocated.
pub fn read_heard(word: u32, vcid: u8) -> Option<Shown>
    ensures variant { IsSome result ↔ (IsClcw word × ((fields_of word).vcid ≡ vcid)) }
    ensures report { IfSome result (λ r. r ≡ shown (fields_of word)) }
{
    let fields = read_clcw(word)?;
    if fields.vcid != vcid {
        return None;
    }
    Shown::new(Report {
        state: shown_state(fields.lockout, fields.wait),
        vr: fields.vr,
        lockout: fields.lockout,
        wait: fields.wait,
        retransmit: fields.retransmit,
        farm_b: fields.farm_b,
    })
}
