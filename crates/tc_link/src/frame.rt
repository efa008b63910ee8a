//! Transfer frames.

ghost use Rattle.std.specs.Prelude.{◌≡◌, ◌≤◌, ℕ, List, length, drop, IfOk, OnErr, MatchResult};
ghost use Rattle.tc_link.specs.Command.{kind_of};
ghost use Rattle.tc_link.specs.Frame.{IsWhole, BeginsWith, header_of, fault_of};

use crate::command::{Kind, read_command};
use std::marker::Model;
use thiserror::Error;

/// The fields of a primary header, apart from the fixed ones and the frame length (CCSDS 232.0-B, 4.1.2).
#[derive(Clone, Copy, Debug, PartialEq, Eq)]
pub struct Header {
    /// The bypass flag, which is set in Type-B frames.
    pub bypass: bool,
    /// The control command flag, which is set in Type-C frames.
    pub control: bool,
    /// The spacecraft id, 0 to 1,023.
    pub scid: u16,
    /// The virtual channel id, 0 to 63.
    pub vcid: u8,
    /// The frame sequence number N(S).
    pub ns: u8,
}

/// The first reason, in this order, why octets don't begin with a frame.
#[derive(Clone, Copy, Debug, PartialEq, Eq, Error)]
pub enum FrameFault {
    #[error("fewer than 5 octets")]
    Short,
    #[error("the version isn't 0")]
    Version,
    #[error("the spare bits aren't 0")]
    Spare,
    #[error("the frame length names fewer than 6 octets")]
    LengthSmall,
    #[error("the frame length names more octets than there are")]
    Truncated,
}

/// A whole transfer frame, with no fill after it. It borrows its octets from the input.
#[derive(Debug, Drop)]
pub struct Frame<'a> {
    octets: &'a [u8],
}

impl<'a> Model for Frame<'a> {
    ghost Value = { List ℕ };

    ghost view = { λ f. f.octets.now };

    ghost invariant = { λ f. IsWhole f.octets.now };
}

impl<'a> Frame<'a> {
    /// Returns all octets of the frame, 6 to 1,024.
    pub fn octets(&self) -> &'a [u8]
        ensures octets { result.now ≡ self.now }
        ensures whole { IsWhole self.now }
    {
        self.octets
    }

    /// Returns the fields of the primary header. Nothing is allocated.
    pub fn header(&self) -> Header
        ensures { result ≡ header_of self.now }
    {
        header_at(self.octets)
    }

    /// Returns the data field, 1 to 1,019 octets.
    pub fn field(&self) -> &'a [u8]
        ensures { result.now ≡ drop 5 self.now }
    {
        &self.octets[5..]
    }
}

fn header_at(octets: &[u8]) -> Header
    requires { 5 ≤ length octets.now }
    ensures { result ≡ header_of octets.now }
{
    let first = u16::from_be_bytes([octets[0], octets[1]]);
    let second = u16::from_be_bytes([octets[2], octets[3]]);
    Header {
        bypass: (first >> 13) & 1 == 1,
        control: (first >> 12) & 1 == 1,
        scid: first & 0x3ff,
        vcid: (second >> 10) as u8,
        ns: octets[4],
    }
}

/// Reads the frame at the front of the octets. Any octets that follow it are fill. If the octets don't begin with a
/// frame, the call returns the first fault.
pub fn read_frame(octets: &[u8]) -> Result<Frame<'_>, FrameFault>
    ensures frame { IfOk result (λ frame. BeginsWith octets.now frame) }
    ensures fault { MatchResult result (λ _. fault_of octets.now ≡ None) (λ fault. fault_of octets.now ≡ Some fault) }
    ensures none { OnErr result ((frame : List ℕ) → BeginsWith octets.now frame → ⊥) }
{
    if octets.len() < 5 {
        return Err(FrameFault::Short);
    }
    let first = u16::from_be_bytes([octets[0], octets[1]]);
    let second = u16::from_be_bytes([octets[2], octets[3]]);
    if first >> 14 != 0 {
        return Err(FrameFault::Version);
    }
    if (first >> 10) & 3 != 0 {
        return Err(FrameFault::Spare);
    }
    let length = (second & 0x3ff) as usize + 1;
    if length < 6 {
        return Err(FrameFault::LengthSmall);
    }
    if length > octets.len() {
        return Err(FrameFault::Truncated);
    }
    Ok(Frame {
        octets: &octets[..length],
    })
}

/// Returns the kind of a frame, which follows from its two flags, its N(S) and its data field.
pub fn kind(frame: &Frame) -> Kind
    ensures { result ≡ kind_of (header_of frame.now) (drop 5 frame.now) }
{
    let header = frame.header();
    match (header.bypass, header.control) {
        (false, false) => Kind::Ad(header.ns),
        (true, false) => Kind::Bd,
        (true, true) => match read_command(frame.field()) {
            Some(command) => Kind::Bc(command),
            None => Kind::Invalid,
        },
        (false, true) => Kind::Invalid,
    }
}
