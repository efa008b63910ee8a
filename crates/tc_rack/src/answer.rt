//! Answers to the operations of a script.

ghost use Rattle.std.specs.Prelude.{◌≡◌, Some};
ghost use Rattle.std.specs.Fmt.{WritesOnOk};
ghost use Rattle.tc_rack.specs.Printed.{answer_text, refusal_text, frame_fault_text};

use std::fmt;
use tc_channel::{Delivery, FrameReply, Octets};
use tc_link::{FrameFault, LocateFault};
use tc_text::{Delivered, Digits, UnitDigits, WordDigits};

/// The answer to an operation.
#[derive(Debug, Drop)]
pub enum Answer {
    Frame { vcid: u8, reply: FrameReply },
    Release { vcid: u8, delivery: Delivery },
    Take { vcid: u8, apid: u16, packet: Octets },
    Unit { vcid: u8, map: u8, unit: Octets },
    Clcw { vcid: u8, word: u32 },
    Refused(Refusal),
}

/// A reason why an operation is refused.
#[derive(Clone, Copy, Debug, PartialEq, Eq)]
pub enum Refusal {
    /// Octets that don't begin with a frame for one of the channels.
    Unlocated(LocateFault),
    UnknownChannel,
    NoQueue,
    NoMap,
    Empty,
}

impl fmt::Display for Answer {
    ghost output = { λ answer. Some (answer_text answer) };

    fn fmt<W: fmt::Write>(&self, f: &mut fmt::Formatter<W>) -> fmt::Result {
        match self {
            Answer::Frame { vcid, reply } => write_frame(f, *vcid, reply),
            Answer::Release { vcid, delivery } => write_release(f, *vcid, *delivery),
            Answer::Take { vcid, apid, packet } => write_take(f, *vcid, *apid, packet.as_slice()),
            Answer::Unit { vcid, map, unit } => write_unit(f, *vcid, *map, unit.as_slice()),
            Answer::Clcw { vcid, word } => write_clcw(f, *vcid, *word),
            Answer::Refused(refusal) => write!(f, "refused {refusal}"),
        }
    }
}

fn write_frame<W: fmt::Write>(
    f: &mut fmt::Formatter<W>,
    vcid: u8,
    reply: &FrameReply,
) -> fmt::Result
    ensures { WritesOnOk W.write_str_gives f.old result (answer_text (Answer.Frame vcid reply.now)) f.new }
{
    let event = reply.act.event;
    let accepted = u8::from(reply.act.accepted);
    let delivery = Delivered(reply.delivery);
    write!(f, "frame {vcid} E{event} accepted {accepted} {delivery}")
}

fn write_release<W: fmt::Write>(
    f: &mut fmt::Formatter<W>,
    vcid: u8,
    delivery: Delivery,
) -> fmt::Result
    ensures { WritesOnOk W.write_str_gives f.old result (answer_text (Answer.Release vcid delivery)) f.new }
{
    let delivery = Delivered(delivery);
    write!(f, "release {vcid} {delivery}")
}

fn write_take<W: fmt::Write>(
    f: &mut fmt::Formatter<W>,
    vcid: u8,
    apid: u16,
    packet: &[u8],
) -> fmt::Result
    ensures { WritesOnOk W.write_str_gives f.old result (answer_text (Answer.Take vcid apid packet.now)) f.new }
{
    let digits = Digits(packet);
    write!(f, "take {vcid} {apid} {digits}")
}

fn write_unit<W: fmt::Write>(
    f: &mut fmt::Formatter<W>,
    vcid: u8,
    map: u8,
    unit: &[u8],
) -> fmt::Result
    ensures { WritesOnOk W.write_str_gives f.old result (answer_text (Answer.Unit vcid map unit.now)) f.new }
{
    let digits = UnitDigits(unit);
    write!(f, "unit {vcid} {map} {digits}")
}

fn write_clcw<W: fmt::Write>(f: &mut fmt::Formatter<W>, vcid: u8, word: u32) -> fmt::Result
    ensures { WritesOnOk W.write_str_gives f.old result (answer_text (Answer.Clcw vcid word)) f.new }
{
    let digits = WordDigits(word);
    write!(f, "clcw {vcid} {digits}")
}

impl Refusal {
    // Returns the words after `refused`.
    fn words(&self) -> &'static str
        ensures { result.now ≡ refusal_text self.now }
    {
        match self {
            Refusal::Unlocated(LocateFault::Frame(fault)) => words_of(fault),
            Refusal::Unlocated(LocateFault::OtherSpacecraft) => "spacecraft",
            Refusal::Unlocated(LocateFault::UnknownChannel) => "channel",
            Refusal::UnknownChannel => "channel",
            Refusal::NoQueue => "no queue",
            Refusal::NoMap => "no map",
            Refusal::Empty => "empty",
        }
    }
}

fn words_of(fault: &FrameFault) -> &'static str
    ensures { result.now ≡ frame_fault_text fault.now }
{
    match fault {
        FrameFault::Short => "short",
        FrameFault::Version => "version",
        FrameFault::Spare => "spare",
        FrameFault::LengthSmall => "length",
        FrameFault::Truncated => "truncated",
    }
}

impl fmt::Display for Refusal {
    ghost output = { λ refusal. Some (refusal_text refusal) };

    fn fmt<W: fmt::Write>(&self, f: &mut fmt::Formatter<W>) -> fmt::Result {
        f.write_str(self.words())
    }
}
