//! Explanations of octets as a frame or as a CLCW, in lines.

ghost use Rattle.std.specs.Prelude.{◌≡◌, ◌++◌, OnOk};
ghost use Rattle.std.specs.Io.KnownBytes.{Appends};
ghost use Rattle.tc_link.specs.Frame.{IsWhole};
ghost use Rattle.tc_lines.specs.Answering.{Writes};
ghost use Rattle.tc_make.specs.Answer.{OrNoMemory, IsWholeSaid, IsEndedSaid, IsExplained, AreFramesSaid, IsClcwSaid, field_fault_text};
ghost use Rattle.tc_make.specs.Printed.{frame_fault_text, kind_text, fields_text, lengths_text, header_text, part_text, segment_text, type_text, holds_text, whole_text, printed_text, unit_packets_text, body_text, carried_text, field_text, frame_text, more_text, rest_text, explanation_text, clcw_front_text, flags_text, numbers_text, clcw_text};

use crate::ending::Ending;
use crate::explaining::{Explanation, explain};
use crate::fault::Reason;
use crate::printed::{write_bad, write_named, write_refused, write_some};
use std::alloc::Global;
use std::io;
use std::io::Write;
use tc_edges::fecf::{FieldFault, delimit, is_fill, without_field};
use tc_lines::Digits;
use tc_link::{
    ClcwFields, Command, Frame, FrameFault, Header, Kind, each_input_begins_with_one_frame_at_most,
    read_clcw, read_frame,
};
use tc_packet::{Packet, Part, Segment, next_packet, read_segment};

/// Writes the explanation of the frame at the front of the octets, and of the octets that follow it. The frame is as
/// long as its length field says. If frames end with a frame error control field, this field is removed first. If there
/// is no frame at the front, or its field can't be removed, the reason is written instead.
pub(crate) fn write_explained<W: Write>(
    alloc: Global,
    ending: Ending,
    octets: &[u8],
    writer: &mut W,
) -> io::Result<()>
    ensures { OnOk result (Writes (W.contents writer.old) (W.contents writer.new) (OrNoMemory (IsExplained ending octets.now))) }
{
    match delimit(octets) {
        Ok(found) => write_ended(alloc, ending, found.frame, found.rest, writer),
        Err(fault) => write_refused(fault_word(fault), writer),
    }
}

// Writes the explanation of a frame with this ending, or the reason why its frame error control field can't be removed.
fn write_ended<W: Write>(
    alloc: Global,
    ending: Ending,
    frame: &[u8],
    rest: &[u8],
    writer: &mut W,
) -> io::Result<()>
    requires { IsWhole frame.now }
    ensures { OnOk result (Writes (W.contents writer.old) (W.contents writer.new) (OrNoMemory (IsEndedSaid ending frame.now rest.now))) }
{
    match ending {
        Ending::DataField => write_whole_frame(frame, rest, writer),
        Ending::ErrorControl => match without_field(alloc, frame) {
            Ok(plain) => write_whole_frame(&plain, rest, writer),
            Err(fault) => write_field_fault(fault, writer),
        },
    }
}

// Writes the reason why no frame error control field can be removed.
fn write_field_fault<W: Write>(fault: FieldFault, writer: &mut W) -> io::Result<()>
    ensures { OnOk result (Appends (W.contents writer.old) (W.contents writer.new) (field_fault_text fault)) }
{
    match fault {
        FieldFault::NoFrame(fault) => write_refused(fault_word(fault), writer),
        FieldFault::Fill => write_refused("fill", writer),
        FieldFault::TooLong => write_refused("check", writer),
        FieldFault::TooShort => write_refused("check", writer),
        FieldFault::WrongSum => write_refused("check", writer),
        FieldFault::NoMemory => write_bad(Reason::NoMemory, writer),
    }
}

// Writes the explanation of a whole frame, and of the octets `rest` that follow it.
fn write_whole_frame<W: Write>(frame: &[u8], rest: &[u8], writer: &mut W) -> io::Result<()>
    requires { IsWhole frame.now }
    ensures { OnOk result (Writes (W.contents writer.old) (W.contents writer.new) (IsWholeSaid frame.now rest.now)) }
{
    let read = read_whole(frame);
    write_explanation(&explain(&read, rest), writer)
}

// Reads octets that are one whole frame.
fn read_whole(octets: &[u8]) -> Frame<'_>
    requires { IsWhole octets.now }
    ensures { result ≡ octets.now }
{
    // `read_frame` can return only these octets as a whole, since octets begin with at most one frame.
    each_input_begins_with_one_frame_at_most();
    match read_frame(octets) {
        Ok(frame) => frame,
        Err(_) => unreachable!(),
    }
}

fn fault_word(fault: FrameFault) -> &'static str
    ensures { result.now ≡ frame_fault_text fault }
{
    match fault {
        FrameFault::Short => "short",
        FrameFault::Version => "version",
        FrameFault::Spare => "spare",
        FrameFault::LengthSmall => "length",
        FrameFault::Truncated => "truncated",
    }
}

#[tactic(auto, using(crate::proofs::Written::joined))]
fn write_explanation<W: Write>(explanation: &Explanation<'_>, writer: &mut W) -> io::Result<()>
    ensures { OnOk result (Appends (W.contents writer.old) (W.contents writer.new) (explanation_text explanation.now)) }
{
    write_said(explanation, writer)?;
    write_more(explanation.rest, writer)
}

#[tactic(auto, using(crate::proofs::Written::joined), unfolding(crate::specs::Printed::frame_text))]
fn write_said<W: Write>(explanation: &Explanation<'_>, writer: &mut W) -> io::Result<()>
    ensures { OnOk result (Appends (W.contents writer.old) (W.contents writer.new) (frame_text explanation.now)) }
{
    write_header(
        explanation.header,
        explanation.length,
        explanation.rest.len(),
        writer,
    )?;
    write_field(explanation.kind, explanation.field, writer)
}

// Writes the octets that follow a frame, unless they are fill.
#[tactic(auto, unfolding(crate::specs::Printed::more_text))]
fn write_more<W: Write>(rest: &[u8], writer: &mut W) -> io::Result<()>
    ensures { OnOk result (Appends (W.contents writer.old) (W.contents writer.new) (more_text rest.now)) }
{
    if is_fill(rest) {
        return Ok(());
    }
    write_named("more", rest, writer)
}

/// Writes the frames that a CLTU carried, at most `most` of them, one after the other. Then writes the octets that
/// follow them, or only their number if they are fill.
pub(crate) fn write_frames<W: Write>(most: u8, octets: &[u8], writer: &mut W) -> io::Result<()>
    ensures { OnOk result (Writes (W.contents writer.old) (W.contents writer.new) (AreFramesSaid most octets.now)) }
{
    let mut rest = octets;
    for _ in 0..most {
        match delimit(rest) {
            Ok(found) => {
                write_named("frame", found.frame, writer)?;
                rest = found.rest;
            }
            Err(_) => return write_rest(rest, writer),
        }
    }
    write_rest(rest, writer)
}

#[tactic(auto, unfolding(crate::specs::Printed::rest_text))]
fn write_rest<W: Write>(rest: &[u8], writer: &mut W) -> io::Result<()>
    ensures { OnOk result (Appends (W.contents writer.old) (W.contents writer.new) (rest_text rest.now)) }
{
    if is_fill(rest) {
        let fill = rest.len();
        writeln!(writer, "fill {fill}")
    } else {
        write_named("more", rest, writer)
    }
}

fn kind_word(bypass: bool, control: bool) -> &'static str
    ensures { result.now ≡ kind_text bypass control }
{
    match (bypass, control) {
        (false, false) => "AD",
        (true, false) => "BD",
        (true, true) => "BC",
        (false, true) => "AC",
    }
}

#[tactic(auto, using(crate::proofs::Written::joined))]
fn write_header<W: Write>(
    header: Header,
    length: usize,
    fill: usize,
    writer: &mut W,
) -> io::Result<()>
    ensures { OnOk result (Appends (W.contents writer.old) (W.contents writer.new) (header_text header length fill)) }
{
    write_fields(header, writer)?;
    write_lengths(length, fill, writer)
}

fn write_fields<W: Write>(header: Header, writer: &mut W) -> io::Result<()>
    ensures { OnOk result (Appends (W.contents writer.old) (W.contents writer.new) (fields_text header)) }
{
    let kind = kind_word(header.bypass, header.control);
    let scid = header.scid;
    let vcid = header.vcid;
    let ns = header.ns;
    write!(writer, "header {kind} scid {scid} vc {vcid} ns {ns}")
}

fn write_lengths<W: Write>(length: usize, fill: usize, writer: &mut W) -> io::Result<()>
    ensures { OnOk result (Appends (W.contents writer.old) (W.contents writer.new) (lengths_text length fill)) }
{
    writeln!(writer, " octets {length} fill {fill}")
}

// Writes the explanation of the data field, which depends on the kind of the frame.
fn write_field<W: Write>(kind: Kind, field: &[u8], writer: &mut W) -> io::Result<()>
    ensures { OnOk result (Appends (W.contents writer.old) (W.contents writer.new) (field_text kind field.now)) }
{
    match kind {
        Kind::Ad(_) => write_carried(field, writer),
        Kind::Bd => write_carried(field, writer),
        Kind::Bc(Command::Unlock) => writeln!(writer, "command unlock"),
        Kind::Bc(Command::SetVr(vr)) => writeln!(writer, "command setvr {vr}"),
        Kind::Invalid => write_named("invalid", field, writer),
    }
}

// Writes the segment header of a data field, and the octets after it.
#[tactic(auto, using(crate::proofs::Written::joined))]
fn write_carried<W: Write>(field: &[u8], writer: &mut W) -> io::Result<()>
    ensures { OnOk result (Appends (W.contents writer.old) (W.contents writer.new) (carried_text field.now)) }
{
    let Some((first, body)) = field.split_first() else {
        return Ok(());
    };
    let segment = read_segment(*first);
    write_segment(segment, body.len(), writer)?;
    write_body(segment.part, body, writer)
}

fn part_word(part: Part) -> &'static str
    ensures { result.now ≡ part_text part }
{
    match part {
        Part::First => "first",
        Part::Continuing => "continuing",
        Part::Last => "last",
        Part::Unsegmented => "unsegmented",
    }
}

fn write_segment<W: Write>(segment: Segment, length: usize, writer: &mut W) -> io::Result<()>
    ensures { OnOk result (Appends (W.contents writer.old) (W.contents writer.new) (segment_text segment length)) }
{
    let part = part_word(segment.part);
    let map = segment.map;
    writeln!(writer, "segment {part} map {map} octets {length}")
}

// Writes the octets after a segment header: the packets of a whole unit, or a part of a unit.
fn write_body<W: Write>(part: Part, body: &[u8], writer: &mut W) -> io::Result<()>
    ensures { OnOk result (Appends (W.contents writer.old) (W.contents writer.new) (body_text part body.now)) }
{
    match part {
        Part::First => write_some("body", body, writer),
        Part::Continuing => write_some("body", body, writer),
        Part::Last => write_some("body", body, writer),
        Part::Unsegmented => write_unit(body, writer),
    }
}

// Writes the packets of a unit in order, and the octets that are left.
fn write_unit<W: Write>(unit: &[u8], writer: &mut W) -> io::Result<()>
    ensures { OnOk result (Appends (W.contents writer.old) (W.contents writer.new) (unit_packets_text unit.now)) }
{
    let mut rest = unit;
    while let Some((packet, after)) = next_packet(rest) {
        write_packet(&packet, writer)?;
        rest = after;
    }
    write_some("rest", rest, writer)
}

fn type_word(telecommand: bool) -> &'static str
    ensures { result.now ≡ type_text telecommand }
{
    if telecommand { "TC" } else { "TM" }
}

#[tactic(auto, using(crate::proofs::Written::joined))]
fn write_packet<W: Write>(packet: &Packet<'_>, writer: &mut W) -> io::Result<()>
    ensures { OnOk result (Appends (W.contents writer.old) (W.contents writer.new) (printed_text packet.now)) }
{
    write_holds(packet, writer)?;
    write_whole(packet.secondary, packet.octets, writer)
}

fn write_holds<W: Write>(packet: &Packet<'_>, writer: &mut W) -> io::Result<()>
    ensures { OnOk result (Appends (W.contents writer.old) (W.contents writer.new)
        (holds_text packet.now.telecommand packet.now.apid packet.now.count packet.now.flags)) }
{
    let kind = type_word(packet.telecommand);
    let apid = packet.apid;
    let count = packet.count;
    let flags = packet.flags;
    write!(
        writer,
        "holds {kind} apid {apid} count {count} flags {flags}"
    )
}

fn write_whole<W: Write>(secondary: bool, octets: &[u8], writer: &mut W) -> io::Result<()>
    ensures { OnOk result (Appends (W.contents writer.old) (W.contents writer.new) (whole_text secondary octets.now)) }
{
    let secondary = u8::from(secondary);
    let digits = Digits(octets);
    writeln!(writer, " secondary {secondary} {digits}")
}

/// Writes the explanation of octets as a CLCW, or the reason why they aren't one.
pub(crate) fn write_clcw<W: Write>(octets: &[u8], writer: &mut W) -> io::Result<()>
    ensures { OnOk result (Writes (W.contents writer.old) (W.contents writer.new) (OrNoMemory (IsClcwSaid octets.now))) }
{
    let [a, b, c, d] = octets else {
        return write_bad(Reason::BadClcw, writer);
    };
    match read_clcw(u32::from_be_bytes([*a, *b, *c, *d])) {
        Some(fields) => write_clcw_fields(&fields, writer),
        None => write_refused("clcw", writer),
    }
}

#[tactic(auto, using(crate::proofs::Written::joined))]
fn write_clcw_fields<W: Write>(fields: &ClcwFields, writer: &mut W) -> io::Result<()>
    ensures { OnOk result (Appends (W.contents writer.old) (W.contents writer.new) (clcw_text fields.now)) }
{
    write_link(fields, writer)?;
    write_report(fields, writer)
}

fn write_link<W: Write>(fields: &ClcwFields, writer: &mut W) -> io::Result<()>
    ensures { OnOk result (Appends (W.contents writer.old) (W.contents writer.new) (clcw_front_text fields.now)) }
{
    let vcid = fields.vcid;
    let status = fields.status;
    let no_rf = u8::from(fields.link.no_rf);
    let no_bit_lock = u8::from(fields.link.no_bit_lock);
    write!(
        writer,
        "clcw vc {vcid} status {status} norf {no_rf} nobitlock {no_bit_lock}"
    )
}

#[tactic(auto, using(crate::proofs::Written::joined))]
fn write_report<W: Write>(fields: &ClcwFields, writer: &mut W) -> io::Result<()>
    ensures { OnOk result (Appends (W.contents writer.old) (W.contents writer.new) (flags_text fields.now ++ numbers_text fields.now)) }
{
    write_flags(fields, writer)?;
    write_numbers(fields, writer)
}

fn write_flags<W: Write>(fields: &ClcwFields, writer: &mut W) -> io::Result<()>
    ensures { OnOk result (Appends (W.contents writer.old) (W.contents writer.new) (flags_text fields.now)) }
{
    let lockout = u8::from(fields.lockout);
    let wait = u8::from(fields.wait);
    let retransmit = u8::from(fields.retransmit);
    write!(
        writer,
        " lockout {lockout} wait {wait} retransmit {retransmit}"
    )
}

fn write_numbers<W: Write>(fields: &ClcwFields, writer: &mut W) -> io::Result<()>
    ensures { OnOk result (Appends (W.contents writer.old) (W.contents writer.new) (numbers_text fields.now)) }
{
    let farm_b = fields.farm_b;
    let vr = fields.vr;
    writeln!(writer, " farmb {farm_b} vr {vr}")
}
