//! The answers to lines.

ghost use Rattle.std.specs.Prelude.{◌≡◌, ◌<◌, None, codes, length, IfOk, OnOk};
ghost use Rattle.tc_lines.specs.Answering.{Writes};
ghost use Rattle.tc_make.specs.Answer.{OrNoMemory, IsAnswer, IsSaid, IsKept, IsMadePacketSaid, IsMadeFrameSaid, IsCommandSaid, IsEnded, IsUnitSaid, IsFramesSaid, IsPartSaid};
ghost use Rattle.tc_link.specs.Frame.{IsWhole};
ghost use Rattle.tc_make.specs.Line.{maker_line_of};
ghost use Rattle.tc_edges.specs.Write.Parts.{segments_needed};
ghost use Rattle.tc_make.specs.Decoders.{IsDecoderSaid};
ghost use Rattle.tc_make.specs.Parting.{parting_reason_of};
ghost use Rattle.tc_lines.specs.Word.{words as words_of};

use crate::decoders::Decoders;
use crate::ending::Ending;
use crate::explained::{write_clcw, write_explained, write_frames};
use crate::fault::Reason;
use crate::frames::{make_command, make_frame};
use crate::line::{Line, Sizing, Stream, parse_line};
use crate::link::{write_coded, write_random, write_telemetry, write_tm};
use crate::maker::Maker;
use crate::packets::make_packet;
use crate::parting::Parting;
use crate::printed::{write_bad, write_named};
use std::alloc::Global;
use std::io;
use std::io::Write;
use tc_edges::cltu::Mode;
use tc_link::{Command, Header};
use tc_packet::Segment;

/// Carries out a line, which is given without its line feed, and writes its answer. The answer has no line of text, one
/// line, or several.
///
/// If nothing can be made from a line, the answer is `bad` and the reason. If memory runs out, `bad no memory` takes
/// the place of the rest of the answer. By then, some frames of a unit may have been written.
pub fn answer_line<W: Write>(
    alloc: Global,
    maker: &mut Maker,
    octets: &[u8],
    writer: &mut W,
) -> io::Result<()>
    ensures answer { OnOk result (Writes (W.contents writer.old) (W.contents writer.new)
        (IsAnswer maker.old (maker_line_of (words_of octets.now)) maker.new)) }
{
    match parse_line(alloc, octets) {
        Ok(line) => answer(alloc, maker, &line, writer),
        Err(reason) => write_bad(reason, writer),
    }
}

fn answer<W: Write>(alloc: Global, maker: &mut Maker, line: &Line, writer: &mut W) -> io::Result<()>
    ensures said { OnOk result (Writes (W.contents writer.old) (W.contents writer.new) (IsSaid maker.old line.now maker.new)) }
    ensures kept { IsKept maker.old line.now maker.new }
{
    let ending = maker.ending;
    match line {
        Line::Blank => Ok(()),
        Line::Packet {
            apid,
            count,
            octets,
        } => write_packet(alloc, *apid, *count, octets.as_slice(), writer),
        Line::Frame {
            header,
            segment,
            octets,
        } => write_frame(alloc, ending, header, *segment, octets.as_slice(), writer),
        Line::Command {
            scid,
            vcid,
            command,
        } => write_command(alloc, ending, *scid, *vcid, *command, writer),
        Line::Segments {
            stream,
            sizing,
            unit,
        } => write_segments(alloc, ending, *stream, *sizing, unit.as_slice(), writer),
        Line::Explain(octets) => write_explained(alloc, ending, octets.as_slice(), writer),
        Line::Clcw(octets) => write_clcw(octets.as_slice(), writer),
        Line::Cltu(octets) => write_coded(alloc, octets.as_slice(), writer),
        Line::Random(octets) => write_random(alloc, octets.as_slice(), writer),
        Line::Telemetry(octets) => write_telemetry(ending, octets.as_slice(), writer),
        Line::Tm(order) => write_tm(alloc, ending, &mut maker.counts, *order, writer),
        Line::Decoder { id, mode } => begin(alloc, &mut maker.decoders, *id, *mode, writer),
        Line::Piece { id, octets } => { maker.decoders.write_piece(*id, octets.as_slice(), writer) }
        Line::Search(id) => maker.decoders.write_search(*id, writer),
        Line::Frames { most, octets } => write_frames(*most, octets.as_slice(), writer),
    }
}

// Gives a stream a new decoder. Nothing is written unless memory runs out.
fn begin<W: Write>(
    alloc: Global,
    decoders: &mut Decoders,
    id: u8,
    mode: Mode,
    writer: &mut W,
) -> io::Result<()>
    ensures { OnOk result (Writes (W.contents writer.old) (W.contents writer.new) (IsDecoderSaid decoders.old id mode decoders.new)) }
{
    match decoders.begin(alloc, id, mode) {
        Ok(()) => Ok(()),
        Err(_) => write_bad(Reason::NoMemory, writer),
    }
}

fn write_packet<W: Write>(
    alloc: Global,
    apid: u16,
    count: u16,
    octets: &[u8],
    writer: &mut W,
) -> io::Result<()>
    ensures { OnOk result (Writes (W.contents writer.old) (W.contents writer.new) (OrNoMemory (IsMadePacketSaid apid count octets.now))) }
{
    match make_packet(alloc, apid, count, octets) {
        Ok(packet) => write_named("packet", &packet, writer),
        Err(reason) => write_bad(reason, writer),
    }
}

fn write_frame<W: Write>(
    alloc: Global,
    ending: Ending,
    header: &Header,
    segment: Option<Segment>,
    octets: &[u8],
    writer: &mut W,
) -> io::Result<()>
    ensures { OnOk result (Writes (W.contents writer.old) (W.contents writer.new)
        (OrNoMemory (IsMadeFrameSaid ending header.now segment octets.now))) }
{
    match make_frame(alloc, header, segment, octets) {
        Ok(frame) => write_ended(alloc, ending, frame, writer),
        Err(reason) => write_bad(reason, writer),
    }
}

fn write_command<W: Write>(
    alloc: Global,
    ending: Ending,
    scid: u16,
    vcid: u8,
    command: Command,
    writer: &mut W,
) -> io::Result<()>
    ensures { OnOk result (Writes (W.contents writer.old) (W.contents writer.new) (OrNoMemory (IsCommandSaid ending scid vcid command))) }
{
    match make_command(alloc, scid, vcid, command) {
        Ok(frame) => write_ended(alloc, ending, frame, writer),
        Err(reason) => write_bad(reason, writer),
    }
}

// Writes the frame after its ending is added, or the reason why the frame can't have this ending.
fn write_ended<W: Write>(
    alloc: Global,
    ending: Ending,
    frame: Vec<u8>,
    writer: &mut W,
) -> io::Result<()>
    requires { IsWhole frame.items }
    ensures { OnOk result (Writes (W.contents writer.old) (W.contents writer.new) (OrNoMemory (IsEnded ending frame.items))) }
{
    match ending.end(alloc, frame) {
        Ok(made) => write_named("frame", &made, writer),
        Err(reason) => write_bad(reason, writer),
    }
}

fn write_segments<W: Write>(
    alloc: Global,
    ending: Ending,
    stream: Stream,
    sizing: Sizing,
    unit: &[u8],
    writer: &mut W,
) -> io::Result<()>
    ensures { OnOk result (Writes (W.contents writer.old) (W.contents writer.new) (OrNoMemory (IsUnitSaid ending stream sizing unit.now))) }
{
    let parting = Parting {
        scid: stream.scid,
        vcid: stream.vcid,
        ns: stream.ns,
        map: sizing.map,
        size: sizing.size,
        unit,
    };
    match parting.count() {
        Ok(count) => write_parts(alloc, ending, &parting, count, writer),
        Err(reason) => write_bad(reason, writer),
    }
}

// Writes the frames of a unit. If one can't be made, writes the reason in its place, and stops. All frames but the last
// have the same length.
fn write_parts<W: Write>(
    alloc: Global,
    ending: Ending,
    parting: &Parting,
    count: usize,
    writer: &mut W,
) -> io::Result<()>
    requires parted { parting_reason_of parting.now ≡ None }
    requires all { count ≡ segments_needed parting.now.size (length parting.now.unit.now) }
    ensures { OnOk result (Writes (W.contents writer.old) (W.contents writer.new) (IsFramesSaid ending parting.now)) }
{
    for place in 0..count {
        if !write_part(alloc, ending, parting, place, writer)? {
            return Ok(());
        }
    }
    Ok(())
}

// Writes the frame at `place`, or the reason why it can't be made. Returns whether the frame was made.
fn write_part<W: Write>(
    alloc: Global,
    ending: Ending,
    parting: &Parting,
    place: usize,
    writer: &mut W,
) -> io::Result<bool>
    requires parted { parting_reason_of parting.now ≡ None }
    requires there { place < segments_needed parting.now.size (length parting.now.unit.now) }
    ensures { IfOk result (λ made. Writes (W.contents writer.old) (W.contents writer.new) (IsPartSaid made ending parting.now place)) }
{
    let made = match parting.frame(alloc, place) {
        Ok(frame) => ending.end(alloc, frame),
        Err(reason) => Err(reason),
    };
    match made {
        Ok(made) => {
            write_named("frame", &made, writer)?;
            Ok(true)
        }
        Err(reason) => {
            write_bad(reason, writer)?;
            Ok(false)
        }
    }
}
