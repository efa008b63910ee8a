//! CLTUs and telemetry frames, as lines.

ghost use Rattle.std.specs.Prelude.{◌≡◌, ◌++◌, None, length, unwrap_or, IfOk, IfErr, OnOk, OnErr};
ghost use Rattle.std.specs.Io.KnownBytes.{Appends};
ghost use Rattle.tc_edges.specs.Cltu.Cltu.{cltu};
ghost use Rattle.tc_edges.specs.Cltu.Randomiser.{randomised};
ghost use Rattle.tc_lines.specs.Answering.{Writes};
ghost use Rattle.tc_edges.specs.Tm.Counting.{next_header, frame_counted};
ghost use Rattle.tc_edges.specs.Tm.TmFrame.{tm_frame};
ghost use Rattle.tc_make.specs.Answer.{OrNoMemory};
ghost use Rattle.tc_make.specs.LinkAnswer.{IsCltuSaid, IsRandomSaid, IsTelemetrySaid, IsTmSaid, cltu_reason_of, tm_reason_of, telemetry_ending};
ghost use Rattle.tc_make.specs.Printed.{tm_fault_text, tm_text, tm_front_text, tm_end_text, control_text};

use crate::ending::Ending;
use crate::fault::Reason;
use crate::line::TmOrder;
use crate::printed::{write_bad, write_named, write_refused};
use std::alloc::{AllocError, Global};
use std::io;
use std::io::Write;
use tc_edges::cltu::{CltuFault, randomise, write_cltu};
use tc_edges::tm::{Counts, ErrorControl, TmFault, TmFields, TmReadFault, read_tm};
use tc_lines::Digits;

/// Writes the CLTU that carries the octets, or the reason why there is none.
pub(crate) fn write_coded<W: Write>(alloc: Global, octets: &[u8], writer: &mut W) -> io::Result<()>
    ensures { OnOk result (Writes (W.contents writer.old) (W.contents writer.new) (OrNoMemory (IsCltuSaid octets.now))) }
{
    match coded(alloc, octets) {
        Ok(cltu) => write_named("cltu", &cltu, writer),
        Err(reason) => write_bad(reason, writer),
    }
}

fn coded(alloc: Global, octets: &[u8]) -> Result<Vec<u8>, Reason>
    ensures cltu { IfOk result (λ made. made.items ≡ cltu octets.now) }
    ensures made { OnOk result (cltu_reason_of octets.now ≡ None) }
    ensures refused { IfErr result (λ reason. reason ≡ unwrap_or (cltu_reason_of octets.now) Reason.NoMemory) }
{
    match write_cltu(alloc, octets) {
        Ok(cltu) => Ok(cltu),
        Err(CltuFault::Empty) => Err(Reason::NoData),
        Err(CltuFault::TooLong) => Err(Reason::TooMuchData),
        Err(CltuFault::NoMemory) => Err(Reason::NoMemory),
    }
}

/// Writes the octets with the random sequence added.
pub(crate) fn write_random<W: Write>(alloc: Global, octets: &[u8], writer: &mut W) -> io::Result<()>
    ensures { OnOk result (Writes (W.contents writer.old) (W.contents writer.new) (OrNoMemory (IsRandomSaid octets.now))) }
{
    match with_random(alloc, octets) {
        Ok(random) => write_named("random", &random, writer),
        Err(_) => write_bad(Reason::NoMemory, writer),
    }
}

fn with_random(alloc: Global, octets: &[u8]) -> Result<Vec<u8>, AllocError>
    ensures { IfOk result (λ made. made.items ≡ randomised octets.now) }
{
    let mut made = Vec::from_slice(alloc, octets)?;
    randomise(made.as_mut_slice());
    Ok(made)
}

/// Writes the explanation of octets as a telemetry frame, or the reason why they aren't one.
pub(crate) fn write_telemetry<W: Write>(
    ending: Ending,
    octets: &[u8],
    writer: &mut W,
) -> io::Result<()>
    ensures { OnOk result (Writes (W.contents writer.old) (W.contents writer.new) (OrNoMemory (IsTelemetrySaid ending octets.now))) }
{
    match read_tm(error_control(ending), octets) {
        Ok(fields) => write_fields(&fields, writer),
        Err(fault) => write_refused(fault_word(fault), writer),
    }
}

fn error_control(ending: Ending) -> ErrorControl
    ensures { result ≡ telemetry_ending ending }
{
    match ending {
        Ending::DataField => ErrorControl::Absent,
        Ending::ErrorControl => ErrorControl::Present,
    }
}

fn fault_word(fault: TmReadFault) -> &'static str
    ensures { result.now ≡ tm_fault_text fault }
{
    match fault {
        TmReadFault::Short => "short",
        TmReadFault::Version => "version",
        TmReadFault::NoControl => "control",
        TmReadFault::WrongSum => "check",
    }
}

#[tactic(auto, using(crate::proofs::Written::joined))]
fn write_fields<W: Write>(fields: &TmFields, writer: &mut W) -> io::Result<()>
    ensures { OnOk result (Appends (W.contents writer.old) (W.contents writer.new) (tm_text fields.now)) }
{
    write_front(fields, writer)?;
    write_end(fields, writer)
}

fn write_front<W: Write>(fields: &TmFields, writer: &mut W) -> io::Result<()>
    ensures { OnOk result (Appends (W.contents writer.old) (W.contents writer.new) (tm_front_text fields.now)) }
{
    let scid = fields.header.scid;
    let vcid = fields.header.vcid;
    let master = fields.header.master_count;
    let channel = fields.header.channel_count;
    write!(
        writer,
        "tm scid {scid} vc {vcid} master {master} channel {channel}"
    )
}

fn write_end<W: Write>(fields: &TmFields, writer: &mut W) -> io::Result<()>
    ensures { OnOk result (Appends (W.contents writer.old) (W.contents writer.new) (tm_end_text fields.now)) }
{
    let pointer = fields.pointer;
    let kind = control_word(&fields.control);
    let digits = Digits(&fields.control);
    writeln!(writer, " pointer {pointer} {kind} {digits}")
}

// Returns the kind of an operational control field: `report` or `clcw`.
fn control_word(control: &[u8]) -> &'static str
    requires { length control.now ≡ 4 }
    ensures { result.now ≡ control_text control.now }
{
    if control[0] > 127 { "report" } else { "clcw" }
}

/// Writes the next telemetry frame of a virtual channel, or the reason why it isn't made.
pub(crate) fn write_tm<W: Write>(
    alloc: Global,
    ending: Ending,
    counts: &mut Counts,
    order: TmOrder,
    writer: &mut W,
) -> io::Result<()>
    ensures { OnOk result (Writes (W.contents writer.old) (W.contents writer.new) (IsTmSaid ending counts.old order counts.new)) }
{
    match next_frame(alloc, ending, counts, order) {
        Ok(frame) => write_named("tm", &frame, writer),
        Err(reason) => write_bad(reason, writer),
    }
}

fn next_frame(
    alloc: Global,
    ending: Ending,
    counts: &mut Counts,
    order: TmOrder,
) -> Result<Vec<u8>, Reason>
    ensures frame { IfOk result (λ frame. frame.items
        ≡ tm_frame (telemetry_ending ending) (next_header counts.old order.scid order.vcid) order.control order.size) }
    ensures counted { OnOk result (counts.new ≡ frame_counted counts.old order.scid order.vcid) }
    ensures unchanged { OnErr result (counts.new ≡ counts.old) }
    ensures made { OnOk result (tm_reason_of ending order ≡ None) }
    ensures refused { IfErr result (λ reason. reason ≡ unwrap_or (tm_reason_of ending order) Reason.NoMemory) }
{
    let error = error_control(ending);
    let size = usize::from(order.size);
    match counts.next_frame(alloc, error, order.scid, order.vcid, order.control, size) {
        Ok(frame) => Ok(frame),
        Err(TmFault::BadScid) => Err(Reason::BadScid),
        Err(TmFault::BadVcid) => Err(Reason::BadVcid),
        Err(TmFault::BadLength) => Err(Reason::BadSize),
        Err(TmFault::NoMemory) => Err(Reason::NoMemory),
    }
}
