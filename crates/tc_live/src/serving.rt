//! Reading lines, and writing their answers.

ghost use Rattle.std.specs.Io.KnownBytes.{Appends, Keeps};
ghost use Rattle.std.specs.Prelude.{◌≡◌, ◌⊎◌, IfErr, IfOk, IfSome, OnOk, Some};
ghost use Rattle.tc_lines.specs.Answering.{Writes};
ghost use Rattle.tc_lines.specs.Word.{words};
ghost use Rattle.tc_rack.specs.Delivery.{AreAnswersWritten};
ghost use Rattle.tc_live.specs.Printed.{live_text, bad_line_text, serving_fault_text};
ghost use Rattle.tc_live.specs.Receiver.{IsReady};
ghost use Rattle.tc_live.specs.Serving.{IsClosingFault, IsReceptionCutShort, IsFollowedBy, IsLineSaid, IsReportWritten, IsReported, IsReceptionWritten, fault_at_lines};

use crate::answer::LiveAnswer;
use crate::check::FrameCheck;
use crate::ends::FrameEnds;
use crate::hint::{hint_for, word_before};
use crate::receiver::Receiver;
use std::alloc::Global;
use std::error::Error;
use std::io::{BufRead, BufReader, BufWriter, Write};
use std::{fmt, io};
use tc_lines::LineAnswerer;
use tc_text::{Reason, SpacecraftId};

/// The largest number of octets that a line may have, without its line feed. The hexadecimal digits of a frame of 1,024
/// octets take a quarter of this number.
pub const MAX_LINE: usize = 8_192;

/// A fault after which lines are no longer answered.
#[derive(Clone, Copy, Debug, PartialEq, Eq)]
pub enum ServingFault {
    /// The reader failed.
    Read,
    /// The writer failed.
    Write,
    /// Memory ran out before the first line, or at the final report.
    NoMemory,
    /// A channel has had 2^64 - 1 events or more, a number that the final report can't give.
    Unbalanced,
}

impl fmt::Display for ServingFault {
    ghost output = { λ fault. Some (serving_fault_text fault) };

    fn fmt<W: fmt::Write>(&self, f: &mut fmt::Formatter<W>) -> fmt::Result {
        match self {
            ServingFault::Read => f.write_str("cannot read"),
            ServingFault::Write => f.write_str("cannot write"),
            ServingFault::NoMemory => f.write_str("no memory"),
            ServingFault::Unbalanced => f.write_str("unbalanced"),
        }
    }
}

impl Error for ServingFault {}

impl ServingFault {
    // Returns the receiver's fault for a fault that stopped the answering of lines.
    fn of(fault: tc_lines::ServingFault) -> ServingFault
        ensures { result ≡ fault_at_lines fault }
    {
        match fault {
            tc_lines::ServingFault::Read => ServingFault::Read,
            tc_lines::ServingFault::Write => ServingFault::Write,
            tc_lines::ServingFault::NoMemory => ServingFault::NoMemory,
        }
    }
}

impl LineAnswerer for Receiver {
    ghost use Rattle.tc_live.specs.Serving.{IsLineSaid};

    ghost answers = { IsLineSaid };

    fn answer_line<W: Write>(
        &mut self,
        alloc: Global,
        octets: &[u8],
        writer: &mut W,
    ) -> io::Result<()> {
        answer_line(alloc, self, octets, writer)
    }
}

/// Answers the lines of standard input on standard output, as [`answer_lines`] does, with a receiver for which nothing
/// is set up.
pub fn serve<R: AllocGlobal + Input + Print>(
    rt: &R,
    spacecraft: SpacecraftId,
    check: FrameCheck,
) -> Result<FrameEnds, ServingFault> {
    let Ok(mut reader) = BufReader::new(rt.alloc(), rt.reader()) else {
        return Err(ServingFault::NoMemory);
    };
    let Ok(mut writer) = BufWriter::new(rt.alloc(), io::writer(rt)) else {
        return Err(ServingFault::NoMemory);
    };
    let receiver = Receiver::new(rt.alloc(), spacecraft, check);
    answer_lines(rt.alloc(), receiver, &mut reader, &mut writer)
}

/// Answers lines until there are no more, and flushes after each answer. Then writes the final report, and returns the
/// record of whether the frames ended with a frame error control field.
///
/// The answer to a bad line is `bad` and the reason. If there is a hint on how to mend the line, it follows after a
/// colon. The answer to a line with more octets than [`MAX_LINE`] is `bad too long`, and the line isn't kept. Octets
/// after the last line feed are a line. The contract holds for a reader whose remaining octets contracts know. It
/// promises that the answers to all lines are written. If the reader fails, it promises this for the lines that the
/// reader gave before.
pub fn answer_lines<R: BufRead, W: Write>(
    alloc: Global,
    receiver: Receiver,
    reader: &mut R,
    writer: &mut W,
) -> Result<FrameEnds, ServingFault>
    ensures written { IfOk result (λ ends. IfSome (R.remaining reader.old)
        (λ octets. IsReceptionWritten receiver octets (W.contents writer.old) (W.contents writer.new) ends)) }
    ensures cut_short { IfErr result (λ fault. IfSome (R.remaining reader.old)
        (λ octets. IsReceptionCutShort receiver octets (W.contents writer.old) (W.contents writer.new) fault)) }
{
    let mut receiver = receiver;
    match tc_lines::answer_lines(alloc, MAX_LINE, &mut receiver, reader, writer) {
        Ok(()) => close(alloc, receiver, writer),
        Err(fault) => Err(ServingFault::of(fault)),
    }
}

// Carries out a line, and writes exactly the text of its answer and of the answers that follow it. For a bad line,
// writes the reason and a hint instead.
fn answer_line<W: Write>(
    alloc: Global,
    receiver: &mut Receiver,
    octets: &[u8],
    writer: &mut W,
) -> io::Result<()>
    ensures written { OnOk result (Writes (W.contents writer.old) (W.contents writer.new) (IsLineSaid receiver.old octets.now receiver.new)) }
{
    match receiver.do_line(alloc, octets) {
        Ok(answer) => report(receiver, &answer, writer),
        Err(reason) => write_bad(octets, reason, writer),
    }
}

// Writes an answer, and the answers that follow it.
fn report<W: Write>(receiver: &mut Receiver, answer: &LiveAnswer, writer: &mut W) -> io::Result<()>
    requires { IsReady answer.now receiver.old }
    ensures { OnOk result (Writes (W.contents writer.old) (W.contents writer.new) (IsReported answer.now receiver.old receiver.new)) }
{
    write_answer(answer, writer)?;
    follow(receiver, answer, writer)
}

// Ends a delivery or a collection that was begun. Nothing follows any other answer.
fn follow<W: Write>(receiver: &mut Receiver, answer: &LiveAnswer, writer: &mut W) -> io::Result<()>
    requires { IsReady answer.now receiver.old }
    ensures { OnOk result (AreAnswersWritten (W.contents writer.old) (W.contents writer.new) (IsFollowedBy answer.now receiver.old receiver.new)) }
{
    match answer {
        LiveAnswer::Delivery { vcid, answer: _ } => receiver.hand_on(*vcid, writer),
        LiveAnswer::Collection { vcid } => receiver.hand_on(*vcid, writer),
        _ => Ok(()),
    }
}

fn write_answer<W: Write>(answer: &LiveAnswer, writer: &mut W) -> io::Result<()>
    ensures { OnOk result (Appends (W.contents writer.old) (W.contents writer.new) (live_text answer.now)) }
{
    write!(writer, "{answer}")
}

fn write_bad<W: Write>(octets: &[u8], reason: Reason, writer: &mut W) -> io::Result<()>
    ensures { OnOk result (Appends (W.contents writer.old) (W.contents writer.new) (bad_line_text (words octets.now) reason)) }
{
    let bad = word_before(reason);
    let hint = hint_for(octets, reason);
    writeln!(writer, "{bad}{reason}{hint}")
}

// Writes the final report, flushes the writer, and returns the record of the ends of frames.
fn close<W: Write>(
    alloc: Global,
    receiver: Receiver,
    writer: &mut W,
) -> Result<FrameEnds, ServingFault>
    ensures ends { IfOk result (λ ends. ends ≡ receiver.ends) }
    ensures written { OnOk result (IsReportWritten receiver (W.contents writer.old) (W.contents writer.new)) }
    ensures fault { IfErr result (IsClosingFault receiver) }
    ensures kept { IfErr result (λ fault. (fault ≡ ServingFault.Write) ⊎ Keeps (W.contents writer.old) (W.contents writer.new)) }
{
    let ends = receiver.ends();
    receiver.close(alloc, writer)?;
    writer.flush().map_err(|_| ServingFault::Write)?;
    Ok(ends)
}
