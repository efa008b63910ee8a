//! Answering lines of input.

ghost use Rattle.std.specs.Prelude.{◌≡◌, ℕ, List, IfErr, IfSome, OnOk};
ghost use Rattle.tc_lines.specs.Answering.{AreAllWritten, IsCutShort, IsReadAnswered, Writes};

use crate::reading::{LineRead, read_line};
use std::alloc::Global;
use std::io;
use std::io::{BufRead, Write};
use thiserror::Error;

/// The reason why no more lines are answered.
#[derive(Clone, Copy, Debug, PartialEq, Eq, Error)]
pub enum ServingFault {
    /// The reader failed.
    #[error("cannot read")]
    Read,
    /// The writer failed.
    #[error("cannot write")]
    Write,
    /// There was no memory for a line.
    #[error("no memory")]
    NoMemory,
}

/// A receiver of lines that answers each of them with a text.
pub trait LineAnswerer {
    // the effect of a line on the answerer, and the text that answers the line
    ghost answers: { Self → List ℕ → Self → List ℕ → Type 0 };

    /// Answers a line, which is passed without its line feed.
    fn answer_line<W: Write>(
        &mut self,
        alloc: Global,
        octets: &[u8],
        writer: &mut W,
    ) -> io::Result<()>
        ensures { OnOk result (Writes (W.contents writer.old) (W.contents writer.new) (answers self.old octets.now self.new)) };
}

/// Answers lines until there are no more, and flushes after each answer.
///
/// A line of more than `limit` octets is answered `bad too long`, and isn't passed to the answerer. Octets after the
/// last line feed are a line. If the reader's contract states its octets, all lines in them are answered. If the reader
/// fails, only the lines before are answered. After 2^64 - 1 lines the reader counts as failed.
pub fn answer_lines<A: LineAnswerer, R: BufRead, W: Write>(
    alloc: Global,
    limit: usize,
    answerer: &mut A,
    reader: &mut R,
    writer: &mut W,
) -> Result<(), ServingFault>
    ensures written { OnOk result (IfSome (R.remaining reader.old)
        (λ octets. AreAllWritten limit A.answers answerer.old octets answerer.new (W.contents writer.old)
        (W.contents writer.new))) }
    ensures cut_short { IfErr result (λ fault. IfSome (R.remaining reader.old)
        (λ octets. IsCutShort limit A.answers answerer.old octets answerer.new (W.contents writer.old)
        (W.contents writer.new) fault)) }
{
    let Ok(mut line) = Vec::with_capacity(alloc, limit) else {
        return Err(ServingFault::NoMemory);
    };
    for _line in 0..u64::MAX {
        let Ok(read) = read_line(reader, limit, &mut line) else {
            return Err(ServingFault::Read);
        };
        answer_and_flush(alloc, answerer, read, line.as_slice(), writer)?;
        if !read.ended {
            return Ok(());
        }
    }
    Err(ServingFault::Read)
}

fn answer_and_flush<A: LineAnswerer, W: Write>(
    alloc: Global,
    answerer: &mut A,
    read: LineRead,
    kept: &[u8],
    writer: &mut W,
) -> Result<(), ServingFault>
    ensures written { OnOk result (Writes (W.contents writer.old) (W.contents writer.new)
        (IsReadAnswered A.answers answerer.old read kept.now answerer.new)) }
    ensures fault { IfErr result (λ fault. fault ≡ ServingFault.Write) }
{
    answer_read(alloc, answerer, read, kept, writer).map_err(|_| ServingFault::Write)?;
    writer.flush().map_err(|_| ServingFault::Write)
}

fn answer_read<A: LineAnswerer, W: Write>(
    alloc: Global,
    answerer: &mut A,
    read: LineRead,
    kept: &[u8],
    writer: &mut W,
) -> io::Result<()>
    ensures { OnOk result (Writes (W.contents writer.old) (W.contents writer.new)
        (IsReadAnswered A.answers answerer.old read kept.now answerer.new)) }
{
    if read.too_long {
        return writeln!(writer, "bad too long");
    }
    if read.ended || !kept.is_empty() {
        answerer.answer_line(alloc, kept, writer)
    } else {
        Ok(())
    }
}
