//! Reading lines, and writing their answers.

ghost use Rattle.std.specs.Prelude.{◌≡◌, IfErr, IfSome, OnOk};
ghost use Rattle.tc_make.specs.Serving.{AreWritten, IsMakingCutShort};

use crate::answer;
use crate::ending::Ending;
use crate::maker::Maker;
use crate::strict::Strict;
use std::alloc::Global;
use std::io;
use std::io::{BufRead, BufReader, BufWriter, Write};
use tc_lines::{LineAnswerer, ServingFault};
use thiserror::Error;

/// The largest number of octets that a line may have, including its line feed. A line with the largest unit, of 65,542
/// octets, fits.
pub const MAX_LINE: usize = 262_144;

impl LineAnswerer for Maker {
    ghost use Rattle.tc_make.specs.Serving.{IsMakerAnswered};

    ghost answers = { IsMakerAnswered };

    fn answer_line<W: Write>(
        &mut self,
        alloc: Global,
        octets: &[u8],
        writer: &mut W,
    ) -> io::Result<()> {
        answer::answer_line(alloc, self, octets, writer)
    }
}

/// Answers lines until there are no more, and flushes after each answer.
///
/// The answer to a line with more octets than [`MAX_LINE`] is `bad too long`. Octets after the last line feed are a
/// line. If the octets of the reader are known, the answers to all lines are written. If the reader fails, the answers
/// to the lines that it gave before are written.
pub fn answer_lines<R: BufRead, W: Write>(
    alloc: Global,
    ending: Ending,
    reader: &mut R,
    writer: &mut W,
) -> Result<(), ServingFault>
    ensures written { OnOk result (IfSome (R.remaining reader.old)
        (λ octets. AreWritten ending octets (W.contents writer.old) (W.contents writer.new))) }
    ensures cut_short { IfErr result (λ fault. IfSome (R.remaining reader.old)
        (λ octets. IsMakingCutShort ending octets (W.contents writer.old) (W.contents writer.new) fault)) }
{
    let Ok(mut maker) = Maker::new(alloc, ending) else {
        return Err(ServingFault::NoMemory);
    };
    tc_lines::answer_lines(alloc, MAX_LINE - 1, &mut maker, reader, writer)
}

/// A fault after which `tcmake` answers no more lines.
#[derive(Clone, Copy, Debug, PartialEq, Eq, Error)]
pub enum MakingFault {
    #[error("{0}")]
    Serving(ServingFault),
    #[error("a line is bad, and no later line was answered")]
    BadLine,
}

/// Answers the lines of standard input on standard output, as [`answer_lines`] does. If `strict` is set, no line after
/// the first bad one is answered.
pub fn serve<R: AllocGlobal + Input + Print>(
    rt: &R,
    ending: Ending,
    strict: bool,
) -> Result<(), MakingFault> {
    let Ok(mut reader) = BufReader::new(rt.alloc(), rt.reader()) else {
        return Err(MakingFault::Serving(ServingFault::NoMemory));
    };
    let Ok(mut writer) = BufWriter::new(rt.alloc(), io::writer(rt)) else {
        return Err(MakingFault::Serving(ServingFault::NoMemory));
    };
    if !strict {
        return answer_lines(rt.alloc(), ending, &mut reader, &mut writer).map_err(
            MakingFault::Serving,
        );
    }
    let mut strict = Strict::new(writer);
    let served = answer_lines(rt.alloc(), ending, &mut reader, &mut strict);
    if strict.has_bad() {
        return Err(MakingFault::BadLine);
    }
    served.map_err(MakingFault::Serving)
}
