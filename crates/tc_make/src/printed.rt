//! The parts of answers, as text.

ghost use Rattle.std.specs.Prelude.{◌++◌, OnOk};
ghost use Rattle.std.specs.Io.KnownBytes.{Appends};
ghost use Rattle.tc_make.specs.Printed.{bad_text, unmade_text, within_text, named_text, some_text, refused_text};

use crate::fault::Reason;
use crate::form::Number;
use std::io;
use std::io::Write;
use tc_lines::Digits;

/// Writes the reason why a line is bad. If a hint is known, also writes how to mend the line.
pub(crate) fn write_bad<W: Write>(reason: Reason, writer: &mut W) -> io::Result<()>
    ensures { OnOk result (Appends (W.contents writer.old) (W.contents writer.new) (bad_text reason)) }
{
    match reason {
        Reason::UnknownCommand => writeln!(
            writer,
            "{reason}: use packet, ad, bd, unlock, setvr, segments, explain, clcw, cltu, random, tm, telemetry, decoder, octets, search or frames"
        ),
        Reason::Marked => writeln!(
            writer,
            "{reason}: the line begins with a byte order mark; save the file without it"
        ),
        Reason::WordCount(form) => {
            let words = form.as_str();
            let note = form.note();
            writeln!(writer, "{reason}: write {words}{note}")
        }
        Reason::BadNumber(number) => write_bounds(reason, number, writer),
        Reason::BadHex => writeln!(
            writer,
            "{reason}: HEX is two hexadecimal digits for each octet"
        ),
        Reason::BadMode => writeln!(writer, "{reason}: MODE is detect or correct"),
        Reason::BadClcw => writeln!(writer, "{reason}: HEX is four octets"),
        Reason::BadScid => write_bounds(reason, Number::Scid, writer),
        Reason::BadVcid => write_bounds(reason, Number::Vcid, writer),
        Reason::BadMap => write_bounds(reason, Number::Map, writer),
        Reason::BadApid => write_bounds(reason, Number::Apid, writer),
        Reason::BadCount => write_bounds(reason, Number::Count, writer),
        Reason::BadSize => write_bounds(reason, Number::Size, writer),
        _ => writeln!(writer, "{reason}"),
    }
}

// Writes the reason why a number is bad, and the bounds of this number.
fn write_bounds<W: Write>(reason: Reason, number: Number, writer: &mut W) -> io::Result<()>
    ensures { OnOk result (Appends (W.contents writer.old) (W.contents writer.new) (unmade_text reason ++ within_text number)) }
{
    let bounds = number.as_str();
    writeln!(writer, "{reason}: {bounds}")
}

pub(crate) fn write_refused<W: Write>(why: &str, writer: &mut W) -> io::Result<()>
    ensures { OnOk result (Appends (W.contents writer.old) (W.contents writer.new) (refused_text why.now)) }
{
    writeln!(writer, "refused {why}")
}

/// Writes `word`, and the octets after it.
pub(crate) fn write_named<W: Write>(word: &str, octets: &[u8], writer: &mut W) -> io::Result<()>
    ensures { OnOk result (Appends (W.contents writer.old) (W.contents writer.new) (named_text word.now octets.now)) }
{
    let digits = Digits(octets);
    writeln!(writer, "{word} {digits}")
}

/// Writes `word` and the octets after it, or nothing if there are no octets.
pub(crate) fn write_some<W: Write>(word: &str, octets: &[u8], writer: &mut W) -> io::Result<()>
    ensures { OnOk result (Appends (W.contents writer.old) (W.contents writer.new) (some_text word.now octets.now)) }
{
    if octets.is_empty() {
        return Ok(());
    }
    write_named(word, octets, writer)
}
