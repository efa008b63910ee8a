//! Running a script line by line, as `run` does, but on channels without a station.

use crate::lone::{Lone, LoneBackend};
use std::alloc::Global;
use std::io::{Read, Write};
use tc_rack::{Configuration, Instruction, Stage, perform, start};
use tc_text::{Reason, ScriptFault, next_line, parse_line, read_whole};
use test_parts::Form;

/// Reads a script and runs its lines on channels of a form. Writes the answers, and then the final report.
pub(crate) fn replay<C: Form, R: Read, W: Write>(
    alloc: Global,
    scid: u16,
    reader: &mut R,
    writer: &mut W,
) -> Result<(), ScriptFault> {
    let script = read_whole(alloc, reader)?;
    let backend = LoneBackend::new(scid);
    let mut stage: Stage<Lone<C>> = Stage::SettingUp(Configuration::new(alloc));
    let lines = replay_lines(alloc, &backend, &mut stage, script.as_slice(), writer)?;
    report(alloc, &backend, stage, writer, lines)
}

// Runs the lines, and returns their number.
fn replay_lines<C: Form, W: Write>(
    alloc: Global,
    backend: &LoneBackend<C>,
    stage: &mut Stage<Lone<C>>,
    script: &[u8],
    writer: &mut W,
) -> Result<u32, ScriptFault> {
    let mut rest = script;
    let mut line = 0u32;
    while let Some((octets, after)) = next_line(rest) {
        line = line.saturating_add(1);
        replay_line(alloc, backend, stage, octets, writer, line)?;
        rest = after;
    }
    Ok(line)
}

// Runs a line, and writes its answer if it has one.
fn replay_line<C: Form, W: Write>(
    alloc: Global,
    backend: &LoneBackend<C>,
    stage: &mut Stage<Lone<C>>,
    octets: &[u8],
    writer: &mut W,
    line: u32,
) -> Result<(), ScriptFault> {
    let answer = match parse_line(alloc, octets) {
        Ok(said) => perform(backend, alloc, stage, Instruction::of(alloc, said)),
        Err(reason) => Err(reason),
    };
    match answer {
        Ok(Some(answer)) => writeln!(writer, "{answer}").map_err(|_| ScriptFault::Write),
        Ok(None) => Ok(()),
        Err(reason) => Err(ScriptFault::Line { line, reason }),
    }
}

// Writes the report at the end of a script. If no channel was set up, there is none.
fn report<C: Form, W: Write>(
    alloc: Global,
    backend: &LoneBackend<C>,
    stage: Stage<Lone<C>>,
    writer: &mut W,
    lines: u32,
) -> Result<(), ScriptFault> {
    match start(backend, alloc, stage) {
        Ok(channels) => channels.report(writer).map_err(|_| ScriptFault::Write),
        Err(Reason::NoChannel) => Ok(()),
        Err(reason) => Err(ScriptFault::Line {
            line: lines,
            reason,
        }),
    }
}
