//! Running a script in order: it is read, its lines are carried out, and their answers and the final report are
//! written.

ghost use Rattle.std.specs.Prelude.{◌≡◌, ◌⊎◌, ◌≤◌, length, IfOk, IfErr, OnOk, IfSome};
ghost use Rattle.tc_cli.specs.Script.{IsScriptFault, IsGood, IsGoodLine, IsBadLine};
ghost use Rattle.tc_text.specs.Reading.{script_limit};
ghost use Rattle.tc_cli.specs.Session.{IsSessionLeft, IsStaffedOperated};
ghost use Rattle.tc_rack.specs.Stage.{phase_of};
ghost use Rattle.std.specs.Io.KnownBytes.{Appends, Keeps};
ghost use Rattle.tc_rack.specs.Printed.{answer_line};
ghost use Rattle.tc_cli.specs.Written.{IsReportFault, IsScriptCutShort, IsLineAnswered, IsSessionReportWritten, IsScriptWritten};

use crate::closing::close;
use crate::session::{Session, StationBackend};
use std::alloc::Global;
use std::io::{Read, Write};
use std::sync::Wait;
use tc_desk::{
    one_alone_is_answered_after_its_own_events, the_only_operator_made_the_whole_journal,
};
use tc_rack::{Answer, Configuration, Instruction, Stage, perform, start, write_report};
use tc_text::{Reason, ScriptFault, next_line, parse_line, read_whole};

/// Reads a script, carries out its lines in order, and writes their answers and then the final report.
///
/// The script may have up to 1,048,576 octets. It is read whole, and kept, before the first line is carried out. If the
/// octets of the reader are known, a script is carried out to its end only if each line is good. A bad line that ends
/// the script is its first bad line. Each answer, and the report, follows from the lines before it. This includes each
/// CLCW, although a CLCW is read without its channel's lock: the watcher that reads it meets the channel at each other
/// operation on the channel, and once more before the report. If the script ends early, only the answers to the lines
/// before that point are written, unless a write failed.
pub fn run_script<T: Wait, R: Read, W: Write>(
    rt: &T,
    alloc: Global,
    scid: u16,
    reader: &mut R,
    writer: &mut W,
) -> Result<(), ScriptFault>
    requires { scid ≤ 1023 }
    ensures good { OnOk result (IfSome (R.remaining reader.old) (λ script. (length script ≤ script_limit) × IsGood script)) }
    ensures fault { IfErr result (λ fault. IfSome (R.remaining reader.old) (λ script. IsScriptFault script fault)) }
    ensures written { OnOk result (IfSome (R.remaining reader.old)
        (λ script. IsScriptWritten scid script (W.contents writer.old) (W.contents writer.new))) }
    ensures cut_short { IfErr result (λ fault. IfSome (R.remaining reader.old)
        (λ script. IsScriptCutShort scid script (W.contents writer.old) (W.contents writer.new) fault)) }
{
    match run_and_give_back(rt, alloc, scid, reader, writer) {
        Ok(_) => Ok(()),
        Err(fault) => Err(fault),
    }
}

/// Runs a script as [`run_script`] does. If the whole script was carried out, returns its octets as they were read.
pub fn run_and_give_back<T: Wait, R: Read, W: Write>(
    rt: &T,
    alloc: Global,
    scid: u16,
    reader: &mut R,
    writer: &mut W,
) -> Result<Vec<u8>, ScriptFault>
    requires { scid ≤ 1023 }
    ensures script { IfOk result (λ script. IfSome (R.remaining reader.old) (λ octets. script.items ≡ octets)) }
    ensures good { OnOk result (IfSome (R.remaining reader.old) (λ script. (length script ≤ script_limit) × IsGood script)) }
    ensures fault { IfErr result (λ fault. IfSome (R.remaining reader.old) (λ script. IsScriptFault script fault)) }
    ensures written { OnOk result (IfSome (R.remaining reader.old)
        (λ script. IsScriptWritten scid script (W.contents writer.old) (W.contents writer.new))) }
    ensures cut_short { IfErr result (λ fault. IfSome (R.remaining reader.old)
        (λ script. IsScriptCutShort scid script (W.contents writer.old) (W.contents writer.new) fault)) }
{
    let script = read_whole(alloc, reader)?;
    match run_read(rt, alloc, scid, script.as_slice(), writer) {
        Ok(()) => Ok(script),
        Err(fault) => Err(fault),
    }
}

// Carries out a script that was read, and flushes what was written.
fn run_read<W: Write>(
    rt: &impl Wait,
    alloc: Global,
    scid: u16,
    script: &[u8],
    writer: &mut W,
) -> Result<(), ScriptFault>
    requires spacecraft { scid ≤ 1023 }
    requires within { length script.now ≤ script_limit }
    ensures good { OnOk result (IsGood script.now) }
    ensures fault { IfErr result (IsScriptFault script.now) }
    ensures written { OnOk result (IsScriptWritten scid script.now (W.contents writer.old) (W.contents writer.new)) }
    ensures cut_short { IfErr result (IsScriptCutShort scid script.now (W.contents writer.old) (W.contents writer.new)) }
{
    let done = run_lines(rt, alloc, scid, script, writer);
    match writer.flush() {
        Ok(()) => done,
        Err(_) => Err(ScriptFault::Write),
    }
}

fn run_lines<W: Write>(
    rt: &impl Wait,
    alloc: Global,
    scid: u16,
    script: &[u8],
    writer: &mut W,
) -> Result<(), ScriptFault>
    requires spacecraft { scid ≤ 1023 }
    requires within { length script.now ≤ script_limit }
    ensures good { OnOk result (IsGood script.now) }
    ensures fault { IfErr result (IsScriptFault script.now) }
    ensures written { OnOk result (IsScriptWritten scid script.now (W.contents writer.old) (W.contents writer.new)) }
    ensures cut_short { IfErr result (IsScriptCutShort scid script.now (W.contents writer.old) (W.contents writer.new)) }
{
    one_alone_is_answered_after_its_own_events();
    the_only_operator_made_the_whole_journal();
    let mut session = Stage::SettingUp(Configuration::new(alloc));
    let mut rest = script;
    let mut line = 0u32;
    while let Some((octets, after)) = next_line(rest) {
        line += 1;
        let answer = match perform_line(rt, alloc, scid, &mut session, octets) {
            Ok(answer) => answer,
            Err(reason) => return Err(ScriptFault::Line { line, reason }),
        };
        write_answer(answer, writer)?;
        rest = after;
    }
    report(rt, alloc, scid, session, line, writer)
}

fn perform_line(
    rt: &impl Wait,
    alloc: Global,
    scid: u16,
    session: &mut Session,
    octets: &[u8],
) -> Result<Option<Answer>, Reason>
    requires { scid ≤ 1023 }
    ensures done { OnOk result (IsGoodLine (phase_of session.old) octets.now (phase_of session.new)) }
    ensures answer { IfOk result (IsLineAnswered (IsStaffedOperated scid) session.old octets.now session.new) }
    ensures reason { IfErr result (λ reason. (reason ≡ Reason.NoMemory) ⊎ IsBadLine (phase_of session.old) octets.now reason) }
    ensures refused { IfErr result (λ reason. IsSessionLeft scid reason session.old session.new) }
{
    let said = parse_line(alloc, octets)?;
    let backend = StationBackend { rt, scid };
    perform(&backend, alloc, session, Instruction::of(alloc, said))
}

fn write_answer<W: Write>(answer: Option<Answer>, writer: &mut W) -> Result<(), ScriptFault>
    ensures written { OnOk result (Appends (W.contents writer.old) (W.contents writer.new) (answer_line answer)) }
    ensures fault { IfErr result (λ fault. fault ≡ ScriptFault.Write) }
{
    match answer {
        Some(answer) => writeln!(writer, "{answer}").map_err(|_| ScriptFault::Write),
        None => Ok(()),
    }
}

// Writes the report at the end of a script with `lines` lines. Writes nothing if no channel was set up.
fn report<W: Write>(
    rt: &impl Wait,
    alloc: Global,
    scid: u16,
    session: Session,
    lines: u32,
    writer: &mut W,
) -> Result<(), ScriptFault>
    requires { scid ≤ 1023 }
    ensures written { OnOk result (IsSessionReportWritten scid session (W.contents writer.old) (W.contents writer.new)) }
    ensures fault { IfErr result (IsReportFault scid session lines) }
    ensures kept { IfErr result (λ fault. (fault ≡ ScriptFault.Write) ⊎ Keeps (W.contents writer.old) (W.contents writer.new)) }
{
    let backend = StationBackend { rt, scid };
    let mut staffed = match start(&backend, alloc, session) {
        Ok(staffed) => staffed,
        Err(Reason::NoChannel) => return Ok(()),
        Err(reason) => {
            return Err(ScriptFault::Line {
                line: lines,
                reason,
            });
        }
    };
    staffed.meet_all(rt);
    let (station, operator) = staffed.into_parts();
    let Ok(operators) = vec![in alloc; operator] else {
        return Err(ScriptFault::Line {
            line: lines,
            reason: Reason::NoMemory,
        });
    };
    let channels = close(station, operators, lines)?;
    write_report(&channels, writer).map_err(|_| ScriptFault::Write)
}
