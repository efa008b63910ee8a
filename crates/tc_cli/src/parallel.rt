//! Scripts whose channels are worked on side by side.

ghost use Rattle.std.specs.Prelude.{◌≡◌, ◌≢◌, ◌⊎◌, ◌≤◌, [], All, length, IfOk, IfErr, OnOk, IfSome};
ghost use Rattle.std.specs.Io.KnownBytes.{Keeps};
ghost use Rattle.tc_cli.specs.Parallel.{AreParted, ArePartedFor, AreWorkedChannels, Begins, HasCause, IsLineParted, IsParted, GivesToFound};
ghost use Rattle.tc_cli.specs.Parting.{IsGiven, IsFrameGiven};
ghost use Rattle.tc_rack.specs.Phase.{Does, IsBad, Setup};
ghost use Rattle.tc_rack.specs.Report.{AreNonDecreasing};
ghost use Rattle.tc_cli.specs.Script.{IsScriptFault, IsGood, IsGoodLine, IsBadLine};
ghost use Rattle.tc_rack.specs.Stage.{phase_of, IsStageKept};
ghost use Rattle.tc_cli.specs.Written.{IsWrittenInParallel};
ghost use Rattle.tc_channel.specs.Journal.{IsNumberReported};
ghost use Rattle.tc_text.specs.Reading.{script_limit};

use crate::laws::the_workers_report_is_that_of_the_lines_in_order;
use crate::parting::Parted;
use std::alloc::Global;
use std::io::{Read, Write};
use std::mem;
use std::sync::Wait;
use std::thread::Threads;
use tc_channel::{CountingChannel, Octets};
use tc_rack::{Configuration, Instruction, Stage, write_report};
use tc_station::{Gate, Job, Order};
use tc_text::{Reason, ScriptFault, next_line, parse_line, read_whole};

/// Reads a script and checks each of its lines. Then one worker for each channel carries out the frames, releases and
/// takes of this channel. Only the final report is written. It is the report that `run_script` writes for the script.
/// The script is read whole, and all its jobs are kept before the first one is carried out.
///
/// Each worker passes the gate once, while it holds its channel's lock. If the octets of the reader are known, nothing
/// is carried out unless each line is good, and only the first bad line is reported. If the script ends early, nothing
/// is written unless a write failed. `Unbalanced` is returned only if there is a cause of an imbalance.
pub fn parallel_script<T: Threads + Wait + Sync, G: Gate + Sync, R: Read, W: Write>(
    rt: &T,
    alloc: Global,
    gate: &G,
    scid: u16,
    reader: &mut R,
    writer: &mut W,
) -> Result<(), ScriptFault>
    requires { scid ≤ 1023 }
    ensures good { OnOk result (IfSome (R.remaining reader.old) (λ script. (length script ≤ script_limit) × IsGood script)) }
    ensures fault { IfErr result (λ fault. IfSome (R.remaining reader.old) (λ script. IsScriptFault script fault)) }
    ensures cause { IfErr result (λ fault. IfSome (R.remaining reader.old) (λ script. HasCause scid script fault)) }
    ensures written { OnOk result (IfSome (R.remaining reader.old)
        (λ script. IsWrittenInParallel scid script (W.contents writer.old) (W.contents writer.new))) }
    ensures kept { IfErr result (λ fault. (fault ≡ ScriptFault.Write) ⊎ Keeps (W.contents writer.old) (W.contents writer.new)) }
{
    match parallel_and_give_back(rt, alloc, gate, scid, reader, writer) {
        Ok(_) => Ok(()),
        Err(fault) => Err(fault),
    }
}

/// Runs a script as [`parallel_script`] does. If the whole script was carried out, returns its octets as they were
/// read.
pub fn parallel_and_give_back<T: Threads + Wait + Sync, G: Gate + Sync, R: Read, W: Write>(
    rt: &T,
    alloc: Global,
    gate: &G,
    scid: u16,
    reader: &mut R,
    writer: &mut W,
) -> Result<Vec<u8>, ScriptFault>
    requires { scid ≤ 1023 }
    ensures script { IfOk result (λ script. IfSome (R.remaining reader.old) (λ octets. script.items ≡ octets)) }
    ensures good { OnOk result (IfSome (R.remaining reader.old) (λ script. (length script ≤ script_limit) × IsGood script)) }
    ensures fault { IfErr result (λ fault. IfSome (R.remaining reader.old) (λ script. IsScriptFault script fault)) }
    ensures cause { IfErr result (λ fault. IfSome (R.remaining reader.old) (λ script. HasCause scid script fault)) }
    ensures written { OnOk result (IfSome (R.remaining reader.old)
        (λ script. IsWrittenInParallel scid script (W.contents writer.old) (W.contents writer.new))) }
    ensures kept { IfErr result (λ fault. (fault ≡ ScriptFault.Write) ⊎ Keeps (W.contents writer.old) (W.contents writer.new)) }
{
    the_workers_report_is_that_of_the_lines_in_order();
    let script = read_whole(alloc, reader)?;
    let channels = work_lines(rt, alloc, gate, scid, script.as_slice())?;
    match write_report(&channels, writer) {
        Ok(()) => match writer.flush() {
            Ok(()) => Ok(script),
            Err(_) => Err(ScriptFault::Write),
        },
        Err(_) => Err(ScriptFault::Write),
    }
}

// Carries out a script, and returns its channels.
fn work_lines<T: Threads + Wait + Sync, G: Gate + Sync>(
    rt: &T,
    alloc: Global,
    gate: &G,
    scid: u16,
    script: &[u8],
) -> Result<Vec<CountingChannel>, ScriptFault>
    requires spacecraft { scid ≤ 1023 }
    requires within { length script.now ≤ script_limit }
    ensures ordered { IfOk result (λ channels. AreNonDecreasing channels.items) }
    ensures reported { IfOk result (λ channels. All IsNumberReported channels.items) }
    ensures worked { IfOk result (λ channels. AreWorkedChannels scid script.now channels.items) }
    ensures good { OnOk result (IsGood script.now) }
    ensures fault { IfErr result (IsScriptFault script.now) }
    ensures cause { IfErr result (HasCause scid script.now) }
{
    let (plan, lines) = part_lines(alloc, scid, script)?;
    match start(plan, alloc, scid) {
        Ok(parted) => parted.work(rt, gate, lines),
        Err(Reason::NoChannel) => Ok(Vec::new(alloc)),
        Err(reason) => Err(ScriptFault::Line {
            line: lines,
            reason,
        }),
    }
}

// The progress of a script whose operations are sorted by their channels, to be carried out later.
type Plan = Stage<Parted>;

// Returns the plan of the jobs of a script, and the number of its lines.
fn part_lines(alloc: Global, scid: u16, script: &[u8]) -> Result<(Plan, u32), ScriptFault>
    requires spacecraft { scid ≤ 1023 }
    requires within { length script.now ≤ script_limit }
    ensures parted { IfOk result (λ parts. AreParted scid script.now parts.1 parts.0 []) }
    ensures good { OnOk result (IsGood script.now) }
    ensures fault { IfErr result (IsScriptFault script.now) }
    ensures cause { IfErr result (HasCause scid script.now) }
{
    let mut plan = Stage::SettingUp(Configuration::new(alloc));
    let mut rest = script;
    let mut line = 0u32;
    while let Some((octets, after)) = next_line(rest) {
        line += 1;
        match part_line(alloc, scid, &mut plan, line, octets) {
            Ok(()) => {}
            Err(reason) => return Err(ScriptFault::Line { line, reason }),
        }
        rest = after;
    }
    Ok((plan, line))
}

fn part_line(
    alloc: Global,
    scid: u16,
    plan: &mut Plan,
    line: u32,
    octets: &[u8],
) -> Result<(), Reason>
    requires { scid ≤ 1023 }
    ensures done { OnOk result (IsGoodLine (phase_of plan.old) octets.now (phase_of plan.new)) }
    ensures parted { OnOk result (IsLineParted scid line plan.old octets.now plan.new) }
    ensures reason { IfErr result (λ reason. (reason ≡ Reason.NoMemory) ⊎ IsBadLine (phase_of plan.old) octets.now reason) }
    ensures refused { IfErr result (λ reason. IsStageKept reason plan.old plan.new) }
{
    let said = parse_line(alloc, octets)?;
    part(plan, alloc, scid, line, Instruction::of(alloc, said))
}

// Appends the job of a line to the list of the line's channel, or carries out the set-up of the line. A line that is
// refused leaves the plan as it is, unless memory ran out before the first operation.
fn part(
    plan: &mut Plan,
    alloc: Global,
    scid: u16,
    line: u32,
    instruction: Instruction,
) -> Result<(), Reason>
    requires { scid ≤ 1023 }
    ensures done { OnOk result (Does (phase_of plan.old) instruction (phase_of plan.new)) }
    ensures parted { OnOk result (IsParted scid line plan.old instruction plan.new) }
    ensures reason { IfErr result (λ reason. (reason ≡ Reason.NoMemory) ⊎ IsBad (phase_of plan.old) instruction reason) }
    ensures refused { IfErr result (λ reason. IsStageKept reason plan.old plan.new) }
{
    match instruction {
        Instruction::Nothing => Ok(()),
        Instruction::Channel(settings) => plan.add_channel(settings),
        Instruction::Add(vcid, addition) => plan.add_to_channel(alloc, vcid, addition),
        Instruction::Frame(octets) => give_frame(plan, alloc, scid, line, octets),
        Instruction::Release(vcid) => give_order(plan, alloc, scid, vcid, line, Order::Release),
        Instruction::Take(vcid, apid) => give_order(
            plan,
            alloc,
            scid,
            vcid,
            line,
            Order::Take(apid),
        ),
        Instruction::Unit(vcid, map) => give_order(
            plan,
            alloc,
            scid,
            vcid,
            line,
            Order::TakeUnit(map),
        ),
        Instruction::Clcw(_) => begin(plan, alloc, scid),
    }
}

// Appends the job of a frame line to the list of the channel that the octets are for, if there is one. If no operation
// came before, creates the station and its lists first.
fn give_frame(
    plan: &mut Plan,
    alloc: Global,
    scid: u16,
    line: u32,
    octets: Octets,
) -> Result<(), Reason>
    requires { scid ≤ 1023 }
    ensures some { OnOk result (phase_of plan.old ≢ Setup []) }
    ensures given { OnOk result (GivesToFound scid (IsFrameGiven line octets) plan.old plan.new) }
    ensures reason { IfErr result (λ reason. (reason ≡ Reason.NoMemory) ⊎ ((reason ≡ Reason.NoChannel) × (phase_of plan.old ≡ Setup []))) }
    ensures refused { IfErr result (λ reason. IsStageKept reason plan.old plan.new) }
{
    begin(plan, alloc, scid)?;
    match plan {
        Stage::Operating(parted) => parted.give_frame(alloc, line, octets),
        Stage::SettingUp(_) => unreachable!(),
    }
}

// Appends the order of a line to the list of a channel, if there is such a channel. If no operation came before,
// creates the station and its lists first. The call fails if no channel is set up, or if memory runs out.
fn give_order(
    plan: &mut Plan,
    alloc: Global,
    scid: u16,
    vcid: u8,
    line: u32,
    order: Order,
) -> Result<(), Reason>
    requires { scid ≤ 1023 }
    ensures some { OnOk result (phase_of plan.old ≢ Setup []) }
    ensures given { OnOk result (GivesToFound scid (IsGiven vcid (record { line = line; order = order })) plan.old plan.new) }
    ensures reason { IfErr result (λ reason. (reason ≡ Reason.NoMemory) ⊎ ((reason ≡ Reason.NoChannel) × (phase_of plan.old ≡ Setup []))) }
    ensures refused { IfErr result (λ reason. IsStageKept reason plan.old plan.new) }
{
    begin(plan, alloc, scid)?;
    match plan {
        Stage::Operating(parted) => parted.give(alloc, vcid, Job { line, order }),
        Stage::SettingUp(_) => unreachable!(),
    }
}

// Creates the station and its lists, if no operation came before.
#[inline(always)]
fn begin(plan: &mut Plan, alloc: Global, scid: u16) -> Result<(), Reason>
    requires { scid ≤ 1023 }
    ensures parted { OnOk result (Begins scid plan.old plan.new) }
    ensures some { OnOk result (phase_of plan.old ≢ Setup []) }
    ensures reason { IfErr result (λ reason. (reason ≡ Reason.NoMemory) ⊎ ((reason ≡ Reason.NoChannel) × (phase_of plan.old ≡ Setup []))) }
    ensures refused { IfErr result (λ reason. IsStageKept reason plan.old plan.new) }
{
    match plan {
        Stage::Operating(_) => Ok(()),
        Stage::SettingUp(_) => begin_anew(plan, alloc, scid),
    }
}

// Creates the station and its lists, if no operation came before. This function is compiled apart from the code that
// runs for each line.
#[cold]
#[inline(never)]
fn begin_anew(plan: &mut Plan, alloc: Global, scid: u16) -> Result<(), Reason>
    requires { scid ≤ 1023 }
    ensures parted { OnOk result (Begins scid plan.old plan.new) }
    ensures some { OnOk result (phase_of plan.old ≢ Setup []) }
    ensures reason { IfErr result (λ reason. (reason ≡ Reason.NoMemory) ⊎ ((reason ≡ Reason.NoChannel) × (phase_of plan.old ≡ Setup []))) }
    ensures refused { IfErr result (λ reason. IsStageKept reason plan.old plan.new) }
{
    match plan {
        Stage::Operating(_) => Ok(()),
        Stage::SettingUp(list) => {
            let there = mem::replace(list, Configuration::new(alloc));
            let parted = Parted::new(alloc, scid, there)?;
            *plan = Stage::Operating(parted);
            Ok(())
        }
    }
}

// Returns the jobs so far. If no operation came before, the station is created first, from the configuration.
fn start(plan: Plan, alloc: Global, scid: u16) -> Result<Parted, Reason>
    requires { scid ≤ 1023 }
    ensures parted { IfOk result (ArePartedFor scid plan) }
    ensures some { OnOk result (phase_of plan ≢ Setup []) }
    ensures reason { IfErr result (λ reason. (reason ≡ Reason.NoMemory) ⊎ ((reason ≡ Reason.NoChannel) × (phase_of plan ≡ Setup []))) }
{
    match plan {
        Stage::Operating(parted) => Ok(parted),
        Stage::SettingUp(list) => Parted::new(alloc, scid, list),
    }
}
