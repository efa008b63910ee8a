//! Runs the scripts of the current folder, and reports each script whose answers aren't the expected ones.
//!
//! The file `index` has a line for each case, in the order of their names. The line has the name, the spacecraft id,
//! and the text of the fault if the script ends with one. `NAME.script` is the script. `NAME.out` has its answers line
//! by line, and then the final report. A station and channels of each form must give these answers and this report. A
//! run with a worker for each channel must give this report. Scripts at the limit of their size are built by the
//! program. The file `clcws` has words that another program built, each with its fields. Each word is a case, too.
#![tactic(auto)]

ghost use Rattle.std.specs.Prelude.{◌≤◌};

mod clcws;
mod difference;
mod index;
mod large;
mod lone;
mod outcome;
mod replay;
mod report;

use anyhow::{Context, Result, anyhow};
use difference::compare;
use index::{Case, parse_case};
use large::large_cases;
use outcome::{COMMANDS, Command, perform};
use report::report_of;
use std::fs;
use std::process::ExitCode;
use std::rt::Files;
use std::sync::Wait;
use std::thread::Threads;

fn main(rt: HostRuntime) -> ExitCode {
    match check_all(&rt) {
        Ok(true) => ExitCode::SUCCESS,
        Ok(false) => ExitCode::FAILURE,
        Err(error) => {
            let _ = eprintln!(rt; "{error:#}");
            ExitCode::FAILURE
        }
    }
}

/// The numbers of cases that were run, of cases that agree, and of scripts.
#[derive(Clone, Copy, Debug)]
struct Tally {
    cases: u32,
    agreeing: u32,
    scripts: u32,
}

impl Tally {
    fn count(&mut self, agrees: bool) {
        self.cases = self.cases.saturating_add(1);
        if agrees {
            self.agreeing = self.agreeing.saturating_add(1);
        }
    }

    fn count_script(&mut self, agrees: bool) {
        self.count(agrees);
        self.scripts = self.scripts.saturating_add(1);
    }
}

// Runs all cases. Prints each case that doesn't agree, and then the numbers of cases that agree and of scripts. Returns
// whether all cases agree.
fn check_all<R: Files + AllocGlobal + Print + Threads + Wait + Sync>(rt: &R) -> Result<bool> {
    let mut tally = Tally {
        cases: 0,
        agreeing: 0,
        scripts: 0,
    };
    check_index(rt, &mut tally)?;
    check_large(rt, &mut tally)?;
    check_clcws(rt, &mut tally)?;
    let Tally {
        cases,
        agreeing,
        scripts,
    } = tally;
    println!(rt; "{agreeing} of {cases} cases agree")?;
    println!(rt; "{scripts} of them are scripts, each done five ways")?;
    Ok(agreeing == cases)
}

fn check_index<R: Files + AllocGlobal + Print + Threads + Wait + Sync>(
    rt: &R,
    tally: &mut Tally,
) -> Result<()> {
    let index = fs::read_to_string(rt, "index").context("index")?;
    let mut last = b"".as_slice();
    for line in index.as_str().lines() {
        let Some(case) = parse_case(line) else {
            return Err(anyhow!("no case in a line of the index: {line}"));
        };
        if case.name.as_bytes() <= last {
            return Err(anyhow!("the index isn't sorted: {line}"));
        }
        last = case.name.as_bytes();
        let script = read(rt, format!(in rt.alloc(); "{}.script", case.name)?)?;
        let answers = read(rt, format!(in rt.alloc(); "{}.out", case.name)?)?;
        let agrees = agrees_each_way(rt, &case, script.as_slice(), answers.as_slice())?;
        tally.count_script(agrees);
    }
    Ok(())
}

fn read<R: Files + AllocGlobal>(rt: &R, path: String) -> Result<Vec<u8>> {
    match fs::read(rt, path.as_str()) {
        Ok(octets) => Ok(octets),
        Err(error) => Err(anyhow!("{path}: {error}")),
    }
}

fn check_large<R: AllocGlobal + Print + Threads + Wait + Sync>(
    rt: &R,
    tally: &mut Tally,
) -> Result<()> {
    for large in large_cases(rt.alloc())? {
        let case = Case {
            name: large.name,
            scid: 42,
            fault: large.fault,
        };
        let agrees = agrees_each_way(rt, &case, large.script.as_slice(), b"")?;
        tally.count_script(agrees);
    }
    Ok(())
}

fn check_clcws<R: Files + AllocGlobal + Print>(rt: &R, tally: &mut Tally) -> Result<()> {
    let list = fs::read_to_string(rt, "clcws").context("clcws")?;
    for line in list.as_str().lines() {
        let agrees = clcws::agrees(rt.alloc(), line)?;
        if !agrees {
            println!(rt; "CLCW {line}: it is read or written otherwise")?;
        }
        tally.count(agrees);
    }
    Ok(())
}

// Returns whether a script leads to the expected answers and fault in each way in which it is run. A run line by line,
// on a station or on channels of some form, must give `answers`. A run with a worker for each channel must give only
// the report at the end of `answers`.
fn agrees_each_way<R: AllocGlobal + Print + Threads + Wait + Sync>(
    rt: &R,
    case: &Case,
    script: &[u8],
    answers: &[u8],
) -> Result<bool>
    requires { case.now.scid ≤ 1023 }
{
    let mut all = true;
    for command in COMMANDS {
        let expected = match command {
            Command::Parallel => report_of(answers, case.fault),
            _ => answers,
        };
        all &= agrees(rt, case, command, script, expected)?;
    }
    Ok(all)
}

// Returns whether a script leads to the expected answers and fault. If it doesn't, prints the first difference.
fn agrees<R: AllocGlobal + Print + Threads + Wait + Sync>(
    rt: &R,
    case: &Case,
    command: Command,
    script: &[u8],
    answers: &[u8],
) -> Result<bool>
    requires { case.now.scid ≤ 1023 }
{
    let outcome = perform(rt, rt.alloc(), command, case.scid, script)?;
    let fault = outcome.fault.as_str();
    match compare(&outcome.answers, fault, answers, case.fault) {
        None => Ok(true),
        Some(difference) => {
            println!(rt; "{command} {}: {difference}", case.name)?;
            Ok(false)
        }
    }
}
