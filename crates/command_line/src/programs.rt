//! The command lines of the programs.

ghost use Rattle.std.specs.Prelude.{◌≤◌, IfOk, IfErr};
ghost use Rattle.std.specs.Process.{exit_status};

use crate::help::{LIVE_LINES, MAKER_LINES, SCRIPTS};
use crate::program::{Program, Way, ask, spacecraft_of};
use std::env::Env;
use std::process::ExitCode;

const TCRX: Program = Program {
    name: "tcrx",
    about: "Receives telecommand frames: runs a script that it reads from standard input",
    end: SCRIPTS,
    scid: false,
    fecf: None,
    strict: None,
    commands: &[
        (
            "run",
            "Runs a script line by line, and prints each answer and the final report",
        ),
        (
            "parallel",
            "Runs a script with a worker for each channel, and prints the final report",
        ),
    ],
};

const TCLIVE: Program = Program {
    name: "tclive",
    about: "Receives telecommand frames line by line: answers the lines of standard input",
    end: LIVE_LINES,
    scid: true,
    fecf: Some(
        "Requires each frame to end with a valid frame error control field. The answer to any other is: refused check",
    ),
    strict: None,
    commands: &[],
};

const TCMAKE: Program = Program {
    name: "tcmake",
    about: "Makes and explains telecommand frames, packets, CLTUs and telemetry frames: answers the lines of standard input",
    end: MAKER_LINES,
    scid: false,
    fecf: Some("Makes and explains frames that end with a frame error control field"),
    strict: Some("Exits with status 1 after the answer to the first bad line"),
    commands: &[],
};

/// A script that is to be run for the spacecraft with this id.
#[derive(Clone, Copy, Debug, PartialEq, Eq)]
pub struct ScriptRun {
    pub scid: u16,
    pub way: Way,
}

/// The spacecraft whose frames are received, with a flag that is set if each frame must end with its frame error
/// control field.
#[derive(Clone, Copy, Debug, PartialEq, Eq)]
pub struct Reception {
    pub scid: u16,
    pub fecf: bool,
}

/// The way in which frames are made. `fecf` is set if each frame ends with its frame error control field, and `strict`
/// is set if the program exits after the first bad line.
#[derive(Clone, Copy, Debug, PartialEq, Eq)]
pub struct Making {
    pub fecf: bool,
    pub strict: bool,
}

/// Parses the command line of `tcrx`. If help, the version or a fault was printed instead, returns the exit status.
pub fn asked_of_tcrx<R: Env + AllocGlobal + Print + Eprint>(rt: &R) -> Result<ScriptRun, ExitCode>
    ensures spacecraft { IfOk result (λ run. run.scid ≤ 1023) }
    ensures status { IfErr result (λ status. exit_status status ≤ 2) }
{
    let asked = ask(rt, &TCRX)?;
    let scid = spacecraft_of(rt, asked)?;
    let way = asked.way;
    Ok(ScriptRun { scid, way })
}

/// Parses the command line of `tclive`. If help, the version or a fault was printed instead, returns the exit status.
pub fn asked_of_tclive<R: Env + AllocGlobal + Print + Eprint>(rt: &R) -> Result<Reception, ExitCode>
    ensures spacecraft { IfOk result (λ reception. reception.scid ≤ 1023) }
    ensures status { IfErr result (λ status. exit_status status ≤ 2) }
{
    let asked = ask(rt, &TCLIVE)?;
    let scid = spacecraft_of(rt, asked)?;
    let fecf = asked.fecf;
    Ok(Reception { scid, fecf })
}

/// Parses the command line of `tcmake`. If help, the version or a fault was printed instead, returns the exit status.
pub fn asked_of_tcmake<R: Env + AllocGlobal + Print + Eprint>(rt: &R) -> Result<Making, ExitCode>
    ensures { IfErr result (λ status. exit_status status ≤ 2) }
{
    let asked = ask(rt, &TCMAKE)?;
    let fecf = asked.fecf;
    let strict = asked.strict;
    Ok(Making { fecf, strict })
}
