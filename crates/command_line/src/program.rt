//! The meaning of the words with which a program is started. A table for each program lists the words that it takes.

ghost use Rattle.std.specs.Prelude.{◌≡◌, ◌≤◌, IfOk, IfErr};
ghost use Rattle.std.specs.Process.{exit_status};

use crate::answer::{BAD_COMMAND_LINE, print, words_of};
use crate::help::{POINTER, VERSION};
use clap::{Arg, ArgAction, ArgMatches, Command, Error, value_parser};
use std::alloc::{AllocError, Global};
use std::convert::AsStr;
use std::env::Env;
use std::process::ExitCode;

/// The largest spacecraft id (CCSDS 232.0-B, 4.1.2.5: ten bits).
const MAX_SCID: u16 = 1023;

/// The way in which a script is run.
#[derive(Clone, Copy, Debug, PartialEq, Eq)]
pub enum Way {
    /// A run line by line.
    InOrder,
    /// A run with a worker for each channel.
    Parallel,
}

/// The words that a program takes, and its texts of help.
pub(crate) struct Program {
    pub(crate) name: &'static str,
    pub(crate) about: &'static str,
    /// The text with which help ends.
    pub(crate) end: &'static str,
    /// A flag that is set if the program itself, rather than each of its commands, has the option `--scid`.
    pub(crate) scid: bool,
    /// The help on `--fecf`, if it is an option of the program.
    pub(crate) fecf: Option<&'static str>,
    /// The help on `--strict`, if it is an option of the program.
    pub(crate) strict: Option<&'static str>,
    /// The commands, with the help on each. Each command runs a script for a spacecraft.
    pub(crate) commands: &'static [(&'static str, &'static str)],
}

/// The meaning of the words with which a program was started. An option that the program doesn't have is absent.
#[derive(Clone, Copy)]
pub(crate) struct Asked {
    pub(crate) way: Way,
    pub(crate) scid: Option<u16>,
    pub(crate) fecf: bool,
    pub(crate) strict: bool,
}

/// Returns the meaning of the words with which a program was started, or the exit status if help, the version or a
/// fault was printed instead.
pub(crate) fn ask<R: Env + AllocGlobal + Print + Eprint>(
    rt: &R,
    program: &Program,
) -> Result<Asked, ExitCode>
    ensures { IfErr result (λ status. exit_status status ≤ 2) }
{
    let words = words_of(rt, program.name)?;
    match judge(rt.alloc(), program, words.as_slice()) {
        Ok(asked) => Ok(asked),
        Err(answer) => Err(print(rt, program, words.as_slice(), &answer)),
    }
}

/// Returns the spacecraft id among the words, which is at most 1,023. If there is none, prints that to standard error,
/// and returns the exit status. Each program that calls this function requires an id.
pub(crate) fn spacecraft_of<R: Eprint>(rt: &R, asked: Asked) -> Result<u16, ExitCode>
    ensures id { IfOk result (λ scid. scid ≤ MAX_SCID) }
    ensures status { IfErr result (λ status. exit_status status ≡ BAD_COMMAND_LINE) }
{
    match asked.scid {
        Some(scid) if scid <= MAX_SCID => Ok(scid),
        _ => {
            let _ = eprintln!(rt; "error: no spacecraft id is given");
            Err(ExitCode::from(BAD_COMMAND_LINE))
        }
    }
}

// Returns the meaning of the words, which begin with the program's name. An error is a text to print: help, the
// version, or the reason why the words are refused.
fn judge<'a, S: AsStr>(alloc: Global, program: &Program, words: &'a [S]) -> Result<Asked, Error> {
    let command = command(alloc, program)?
        .version(VERSION)
        .disable_help_subcommand(true)
        .subcommand_required(!program.commands.is_empty());
    let matches = command.try_get_matches_from(words)?;
    Ok(match matches.subcommand() {
        Some(("parallel", found)) => asked_by(Way::Parallel, found),
        Some((_, found)) => asked_by(Way::InOrder, found),
        None => asked_by(Way::InOrder, &matches),
    })
}

fn asked_by(way: Way, matches: &ArgMatches) -> Asked {
    Asked {
        way,
        scid: matches.get_one::<u16>("scid"),
        fecf: matches.get_flag("fecf"),
        strict: matches.get_flag("strict"),
    }
}

fn command<'a>(alloc: Global, program: &Program) -> Result<Command<'a>, AllocError> {
    let mut command = texts(alloc, program.name, program.about, program.end);
    for (name, about) in program.commands {
        let script = texts(alloc, name, about, POINTER).arg(scid(alloc))?;
        command = command.subcommand(script)?;
    }
    if program.scid {
        command = command.arg(scid(alloc))?;
    }
    for (name, asks_for) in [("fecf", program.fecf), ("strict", program.strict)] {
        if let Some(help) = asks_for {
            command = command.arg(flag(alloc, name, help))?;
        }
    }
    Ok(command)
}

fn texts<'a>(alloc: Global, name: &'a str, about: &'a str, end: &'a str) -> Command<'a> {
    Command::new(alloc, name).about(about).after_help(end)
}

fn scid<'a>(alloc: Global) -> Arg<'a> {
    Arg::new(alloc, "scid")
        .long("scid")
        .value_name("N")
        .required(true)
        .action(ArgAction::Set)
        .value_parser(value_parser!(u16).range(0..=1023))
        .help("The spacecraft id, from 0 to 1023")
}

fn flag<'a>(alloc: Global, name: &'a str, help: &'a str) -> Arg<'a> {
    Arg::new(alloc, name)
        .long(name)
        .action(ArgAction::SetTrue)
        .help(help)
}
