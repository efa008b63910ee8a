//! The texts that are printed instead of running a program, and the exit status.

ghost use Rattle.std.specs.Prelude.{◌≡◌, ◌≤◌, IfErr};
ghost use Rattle.std.specs.Process.{exit_status};

use crate::help::INPUT;
use crate::program::Program;
use crate::words::read_words;
use clap::Error;
use clap::error::ErrorKind;
use std::env::Env;
use std::process::ExitCode;
use strsim::{jaro, osa_distance};

/// The exit status of a bad command line.
pub(crate) const BAD_COMMAND_LINE: u8 = 2;

/// Returns the words with which a program was started, its name first. If the words can't be used, prints the reason to
/// standard error, and returns the exit status.
pub(crate) fn words_of<R: Env + AllocGlobal + Eprint>(
    rt: &R,
    program: &str,
) -> Result<Vec<String>, ExitCode>
    ensures { IfErr result (λ status. exit_status status ≡ BAD_COMMAND_LINE) }
{
    match read_words(rt) {
        Ok(words) => Ok(words),
        Err(fault) => {
            let _ = eprintln!(rt; "{program}: {fault}");
            Err(ExitCode::from(BAD_COMMAND_LINE))
        }
    }
}

/// Prints help, the version, or the reason why the words are refused, and returns the exit status. A failure to write
/// to standard output is reported on standard error.
pub(crate) fn print<R: AllocGlobal + Print + Eprint>(
    rt: &R,
    program: &Program,
    words: &[String],
    answer: &Error,
) -> ExitCode
    ensures { exit_status result ≤ 2 }
{
    let printed = answer.print(rt);
    if answer.use_stderr() {
        if !program.commands.is_empty() && answer.kind() == ErrorKind::UnknownArgument {
            let _ = eprintln!(rt; "{INPUT}");
        }
        if answer.kind() == ErrorKind::InvalidSubcommand {
            suggest(rt, program, words);
        }
        return ExitCode::from(BAD_COMMAND_LINE);
    }
    match printed {
        Ok(()) => ExitCode::SUCCESS,
        Err(_) => {
            let _ = eprintln!(rt; "{}: cannot write", program.name);
            ExitCode::FAILURE
        }
    }
}

// The largest number of slips with which a word is still taken for a misspelt command. A slip is one letter that is
// added, left out or changed, or two neighbours in the wrong order.
const SLIPS: usize = 2;

// The largest likeness of the word and a command for which this code suggests the command. If they are more alike,
// `clap` suggests it.
const UNALIKE: f64 = 0.7;

// Names the command that the first word was perhaps meant to be, if `clap` hasn't suggested it.
fn suggest<R: AllocGlobal + Eprint>(rt: &R, program: &Program, words: &[String]) {
    let Some(word) = words.get(1) else {
        return;
    };
    for (name, _about) in program.commands {
        let slips = osa_distance(rt.alloc(), word, name).unwrap_or(usize::MAX);
        let likeness = jaro(rt.alloc(), word, name).unwrap_or(1.0);
        if slips <= SLIPS && likeness <= UNALIKE {
            let _ = eprintln!(rt; "{}: did you mean {name}?", program.name);
        }
    }
}
