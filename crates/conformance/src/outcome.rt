//! Running a script in each way in which a script can be run.

ghost use Rattle.std.specs.Prelude.{◌≤◌};

use crate::replay::replay;
use std::alloc::{AllocError, Global};
use std::fmt;
use std::sync::Wait;
use std::thread::Threads;
use tc_channel::{Channel, CountingChannel};
use tc_cli::{parallel_script, run_script};
use tc_fixed::FixedChannel;
use tc_station::FreeGate;

/// The answers to a script, and the text of the fault with which it ends.
#[derive(Debug, Drop)]
pub(crate) struct Outcome {
    pub(crate) answers: Vec<u8>,
    pub(crate) fault: String,
}

/// The way in which a script is run.
#[derive(Clone, Copy, Debug)]
pub(crate) enum Command {
    /// A run line by line, with an answer for each operation.
    Run,
    /// A run with a worker for each channel, and the final report alone.
    Parallel,
    /// Runs like `Run`, but on channels without a station. The channels of `Alone` keep their journals in memory, the
    /// channels of `Counting` keep no journals, and the channels of `Rooms` are in rooms.
    Alone,
    Counting,
    Rooms,
}

pub(crate) const COMMANDS: [Command; 5] = [
    Command::Run,
    Command::Parallel,
    Command::Alone,
    Command::Counting,
    Command::Rooms,
];

impl fmt::Display for Command {
    fn fmt<W: fmt::Write>(&self, f: &mut fmt::Formatter<W>) -> fmt::Result {
        f.write_str(match self {
            Command::Run => "run",
            Command::Parallel => "parallel",
            Command::Alone => "alone",
            Command::Counting => "counting",
            Command::Rooms => "in rooms",
        })
    }
}

/// Runs a script that is in memory, in the way that `command` names.
pub(crate) fn perform<T: Threads + Wait + Sync>(
    rt: &T,
    alloc: Global,
    command: Command,
    scid: u16,
    script: &[u8],
) -> Result<Outcome, AllocError>
    requires { scid ≤ 1023 }
{
    let mut reader = script;
    let mut answers = Vec::new(alloc);
    let done = match command {
        Command::Run => run_script(rt, alloc, scid, &mut reader, &mut answers),
        Command::Parallel => {
            parallel_script(rt, alloc, &FreeGate, scid, &mut reader, &mut answers)
        }
        Command::Alone => replay::<Channel, _, _>(alloc, scid, &mut reader, &mut answers),
        Command::Counting => replay::<CountingChannel, _, _>(
            alloc,
            scid,
            &mut reader,
            &mut answers,
        ),
        Command::Rooms => replay::<FixedChannel, _, _>(alloc, scid, &mut reader, &mut answers),
    };
    let fault = match done {
        Ok(()) => String::new(alloc),
        Err(fault) => fault.to_string(alloc)?,
    };
    Ok(Outcome { answers, fault })
}
