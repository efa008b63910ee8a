mod growths;
mod streams;
mod texts;

use std::io::{Read, Write};
use std::sync::Wait;
use std::thread::Threads;
use tc_cli::{ScriptFault, parallel_script, run_script};
use tc_station::FreeGate;

// The way in which a script is run.
#[derive(Clone, Copy)]
enum Way {
    InOrder,
    InParallel,
}

// Runs a script for spacecraft 42 in one of the two ways. All tests that run a script call this function.
fn run<T: Threads + Wait + Sync + AllocGlobal, R: Read, W: Write>(
    rt: &T,
    way: Way,
    reader: &mut R,
    writer: &mut W,
) -> Result<(), ScriptFault> {
    match way {
        Way::InOrder => run_script(rt, rt.alloc(), 42, reader, writer),
        Way::InParallel => parallel_script(rt, rt.alloc(), &FreeGate, 42, reader, writer),
    }
}

/// A script with a frame whose packet is taken, and a frame for whose data field the buffer has no room.
const SCRIPT: &str =
    "channel 1 10 1 0\nqueue 1 5 1\nclcw 1\nframe 002a040c00c01005c0000000aa\nclcw 1\nframe 002a040c01c01005c0000000aa\nclcw 1\nrelease 1\nclcw 1\ntake 1 5\nrelease 1\n";

const ANSWERS: &str =
    "clcw 1 01040000\nframe 1 E1 accepted 1 queued 0 dropped 0 rest 0\nclcw 1 01040001\nframe 1 E2 accepted 0 queued 0 dropped 0 rest 0\nclcw 1 01041801\nrelease 1 queued 1 dropped 0 rest 0\nclcw 1 01040801\ntake 1 5 1005c0000000aa\nrefused empty\nfinal 1 01040801 events 4 buffered 0\nqueue 1 5 0\n";

/// The final report of `SCRIPT`.
const REPORT: &str = "final 1 01040801 events 4 buffered 0\nqueue 1 5 0\n";

/// A script with two units of a chosen MAP, one in a Type-AD frame and one in a Type-BD frame.
const UNITS: &str =
    "channel 1 10 1 0\nmap 1 3 2\nframe 002a040800c3aabbcc\nrelease 1\nframe 202a040700c3ddee\nunit 1 3\nunit 1 3\nclcw 1\n";

const UNITS_ANSWERS: &str =
    "frame 1 E1 accepted 1 queued 0 dropped 0 rest 0\nrelease 1 queued 1 dropped 0 rest 0\nframe 1 E6 accepted 1 queued 1 dropped 0 rest 0\nunit 1 3 aabbcc\nunit 1 3 ddee\nclcw 1 01040201\nfinal 1 01040201 events 5 buffered 0\nmap 1 3 0\n";

/// The final report of `UNITS`.
const UNITS_REPORT: &str = "final 1 01040201 events 5 buffered 0\nmap 1 3 0\n";
