//! Scripts that are read from standard input.

ghost use Rattle.std.specs.Prelude.{◌≤◌};

use crate::fields::each_frame_has_its_field;
use crate::parallel::parallel_and_give_back;
use crate::script::run_and_give_back;
use std::io;
use std::io::BufWriter;
use std::sync::Wait;
use std::thread::Threads;
use tc_station::FreeGate;
use tc_text::{Reason, ScriptFault};

const NO_WRITER: ScriptFault = ScriptFault::Line {
    line: 0,
    reason: Reason::NoMemory,
};

/// Runs the script on standard input as [`run_script`](crate::run_script) does, and writes to standard output. If the
/// whole script was carried out, returns whether it has a frame and each of its frames ends with its frame error
/// control field. If memory runs out for this check, returns false.
pub fn run_input<R: AllocGlobal + Input + Print + Wait>(
    rt: &R,
    scid: u16,
) -> Result<bool, ScriptFault>
    requires { scid ≤ 1023 }
{
    let Ok(mut writer) = BufWriter::new(rt.alloc(), io::writer(rt)) else {
        return Err(NO_WRITER);
    };
    let mut reader = rt.reader();
    let script = run_and_give_back(rt, rt.alloc(), scid, &mut reader, &mut writer)?;
    Ok(each_frame_has_its_field(rt.alloc(), script.as_slice()))
}

/// Runs the script on standard input as [`parallel_script`](crate::parallel_script) does, and writes to standard
/// output. The result has the same meaning as the result of [`run_input`].
pub fn parallel_input<R: AllocGlobal + Input + Print + Threads + Wait + Sync>(
    rt: &R,
    scid: u16,
) -> Result<bool, ScriptFault>
    requires { scid ≤ 1023 }
{
    let Ok(mut writer) = BufWriter::new(rt.alloc(), io::writer(rt)) else {
        return Err(NO_WRITER);
    };
    let mut reader = rt.reader();
    let script = parallel_and_give_back(rt, rt.alloc(), &FreeGate, scid, &mut reader, &mut writer)?;
    Ok(each_frame_has_its_field(rt.alloc(), script.as_slice()))
}
