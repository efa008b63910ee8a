//! The engines with which sessions start.

ghost use Rattle.std.specs.Prelude.{◌≡◌};
ghost use Rattle.tc_c_lines.specs.Calls.{IsMade, check_of, ending_of, live_start, maker_start, script_start};

use std::alloc::Global;
use tc_c_base::Status;
use tc_live::FrameCheck;
use tc_make::Ending;
use tc_session::{Engine, live_engine, maker_engine, script_engine};
use tc_text::SpacecraftId;

// Returns the check that frames must pass, given the flag for their frame error control field. Returns BadFlag if the
// flag is neither 0 nor 1.
fn check(fecf: u8) -> Result<FrameCheck, Status>
    ensures { result ≡ check_of fecf }
{
    match fecf {
        0 => Ok(FrameCheck::Nothing),
        1 => Ok(FrameCheck::ErrorControl),
        _ => Err(Status::BadFlag),
    }
}

// Returns the ending of frames, given the flag for their frame error control field. Returns BadFlag if the flag is
// neither 0 nor 1.
fn ending(fecf: u8) -> Result<Ending, Status>
    ensures { result ≡ ending_of fecf }
{
    match fecf {
        0 => Ok(Ending::DataField),
        1 => Ok(Ending::ErrorControl),
        _ => Err(Status::BadFlag),
    }
}

/// Returns the engine that answers as `tclive` does, or the first fault of the arguments.
pub(crate) fn live(alloc: Global, scid: u16, fecf: u8) -> Result<Engine, Status>
    ensures { result ≡ live_start scid fecf }
{
    match (SpacecraftId::new(scid), check(fecf)) {
        (Some(spacecraft), Ok(check)) => Ok(live_engine(alloc, spacecraft, check)),
        (None, _) => Err(Status::BadScid),
        (_, Err(fault)) => Err(fault),
    }
}

/// Returns the engine that carries out a script as `tcrx run` does, or BadScid if the spacecraft id is over 1,023.
pub(crate) fn script(alloc: Global, scid: u16) -> Result<Engine, Status>
    ensures { result ≡ script_start scid }
{
    match SpacecraftId::new(scid) {
        Some(spacecraft) => Ok(script_engine(alloc, spacecraft)),
        None => Err(Status::BadScid),
    }
}

/// Returns the engine that answers as `tcmake` does. Fails with BadFlag if the flag is neither 0 nor 1, and with
/// NoMemory if memory runs out.
pub(crate) fn maker(alloc: Global, fecf: u8) -> Result<Engine, Status>
    ensures { IsMade (maker_start fecf) result }
{
    match ending(fecf) {
        Ok(ending) => match maker_engine(alloc, ending) {
            Some(engine) => Ok(engine),
            None => Err(Status::NoMemory),
        },
        Err(fault) => Err(fault),
    }
}
