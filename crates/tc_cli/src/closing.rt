//! Closing the station of a script.

ghost use Rattle.std.specs.Prelude.{◌≡◌, All, IfOk, IfErr};
ghost use Rattle.tc_channel.specs.Journal.{IsNumberReported};
ghost use Rattle.tc_cli.specs.Report.{IsClosedReport};
ghost use Rattle.tc_cli.specs.Script.{IsScriptCloseFault, close_fault};
ghost use Rattle.tc_station.specs.Tally.{IsOurs};

use tc_channel::CountingChannel;
use tc_station::{CountingStation, Operator, Refusal};
use tc_text::{Reason, ScriptFault};

/// Closes the station of a script with `lines` lines, together with its operators, and returns the channels in rising
/// order of their ids. Each channel reports the exact number of its events.
pub(crate) fn close(
    station: CountingStation,
    operators: Vec<Operator>,
    lines: u32,
) -> Result<Vec<CountingChannel>, ScriptFault>
    requires ours { All (IsOurs station) operators.items }
    ensures closed { IfOk result (λ channels. IsClosedReport station operators.items channels.items) }
    ensures reported { IfOk result (λ channels. All IsNumberReported channels.items) }
    ensures fault { IfErr result (IsScriptCloseFault station operators.items lines) }
{
    match station.close_together(operators) {
        Ok(mut channels) => {
            channels.sort_unstable_by_key(|channel| channel.settings().vcid);
            Ok(channels)
        }
        Err(left) => Err(fault_of(left.refusal, lines)),
    }
}

// Returns the fault of a script with `lines` lines whose station isn't closed.
fn fault_of(refusal: Refusal, lines: u32) -> ScriptFault
    ensures { result ≡ close_fault lines refusal }
{
    match refusal {
        Refusal::NoMemory | Refusal::InUse => ScriptFault::Line {
            line: lines,
            reason: Reason::NoMemory,
        },
        Refusal::Unbalanced => ScriptFault::Unbalanced,
    }
}
