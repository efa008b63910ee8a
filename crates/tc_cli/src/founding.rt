//! Creating a station with the channels that a script has set up.

ghost use Rattle.std.specs.Prelude.{◌≡◌, ◌≢◌, ◌≤◌, ◌⊎◌, [], length, map, IfOk, IfErr, OnOk};
ghost use Rattle.tc_cli.specs.Parting.{empty_list, IsNewStation};

use std::alloc::Global;
use tc_channel::{Items, allowed_settings_have_no_fault};
use tc_rack::Configuration;
use tc_station::{CountingStation, StationFault, WorkList};
use tc_text::Reason;

/// Creates a station with the channels of a configuration.
pub(crate) fn found(
    alloc: Global,
    scid: u16,
    configuration: Configuration,
) -> Result<CountingStation, Reason>
    requires { scid ≤ 1023 }
    ensures station { IfOk result (IsNewStation scid configuration) }
    ensures some { OnOk result (configuration ≢ []) }
    ensures reason { IfErr result (λ reason. (reason ≡ Reason.NoMemory) ⊎ ((reason ≡ Reason.NoChannel) × (configuration ≡ []))) }
{
    allowed_settings_have_no_fault();
    match CountingStation::new(alloc, scid, configuration.into_channels()) {
        Ok(station) => Ok(station),
        Err(StationFault::NoChannel) => Err(Reason::NoChannel),
        Err(StationFault::NoMemory) => Err(Reason::NoMemory),
        // `scid` is at most 1,023, and a configuration has no other fault, so these can't occur.
        Err(StationFault::BadScid) => unreachable!(),
        Err(StationFault::DoubleVcid(_)) => unreachable!(),
        Err(StationFault::Settings(_, _)) => unreachable!(),
    }
}

/// Creates an empty list of jobs for each channel of a configuration.
pub(crate) fn lists_for(
    alloc: Global,
    configuration: &Configuration,
) -> Result<Vec<WorkList>, Reason>
    ensures lists { IfOk result (λ lists. lists.items ≡ map empty_list configuration.now) }
    ensures few { length configuration.now ≤ 64 }
    ensures reason { IfErr result (λ reason. reason ≡ Reason.NoMemory) }
{
    let lists = configuration
        .channels()
        .iter()
        .map(|settings| without_jobs(alloc, settings.vcid));
    match lists.collect(alloc) {
        Ok(lists) => Ok(lists),
        Err(_) => Err(Reason::NoMemory),
    }
}

fn without_jobs(alloc: Global, vcid: u8) -> WorkList
    ensures { result ≡ record { vcid = vcid; jobs = [] } }
{
    WorkList {
        vcid,
        jobs: Items::from(Vec::new(alloc)),
    }
}
