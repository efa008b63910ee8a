//! Jobs that are sorted by channel, and carried out by one worker for each channel.

ghost use Rattle.std.specs.Prelude.{◌≡◌, ◌≢◌, ◌≤◌, ◌⊎◌, [], All, IfOk, IfErr, OnOk, OnErr, MatchOption};
ghost use Rattle.tc_cli.specs.Parting.{IsNewlyParted, IsGiven, IsFrameGiven, HasWorkList, IsListAt, IsWorkedOut, IsWorkFault};
ghost use Rattle.tc_rack.specs.Report.{AreNonDecreasing};
ghost use Rattle.tc_channel.specs.Journal.{IsNumberReported};
ghost use Rattle.tc_station.specs.Work.{line_of_fault};

use crate::closing::close;
use crate::founding::{found, lists_for};
use std::alloc::Global;
use std::marker::Model;
use std::sync::Wait;
use std::thread::Threads;
use tc_channel::{CountingChannel, Octets};
use tc_rack::{Configuration, append};
use tc_station::{CountingStation, Gate, Job, OperatorsFault, Order, WorkFault, WorkList};
use tc_text::{Reason, ScriptFault};

/// A station that has issued no operator, and a list of jobs for each of its channels.
#[derive(Drop)]
pub(crate) struct Parted {
    station: CountingStation,
    lists: Vec<WorkList>,
}

impl Model for Parted {
    ghost use Rattle.std.specs.Prelude.{◌≡◌, ◌≤◌, length};
    ghost use Rattle.tc_cli.specs.Parting.{Parted};

    ghost Value = { Parted };

    ghost view = { λ o. record { station = o.station; lists = o.lists.items } };

    ghost invariant = { λ o. (o.station.issued ≡ 0) × (length o.lists.items ≤ 64) };
}

impl Parted {
    /// Creates a station with these channels, and an empty list of jobs for each of them.
    // This runs once for a script, so its code isn't inlined into the code that runs for each line.
    #[cold]
    #[inline(never)]
    pub(crate) fn new(
        alloc: Global,
        scid: u16,
        configuration: Configuration,
    ) -> Result<Parted, Reason>
        requires { scid ≤ 1023 }
        ensures parted { IfOk result (IsNewlyParted scid configuration) }
        ensures some { OnOk result (configuration ≢ []) }
        ensures reason { IfErr result (λ reason. (reason ≡ Reason.NoMemory) ⊎ ((reason ≡ Reason.NoChannel) × (configuration ≡ []))) }
    {
        let lists = lists_for(alloc, &configuration)?;
        let station = found(alloc, scid, configuration)?;
        Ok(Parted { station, lists })
    }

    /// Appends the job of a frame line to the list of the channel that the octets are for, if there is one.
    pub(crate) fn give_frame(
        &mut self,
        alloc: Global,
        line: u32,
        octets: Octets,
    ) -> Result<(), Reason>
        ensures given { OnOk result (IsFrameGiven line octets self.old self.new) }
        ensures reason { IfErr result (λ reason. reason ≡ Reason.NoMemory) }
        ensures refused { OnErr result (self.new ≡ self.old) }
    {
        let vcid = match self.station.locate(octets.as_slice()) {
            Ok(located) => located.vcid,
            Err(_) => return Ok(()),
        };
        let order = Order::Bring(octets);
        self.give(alloc, vcid, Job { line, order })
    }

    /// Appends a job to the list of a channel, if there is such a channel.
    pub(crate) fn give(&mut self, alloc: Global, vcid: u8, job: Job) -> Result<(), Reason>
        ensures given { OnOk result (IsGiven vcid job self.old self.new) }
        ensures reason { IfErr result (λ reason. reason ≡ Reason.NoMemory) }
        ensures refused { OnErr result (self.new ≡ self.old) }
    {
        let Some(place) = place_of(&self.lists, vcid) else {
            return Ok(());
        };
        let list = &mut self.lists[place];
        append(alloc, &mut list.jobs, job)
    }

    /// Lets a worker for each list carry out the jobs of a script with `lines` lines, and closes the station. Returns
    /// the channels in rising order of their ids.
    pub(crate) fn work<T: Threads + Wait + Sync, G: Gate + Sync>(
        self,
        rt: &T,
        gate: &G,
        lines: u32,
    ) -> Result<Vec<CountingChannel>, ScriptFault>
        ensures ordered { IfOk result (λ channels. AreNonDecreasing channels.items) }
        ensures reported { IfOk result (λ channels. All IsNumberReported channels.items) }
        ensures worked { IfOk result (λ channels. IsWorkedOut self channels.items) }
        ensures fault { IfErr result (IsWorkFault lines self) }
    {
        let Parted { mut station, lists } = self;
        let mut operators = match station.operators(lists.len() as u16) {
            Ok(operators) => operators,
            Err(OperatorsFault::NoMemory) => return Err(no_memory(lines)),
            Err(OperatorsFault::TooMany) => unreachable!(),
        };
        match station.work(rt, gate, &mut operators, &lists) {
            Ok(()) => close(station, operators, lines),
            Err(fault) => Err(refused(fault)),
        }
    }
}

// Returns the place of the list of the channel with this id, if there is one.
fn place_of(lists: &[WorkList], vcid: u8) -> Option<usize>
    ensures { MatchOption result (¬ HasWorkList lists.now vcid) (λ place. (l : WorkList) × IsListAt lists.now vcid place l) }
{
    lists.iter().position(|list| list.vcid == vcid)
}

// Returns the fault of a script if memory ran out for one of its jobs.
fn refused(fault: WorkFault) -> ScriptFault
    ensures { result ≡ ScriptFault.Line (line_of_fault fault) Reason.NoMemory }
{
    match fault {
        WorkFault::NoMemory { line } => no_memory(line),
    }
}

fn no_memory(line: u32) -> ScriptFault
    ensures { result ≡ ScriptFault.Line line Reason.NoMemory }
{
    ScriptFault::Line {
        line,
        reason: Reason::NoMemory,
    }
}
