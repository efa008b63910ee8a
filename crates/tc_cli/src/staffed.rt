//! A station with its operator and its watchers, and the answers to the operations of a script.

ghost use Rattle.std.specs.Prelude.{◌≡◌, ◌<◌, length, IfOk, IfErr, OnOk, OnErr};
ghost use Rattle.tc_rack.specs.Linked.{IsReleaseAnswered, IsTakeAnswered, IsUnitAnswered};
ghost use Rattle.tc_cli.specs.Staffed.{AllHaveMet, AreAsCounted, HasMetAt, IsBringAnswer, IsDeskAnswer, IsStaffedCall, IsNewlyStaffed, IsWordAnswer};
ghost use Rattle.tc_station.specs.Roster.{IsPlace, settings_in};
ghost use Rattle.tc_cli.specs.Watched.{IsOrdered};
ghost use Rattle.tc_station.specs.Tally.{HasMadeNothing, IsOurs, KnowsDesks};

use crate::watchers::{NO_FLAGS, watch_each};
use std::alloc::Global;
use std::marker::Model;
use std::sync::Wait;
use tc_channel::{NoMemory, Octets, ReleaseFault, TakeFault, TakeUnitFault, Unrecorded};
use tc_desk::{Framing, Operation as DeskOperation, Release, Taking, UnitTaking};
use tc_rack::{Answer, Refusal};
use tc_station::{CountingStation, Located, Operator, OperatorsFault};
use tc_status::Watcher;
use tc_text::Reason;

/// A station with the one operator that it has issued, and a watcher for each channel. Each watcher meets its channel
/// before and after each operation on the channel, except for a read of the CLCW.
#[derive(Drop)]
pub(crate) struct StaffedStation {
    station: CountingStation,
    operator: Operator,
    vcids: Vec<u8>,
    watchers: Vec<Watcher>,
}

impl Model for StaffedStation {
    ghost use Rattle.std.specs.Prelude.{◌≡◌};
    ghost use Rattle.tc_cli.specs.Staffed.{Staffed};
    ghost use Rattle.tc_cli.specs.Watched.{AreWatchersOf, IsOrdered};
    ghost use Rattle.tc_station.specs.Tally.{IsOurs, KnowsDesks};

    ghost Value = { Staffed };

    ghost view = { λ o. record { station = o.station; operator = o.operator; watchers = o.watchers.items } };

    ghost invariant = { λ o. IsOurs o.station o.operator × (o.station.issued ≡ 1) × KnowsDesks o.station o.operator × IsOrdered o.station
        × (o.vcids.items ≡ o.station.vcids) × AreWatchersOf o.station o.watchers.items };
}

impl StaffedStation {
    /// Creates a staffed station from a station that has issued no operator yet. `vcids` are the ids of all channels of
    /// the station. The call issues the first operator, and creates a watcher of each channel.
    pub(crate) fn new(
        rt: &impl Wait,
        alloc: Global,
        mut station: CountingStation,
        vcids: Vec<u8>,
    ) -> Result<StaffedStation, Reason>
        requires new { station.issued ≡ 0 }
        requires all { vcids.items ≡ station.vcids }
        requires ordered { IsOrdered station }
        ensures staffed { IfOk result (IsNewlyStaffed station.scid (settings_in station)) }
        ensures reason { IfErr result (λ reason. reason ≡ Reason.NoMemory) }
    {
        let operator = only_operator(&mut station)?;
        let watchers = watch_each(rt, alloc, &station, &vcids)?;
        Ok(StaffedStation {
            station,
            operator,
            vcids,
            watchers,
        })
    }

    /// Returns the station and its operator separately.
    pub(crate) fn into_parts(self) -> (CountingStation, Operator)
        ensures station { result.0 ≡ self.station }
        ensures operator { result.1 ≡ self.operator }
        ensures ours { IsOurs result.0 result.1 }
    {
        let StaffedStation {
            station,
            operator,
            vcids: _,
            watchers: _,
        } = self;
        (station, operator)
    }

    /// Lets each watcher meet its channel, one after the other.
    pub(crate) fn meet_all(&mut self, rt: &impl Wait)
        ensures { AllHaveMet self.old self.new }
    {
        for place in 0..self.watchers.len() {
            self.meet_at(rt, place);
        }
    }

    // Lets the watcher at this place meet its channel.
    fn meet_at(&mut self, rt: &impl Wait, place: usize)
        requires { place < length self.old.watchers }
        ensures met { HasMetAt place self.old self.new }
        ensures as_many { length self.new.watchers ≡ length self.old.watchers }
    {
        let vcid = self.vcids[place];
        let watcher = &mut self.watchers[place];
        self.station.meet(rt, &mut self.operator, watcher, vcid);
    }

    // Carries out the operation on the channel at `place`, whose id is `vcid`. The channel's watcher meets the channel
    // before and after the operation.
    fn operate_met<O: DeskOperation<Unrecorded>>(
        &mut self,
        rt: &impl Wait,
        place: usize,
        vcid: u8,
        operation: &O,
    ) -> Result<O::Answer, O::Fault>
        requires { IsPlace self.old.station vcid place }
        ensures call { IsStaffedCall place vcid (O.event operation.now) (O.answers operation.now) (O.refuses operation.now) self.old result self.new }
        ensures counted { OnErr result (AreAsCounted self.old self.new) }
    {
        let watcher = &mut self.watchers[place];
        let station = &self.station;
        station.operate_met(rt, &mut self.operator, watcher, place, operation)
    }

    /// Brings octets to the channel that their frame names. The answer is a refusal if there is no such frame or
    /// channel.
    pub(crate) fn bring(&mut self, rt: &impl Wait, octets: &[u8]) -> Result<Answer, Reason>
        ensures answer { IfOk result (λ answer. IsBringAnswer octets.now self.old answer self.new) }
        ensures reason { IfErr result (λ reason. reason ≡ Reason.NoMemory) }
        ensures counted { OnErr result (AreAsCounted self.old self.new) }
    {
        let (place, Located { vcid, frame }) = match self.station.place_frame(octets) {
            Ok(placed) => placed,
            Err(fault) => return Ok(Answer::Refused(Refusal::Unlocated(fault))),
        };
        match self.operate_met(rt, place, vcid, &Framing { frame: &frame }) {
            Ok(reply) => Ok(Answer::Frame { vcid, reply }),
            Err(NoMemory) => Err(Reason::NoMemory),
        }
    }

    /// Releases the oldest data field of a channel's buffer.
    pub(crate) fn release(&mut self, rt: &impl Wait, vcid: u8) -> Result<Answer, Reason>
        ensures answer { IfOk result (λ answer. IsDeskAnswer vcid IsReleaseAnswered self.old answer self.new) }
        ensures reason { IfErr result (λ reason. reason ≡ Reason.NoMemory) }
        ensures counted { OnErr result (AreAsCounted self.old self.new) }
    {
        let Some(place) = self.station.place_of(vcid) else {
            return Ok(Answer::Refused(Refusal::UnknownChannel));
        };
        match self.operate_met(rt, place, vcid, &Release) {
            Ok(delivery) => Ok(Answer::Release { vcid, delivery }),
            Err(ReleaseFault::Empty) => Ok(Answer::Refused(Refusal::Empty)),
            Err(ReleaseFault::NoMemory) => Err(Reason::NoMemory),
        }
    }

    /// Takes the oldest packet of a channel's queue.
    pub(crate) fn take(&mut self, rt: &impl Wait, vcid: u8, apid: u16) -> Result<Answer, Reason>
        ensures answer { IfOk result (λ answer. IsDeskAnswer vcid (IsTakeAnswered apid) self.old answer self.new) }
        ensures reason { IfErr result (λ reason. reason ≡ Reason.NoMemory) }
        ensures counted { OnErr result (AreAsCounted self.old self.new) }
    {
        let Some(place) = self.station.place_of(vcid) else {
            return Ok(Answer::Refused(Refusal::UnknownChannel));
        };
        match self.operate_met(rt, place, vcid, &Taking { apid }) {
            Ok(packet) => Ok(Answer::Take {
                vcid,
                apid,
                packet: Octets::from(packet),
            }),
            Err(TakeFault::NoQueue) => Ok(Answer::Refused(Refusal::NoQueue)),
            Err(TakeFault::Empty) => Ok(Answer::Refused(Refusal::Empty)),
            Err(TakeFault::NoMemory) => Err(Reason::NoMemory),
        }
    }

    /// Takes the oldest unit of a channel's chosen MAP.
    pub(crate) fn unit(&mut self, rt: &impl Wait, vcid: u8, map: u8) -> Result<Answer, Reason>
        ensures answer { IfOk result (λ answer. IsDeskAnswer vcid (IsUnitAnswered map) self.old answer self.new) }
        ensures reason { IfErr result (λ reason. reason ≡ Reason.NoMemory) }
        ensures counted { OnErr result (AreAsCounted self.old self.new) }
    {
        let Some(place) = self.station.place_of(vcid) else {
            return Ok(Answer::Refused(Refusal::UnknownChannel));
        };
        match self.operate_met(rt, place, vcid, &UnitTaking { map }) {
            Ok(unit) => Ok(Answer::Unit {
                vcid,
                map,
                unit: Octets::from(unit),
            }),
            Err(TakeUnitFault::NoMap) => Ok(Answer::Refused(Refusal::NoMap)),
            Err(TakeUnitFault::Empty) => Ok(Answer::Refused(Refusal::Empty)),
            Err(TakeUnitFault::NoMemory) => Err(Reason::NoMemory),
        }
    }

    /// Reports a channel's CLCW, through the channel's watcher and without the channel's lock.
    pub(crate) fn clcw(&mut self, vcid: u8) -> Answer
        ensures answer { IsWordAnswer vcid self.old result self.new }
    {
        let Some(place) = self.station.place_of(vcid) else {
            return Answer::Refused(Refusal::UnknownChannel);
        };
        let watcher = &mut self.watchers[place];
        let word = self.station.watch(watcher, NO_FLAGS);
        Answer::Clcw { vcid, word }
    }
}

// Issues the first operator of a station.
fn only_operator(station: &mut CountingStation) -> Result<Operator, Reason>
    requires { station.old.issued ≡ 0 }
    ensures new { IfOk result HasMadeNothing }
    ensures knows { IfOk result (KnowsDesks station.new) }
    ensures ours { IfOk result (IsOurs station.new) }
    ensures issued { OnOk result (station.new ≡ record station.old { issued = 1 }) }
    ensures reason { IfErr result (λ reason. reason ≡ Reason.NoMemory) }
{
    match station.operators(1) {
        Ok(mut operators) => match operators.pop() {
            Some(operator) => Ok(operator),
            None => unreachable!(),
        },
        Err(OperatorsFault::NoMemory) => Err(Reason::NoMemory),
        Err(OperatorsFault::TooMany) => unreachable!(),
    }
}
