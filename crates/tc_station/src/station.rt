//! The station of a spacecraft, with a lock for each virtual channel.

ghost use Rattle.std.specs.Prelude.{◌≡◌, ◌≤◌, ◌<◌, ◌+◌, ◌↔◌, ℕ, [], false, All, Any, Contains, IsTrue, length, map, replicate, vec_len, vec_capacity, IfOk, IfErr, IsErrOf, OnOk, OnErr, MatchOption, MatchResult};
ghost use Rattle.tc_queues.specs.Settings.{IsAllowed};
ghost use Rattle.tc_channel.specs.Run.{IsLawful};
ghost use Rattle.tc_channel.specs.Reply.{BeginsWithBypassData, clcw};
ghost use Rattle.tc_status.specs.Board.{IsEarlier};
ghost use Rattle.tc_desk.specs.Call as at_desk;
ghost use Rattle.tc_desk.specs.Together.{settings_of_desks};
ghost use Rattle.tc_station.specs.Roster.{IsDeskOf, IsPlace, settings_in};
ghost use Rattle.tc_station.specs.Room.{IsRoomFor};
ghost use Rattle.tc_station.specs.Tally.{HasGoneOnAtEach, HasMadeNothing, KnowsDesks, KnowsTheSame, IsOurs, tallied, fresh, issued_more, newcomer_at_desks, tally};
ghost use Rattle.tc_station.specs.Call.{IsBringCall, IsCallOn, IsCounted, IsMetAt, IsMetCallAt, IsNotBrought, IsNotBroughtWatched, IsNotReleased, IsNotTaken, IsReplied, IsRepliedWatched, IsUnitNotTaken};
ghost use Rattle.tc_station.specs.Balance.{AreInBalance};
ghost use Rattle.tc_channel.specs.Journal.{IsNumberReported};
ghost use Rattle.tc_station.specs.StationSettings.{vcids_of, HaveDistinctVcids, IsFirstDouble, IsFirstRefused, AreStationSettings, IsStationFault};

use crate::closing::{are_in_balance, are_in_reported_balance};
use crate::faults::{
    BringFault, CloseFault, CountingCloseFault, OperatorsFault, ReleaseRefused, StationFault,
    TakeRefused, TakeUnitRefused, WatcherFault,
};
use crate::guest::Passing;
use crate::operator::{Operator, Room};
use crate::vcids::Vcids;
use crate::work::Gate;
use std::alloc::{AllocError, Global};
use std::marker::Model;
use std::sync::Wait;
use tc_channel::{
    Channel, ChannelWith, CountingChannel, Delivery, Event, FrameReply, Journal, NoMemory,
    Recorded, Settings, SettingsFault, Unrecorded, each_clcw_fits_its_word,
};
use tc_desk::{
    Framing, LeftOpen, Operation, OwnedDesk, Question, Refusal, Release, Taking, UnitTaking,
    WatchedFraming, Watching, close_together, take_out_together,
};
use tc_link::{Frame, Link, LocateFault, read_frame};
use tc_status::{Watcher, the_flags_of_the_link_have_their_own_bits};

/// A frame for a channel of the station.
#[derive(Debug, Drop)]
pub struct Located<'a> {
    /// The virtual channel id that the frame names.
    pub vcid: u8,
    /// The frame, without fill.
    pub frame: Frame<'a>,
}

/// The result of bringing octets to a channel.
#[derive(Clone, Copy, Debug, PartialEq, Eq)]
pub struct Brought {
    /// The virtual channel id that the frame names.
    pub vcid: u8,
    pub reply: FrameReply,
}

/// The virtual channels of one spacecraft, each behind a lock of its own. Nothing else is on the cache lines of a lock.
#[derive(Drop)]
pub struct StationOf<J: Journal> {
    alloc: Global,
    scid: u16,
    vcids: Vcids,
    issued: u16,
    desks: Vec<OwnedDesk<J>>,
}

/// A station whose channels keep their journals in memory, and return them when it is closed.
pub type Station = StationOf<Recorded>;

/// A station whose channels' journals take no memory, for flight software and long simulations. Its calls are those of
/// [`Station`], with the same proofs, except for `close`, which compares the numbers of events.
pub type CountingStation = StationOf<Unrecorded>;

/// A station that couldn't be closed together with its operators, these operators, and the reason. Work can go on with
/// them.
#[derive(Drop)]
pub struct StillOpen<J: Journal> {
    pub station: StationOf<J>,
    pub operators: Vec<Operator>,
    pub refusal: Refusal,
}

impl<J: Journal> Model for StationOf<J> {
    ghost use Rattle.std.specs.Prelude.{◌≡◌, length, vec_len};
    ghost use Rattle.tc_desk.specs.Together.{locks_of, heads_of, settings_of_desks};
    ghost use Rattle.tc_station.specs.Roster.{Roster, HaveIssued};
    ghost use Rattle.tc_station.specs.StationSettings.{vcids_of};

    ghost Value = { Roster };

    ghost view = { λ s. record {
      scid = s.scid;
      vcids = s.vcids;
      issued = s.issued;
      locks = locks_of s.desks.items;
      heads = heads_of s.desks.items;
    } };

    ghost invariant = { λ s. (vec_len s.desks ≡ length s.vcids) × (vcids_of (settings_of_desks s.desks.items) ≡ s.vcids)
        × HaveIssued s.issued s.desks.items };
}

impl<J: Journal> StationOf<J> {
    ghost use Rattle.tc_station.specs.Location.{IsLocated, IsPlaced, IsLocateFault, IsBringFault};
    ghost use Rattle.tc_station.specs.Moments.{AtSomeMomentOf, IsBrought, IsBroughtWatched, IsReleasedAtStation, IsTakenAtStation, IsUnitTakenAtStation, IsWatched, IsWatcherAt, IsWatcherOf};
    ghost use Rattle.tc_station.specs.Faults.{IsReleaseRefused, IsTakeRefused, IsTakeUnitRefused, IsWatcherFault};
    ghost use Rattle.tc_station.specs.Together.{AreClosedTogether, IsNotClosedTogether, IsCauseAtStation};
    ghost use Rattle.tc_desk.specs.Log.{Moment};
    ghost use Rattle.tc_desk.specs.Call.{IsMoment};

    /// Creates a station with a new channel for each of the settings. The call allocates two lists, and the memory of
    /// each channel, its board and its lock. If the call fails, the settings are dropped.
    pub fn new(alloc: Global, scid: u16, list: Vec<Settings>) -> Result<StationOf<J>, StationFault>
        ensures made { IfOk result (λ station. (station.scid ≡ scid) × (station.vcids ≡ vcids_of list.items) × (station.issued ≡ 0)) }
        ensures settings { IfOk result (λ station. settings_in station ≡ list.items) }
        ensures fault { MatchResult result (λ _. AreStationSettings scid list.items) (IsStationFault scid list.items) }
    {
        check(scid, &list)?;
        let Ok(station) = start(alloc, scid, list) else {
            return Err(StationFault::NoMemory);
        };
        Ok(station)
    }

    /// Returns the frame at the front of the octets, and the id of the channel that the frame is for. If the octets are
    /// for no channel of the station, the call returns the reason. It takes no lock.
    pub fn locate<'a>(&self, octets: &'a [u8]) -> Result<Located<'a>, LocateFault>
        ensures { MatchResult result (λ located. IsLocated self.now octets.now located.vcid located.frame) (IsLocateFault self.now octets.now) }
    {
        let (_, located) = self.place_frame(octets)?;
        Ok(located)
    }

    /// Returns the result of [`locate`](StationOf::locate), with the place of the channel in the list of the station's
    /// channels.
    pub fn place_frame<'a>(&self, octets: &'a [u8]) -> Result<(usize, Located<'a>), LocateFault>
        ensures { MatchResult result (λ placed. IsPlaced self.now octets.now placed.0 placed.1.vcid placed.1.frame)
            (IsLocateFault self.now octets.now) }
    {
        let frame = read_frame(octets).map_err(LocateFault::Frame)?;
        let header = frame.header();
        if header.scid != self.scid {
            return Err(LocateFault::OtherSpacecraft);
        }
        let vcid = header.vcid;
        let Some(place) = self.vcids.place_of(vcid) else {
            return Err(LocateFault::UnknownChannel);
        };
        Ok((place, Located { vcid, frame }))
    }

    /// Returns the place of the channel with this id in the list of the station's channels, or `None` if the station
    /// has no such channel.
    pub fn place_of(&self, vcid: u8) -> Option<usize>
        ensures { MatchOption result (¬ Contains self.now.vcids vcid) (IsPlace self.now vcid) }
    {
        self.vcids.place_of(vcid)
    }

    /// Issues `n` operators. A station can issue at most 65,535 operators in its life. The call allocates two lists
    /// with room for `n` entries each, and for each operator a list of ids and a list of operators at the desks. All
    /// memory is allocated before the first operator is issued.
    pub fn operators(&mut self, n: u16) -> Result<Vec<Operator>, OperatorsFault>
        ensures fresh { IfOk result (λ operators. map tally operators.items ≡ replicate n (fresh self.old.vcids)) }
        ensures new { IfOk result (λ operators. All HasMadeNothing operators.items) }
        ensures ours { IfOk result (λ operators. All (IsOurs self.new) operators.items) }
        ensures heads { IfOk result (λ operators. All (KnowsDesks self.new) operators.items) }
        ensures issued { OnOk result (self.new ≡ record self.old { issued = self.old.issued + n }) }
        ensures many { IsErrOf result OperatorsFault.TooMany ↔ (65535 < self.old.issued + n) }
        ensures refused { OnErr result (self.new ≡ self.old) }
    {
        let Some(issued) = self.issued.checked_add(n) else {
            return Err(OperatorsFault::TooMany);
        };
        let Ok(operators) = issue(self.alloc, self.vcids.as_slice(), &mut self.desks, n) else {
            return Err(OperatorsFault::NoMemory);
        };
        self.issued = issued;
        Ok(operators)
    }

    /// Brings the frame at the front of the octets to its channel, under the channel's lock. This call, `release`,
    /// `take` and `take_unit` allocate only the memory that the channel's own call allocates. On a counting station,
    /// this call can run out of memory only for a Type-BD frame, and `take` and `take_unit` never run out of memory.
    pub fn bring(
        &self,
        rt: &impl Wait,
        operator: &mut Operator,
        octets: &[u8],
    ) -> Result<Brought, BringFault>
        requires ours { IsOurs self.now operator.old }
        ensures answer { MatchResult result (λ brought. IsBrought self.now octets.now brought.vcid brought.reply) (IsBringFault self.now octets.now) }
        ensures call { IsBringCall self.now octets.now IsReplied (IsNotBrought J.grows) operator.old result operator.new }
        ensures counted { IfOk result (λ brought. tally operator.new ≡ tallied brought.vcid (tally operator.old)) }
        ensures refused { OnErr result (tally operator.new ≡ tally operator.old) }
        ensures ours { IsOurs self.now operator.new }
        ensures knows { KnowsTheSame operator.old operator.new }
        ensures later { HasGoneOnAtEach operator.old operator.new }
        ensures answered { J.grows ≡ false → IsErrOf result BringFault.NoMemory → BeginsWithBypassData octets.now }
    {
        let (place, Located { vcid, frame }) = self
            .place_frame(octets)
            .map_err(BringFault::Locate)?;
        let framing = Framing { frame: &frame };
        let Ok(reply) = self.operate(rt, operator, place, vcid, &framing) else {
            return Err(BringFault::NoMemory);
        };
        Ok(Brought { vcid, reply })
    }

    /// Releases the oldest data field from a channel's buffer, under the channel's lock.
    pub fn release(
        &self,
        rt: &impl Wait,
        operator: &mut Operator,
        vcid: u8,
    ) -> Result<Delivery, ReleaseRefused>
        requires ours { IsOurs self.now operator.old }
        ensures answer { MatchResult result (IsReleasedAtStation self.now vcid) (IsReleaseRefused self.now vcid) }
        ensures call { IsCallOn self.now vcid Event.Release at_desk.IsReleased IsNotReleased ReleaseRefused.UnknownChannel operator.old result operator.new }
        ensures counted { OnOk result (tally operator.new ≡ tallied vcid (tally operator.old)) }
        ensures refused { OnErr result (tally operator.new ≡ tally operator.old) }
        ensures ours { IsOurs self.now operator.new }
        ensures knows { KnowsTheSame operator.old operator.new }
        ensures later { HasGoneOnAtEach operator.old operator.new }
    {
        let Some(place) = self.vcids.place_of(vcid) else {
            return Err(ReleaseRefused::UnknownChannel);
        };
        let delivery = self.operate(rt, operator, place, vcid, &Release)?;
        Ok(delivery)
    }

    /// Takes the oldest packet of a channel's queue with this APID, under the channel's lock.
    pub fn take(
        &self,
        rt: &impl Wait,
        operator: &mut Operator,
        vcid: u8,
        apid: u16,
    ) -> Result<Vec<u8>, TakeRefused>
        requires ours { IsOurs self.now operator.old }
        ensures answer { MatchResult result (λ packet. IsTakenAtStation self.now vcid apid packet.items) (IsTakeRefused self.now vcid apid) }
        ensures call { IsCallOn self.now vcid (Event.Take apid) (λ m packet. at_desk.IsOldestPacket apid m packet.items)
            (IsNotTaken J.grows apid) TakeRefused.UnknownChannel operator.old result operator.new }
        ensures counted { OnOk result (tally operator.new ≡ tallied vcid (tally operator.old)) }
        ensures refused { OnErr result (tally operator.new ≡ tally operator.old) }
        ensures ours { IsOurs self.now operator.new }
        ensures knows { KnowsTheSame operator.old operator.new }
        ensures later { HasGoneOnAtEach operator.old operator.new }
        ensures answered { J.grows ≡ false → IsErrOf result TakeRefused.NoMemory → ⊥ }
    {
        let Some(place) = self.vcids.place_of(vcid) else {
            return Err(TakeRefused::UnknownChannel);
        };
        let packet = self.operate(rt, operator, place, vcid, &Taking { apid })?;
        Ok(packet)
    }

    /// Takes the oldest unit of a channel's chosen MAP, under the channel's lock.
    pub fn take_unit(
        &self,
        rt: &impl Wait,
        operator: &mut Operator,
        vcid: u8,
        map: u8,
    ) -> Result<Vec<u8>, TakeUnitRefused>
        requires ours { IsOurs self.now operator.old }
        ensures answer { MatchResult result (λ unit. IsUnitTakenAtStation self.now vcid map unit.items) (IsTakeUnitRefused self.now vcid map) }
        ensures call { IsCallOn self.now vcid (Event.TakeUnit map) (λ m unit. at_desk.IsOldestUnit map m unit.items)
            (IsUnitNotTaken J.grows map) TakeUnitRefused.UnknownChannel operator.old result operator.new }
        ensures counted { OnOk result (tally operator.new ≡ tallied vcid (tally operator.old)) }
        ensures refused { OnErr result (tally operator.new ≡ tally operator.old) }
        ensures ours { IsOurs self.now operator.new }
        ensures knows { KnowsTheSame operator.old operator.new }
        ensures later { HasGoneOnAtEach operator.old operator.new }
        ensures answered { J.grows ≡ false → IsErrOf result TakeUnitRefused.NoMemory → ⊥ }
    {
        let Some(place) = self.vcids.place_of(vcid) else {
            return Err(TakeUnitRefused::UnknownChannel);
        };
        let unit = self.operate(rt, operator, place, vcid, &UnitTaking { map })?;
        Ok(unit)
    }

    /// Creates a watcher of a channel's status word, under the channel's lock. `NoMemory` is returned only if the board
    /// of the word can count no more owners.
    pub fn watcher(&self, rt: &impl Wait, vcid: u8) -> Result<Watcher, WatcherFault>
        ensures answer { MatchResult result (λ watcher. IsWatched self.now vcid watcher.seen) (IsWatcherFault self.now vcid) }
        ensures desk { IfOk result (IsWatcherOf self.now vcid) }
    {
        let Some(place) = self.vcids.place_of(vcid) else {
            return Err(WatcherFault::UnknownChannel);
        };
        let Ok(watcher) = self.ask(rt, place, vcid, &Watching) else {
            return Err(WatcherFault::NoMemory);
        };
        Ok(watcher)
    }

    /// Returns the CLCW of the watcher's channel at some moment, with these link flags. The call takes one load and no
    /// lock, and waits for no other thread.
    ///
    /// The moment is no earlier than the last one that the watcher had seen.
    pub fn watch(&self, watcher: &mut Watcher, link: Link) -> u32
        ensures board { watcher.new.board ≡ watcher.old.board }
        ensures watcher { (vcid : ℕ) → IsWatcherOf self.now vcid watcher.old → IsWatcherOf self.now vcid watcher.new }
        ensures later { IsEarlier watcher.old.seen watcher.new.seen }
        ensures word { result ≡ clcw watcher.new.seen.settings watcher.new.seen.journal link }
        ensures allowed { IsAllowed watcher.new.seen.settings }
        ensures lawful { IsLawful watcher.new.seen.settings watcher.new.seen.journal }
    {
        each_clcw_fits_its_word();
        the_flags_of_the_link_have_their_own_bits();
        watcher.read() + u32::from(link.no_rf) * (1 << 15) + u32::from(link.no_bit_lock) * (1 << 14)
    }

    /// Brings the frame at the front of the octets to its channel, and creates a watcher of the channel, under one hold
    /// of the channel's lock. The watcher has seen the channel process the frame, so each of its reads shows that
    /// moment or a later one.
    pub fn bring_watched(
        &self,
        rt: &impl Wait,
        operator: &mut Operator,
        octets: &[u8],
    ) -> Result<(Brought, Watcher), BringFault>
        requires ours { IsOurs self.now operator.old }
        ensures answer { MatchResult result (λ answer. IsBroughtWatched self.now octets.now answer.0.vcid answer.0.reply answer.1.seen) (IsBringFault self.now octets.now) }
        ensures call { IsBringCall self.now octets.now IsRepliedWatched IsNotBroughtWatched operator.old result operator.new }
        ensures desk { KnowsDesks self.now operator.old → IfOk result (λ answer. IsWatcherOf self.now answer.0.vcid answer.1) }
        ensures counted { IfOk result (λ answer. tally operator.new ≡ tallied answer.0.vcid (tally operator.old)) }
        ensures refused { OnErr result (tally operator.new ≡ tally operator.old) }
        ensures ours { IsOurs self.now operator.new }
        ensures knows { KnowsTheSame operator.old operator.new }
        ensures later { HasGoneOnAtEach operator.old operator.new }
    {
        let (place, Located { vcid, frame }) = self
            .place_frame(octets)
            .map_err(BringFault::Locate)?;
        let framing = WatchedFraming { frame: &frame };
        let Ok((reply, watcher)) = self.operate(rt, operator, place, vcid, &framing) else {
            return Err(BringFault::NoMemory);
        };
        Ok((Brought { vcid, reply }, watcher))
    }

    /// Runs the operation on the channel at `place`. The watcher meets the channel before and after the operation,
    /// under one hold of the channel's lock. The history that the watcher had seen is a beginning of the journal before
    /// the operation. Afterwards the watcher has seen all that the operator has seen of the channel.
    pub fn operate_met<O: Operation<J>, R: Wait>(
        &self,
        rt: &R,
        operator: &mut Operator,
        watcher: &mut Watcher,
        place: usize,
        operation: &O,
    ) -> Result<O::Answer, O::Fault>
        requires ours { IsOurs self.now operator.old }
        requires knows { KnowsDesks self.now operator.old }
        requires watcher { IsWatcherAt self.now place watcher.old }
        ensures call { (vcid : ℕ) → IsPlace self.now vcid place
            → IsMetCallAt place vcid (O.event operation.now) (O.answers operation.now)
            (O.refuses operation.now) watcher.old operator.old result watcher.new operator.new }
        ensures counted { (vcid : ℕ) → IsPlace self.now vcid place → OnOk result (tally operator.new ≡ tallied vcid (tally operator.old)) }
        ensures refused { OnErr result (tally operator.new ≡ tally operator.old) }
        ensures ours { IsOurs self.now operator.new }
        ensures knows { KnowsDesks self.now operator.new }
        ensures later { HasGoneOnAtEach operator.old operator.new }
        ensures watcher { IsWatcherAt self.now place watcher.new }
    {
        let owned_desk = &self.desks[place];
        operator.desks[place].operate_met(owned_desk.desk(), rt, watcher, operation)
    }

    /// Lets the watcher meet its channel, under the channel's lock. The history that the watcher had seen is a
    /// beginning of the journal at that moment. Afterwards the watcher has seen all that the operator has seen of the
    /// channel.
    pub fn meet<R: Wait>(&self, rt: &R, operator: &mut Operator, watcher: &mut Watcher, vcid: u8)
        requires ours { IsOurs self.now operator.old }
        requires knows { KnowsDesks self.now operator.old }
        requires watcher { IsWatcherOf self.now vcid watcher.old }
        ensures met { (place : ℕ) × IsPlace self.now vcid place × IsMetAt place vcid watcher.old operator.old watcher.new operator.new }
        ensures same { tally operator.new ≡ tally operator.old }
        ensures ours { IsOurs self.now operator.new }
        ensures knows { KnowsDesks self.now operator.new }
        ensures later { HasGoneOnAtEach operator.old operator.new }
        ensures watcher { IsWatcherOf self.now vcid watcher.new }
    {
        let Some(place) = self.vcids.place_of(vcid) else {
            unreachable!()
        };
        let owned_desk = &self.desks[place];
        operator.desks[place].meet(owned_desk.desk(), rt, watcher);
    }

    // Runs the operation at the desk at `place`, whose channel has the id `vcid`, on behalf of the operator.
    fn operate<O: Operation<J>, R: Wait>(
        &self,
        rt: &R,
        operator: &mut Operator,
        place: usize,
        vcid: u8,
        operation: &O,
    ) -> Result<O::Answer, O::Fault>
        requires ours { IsOurs self.now operator.old }
        requires place { IsPlace self.now vcid place }
        ensures { IsCounted self.now place vcid (O.event operation.now) (O.answers operation.now)
            (O.refuses operation.now) operator.old result operator.new }
    {
        let desk = self.desks[place].desk();
        operator.desks[place].operate(desk, rt, operation)
    }

    // Returns the answer to a question about the channel at `place`, whose id is `vcid`. No operator is needed.
    fn ask<Q: Question<J>, R: Wait>(
        &self,
        rt: &R,
        place: usize,
        vcid: u8,
        question: &Q,
    ) -> Q::Answer
        requires place { IsPlace self.now vcid place }
        ensures { (now : Moment) × IsMoment now × (now.head.settings.vcid ≡ vcid) × IsDeskOf self.now vcid now.head
            × Q.answers question.now now result }
    {
        self.desks[place].desk().ask_as_guest(rt, question)
    }

    /// Passes the gate once. If the station has a channel with this id, its lock is held meanwhile.
    pub(crate) fn pass<G: Gate, R: Wait>(&self, rt: &R, gate: &G, vcid: u8) {
        match self.vcids.place_of(vcid) {
            None => gate.pass(vcid),
            Some(place) => self.desks[place]
                .desk()
                .ask_as_guest(rt, &Passing { gate, vcid }),
        }
    }

    // Takes the channels out of their locks, and returns them with their ids. Returns the whole station if memory runs
    // out for the lists, or if a lock isn't free.
    fn into_channels(self) -> Result<(Vec<u8>, Vec<ChannelWith<J>>), StationOf<J>>
        ensures vcids { IfOk result (λ parts. parts.0.items ≡ self.vcids) }
        ensures channels { IfOk result (λ parts. vec_len parts.1 ≡ length self.vcids) }
        ensures refused { IfErr result (λ station. station ≡ self) }
    {
        let StationOf {
            alloc,
            scid,
            vcids,
            issued,
            desks,
        } = self;
        match take_out_together(alloc, desks) {
            Ok(channels) => Ok((vcids.into_vec(), channels)),
            Err((desks, _)) => Err(StationOf {
                alloc,
                scid,
                vcids,
                issued,
                desks,
            }),
        }
    }

    /// Closes the station, and takes the channels out of their locks, if `operators` have made all events of the
    /// channels' journals. This condition holds if all operators that the station issued are given, and if together
    /// they have made fewer than 2^64 - 1 events of each channel. The journal of each channel is then a merge of the
    /// events that the operators made. The history that each operator had seen is a beginning of this journal.
    /// Otherwise, or if memory runs out for the two lists that are allocated before any lock is taken, the call returns
    /// the station and the operators with the reason. The law
    /// [`what_calls_answered_stands_in_the_closed_journals`](crate::what_calls_answered_stands_in_the_closed_journals)
    /// states the consequences for each call.
    pub fn close_together(
        self,
        operators: Vec<Operator>,
    ) -> Result<Vec<ChannelWith<J>>, StillOpen<J>>
        requires ours { All (IsOurs self) operators.items }
        ensures closed { IfOk result (λ channels. AreClosedTogether self operators.items channels.items) }
        ensures channels { IfOk result (λ channels. map (λ c. c.settings) channels.items ≡ settings_in self) }
        ensures kept { IfErr result (λ left. (left.station ≡ self) × (left.operators.items ≡ operators.items)) }
        ensures refusal { IfErr result (λ left. IsNotClosedTogether self operators.items left.refusal) }
        ensures cause { IfErr result (λ left. left.refusal ≡ Refusal.Unbalanced → IsCauseAtStation self operators.items) }
    {
        let StationOf {
            alloc,
            scid,
            vcids,
            issued,
            desks,
        } = self;
        match close_together(alloc, desks, operators) {
            Ok(channels) => Ok(channels),
            Err(left) => {
                let refusal = left.refusal;
                let LeftOpen {
                    owned_desks,
                    operator_lists,
                    ..
                } = left;
                let station = StationOf {
                    alloc,
                    scid,
                    vcids,
                    issued,
                    desks: owned_desks,
                };
                Err(StillOpen {
                    station,
                    operators: operator_lists,
                    refusal,
                })
            }
        }
    }
}

impl StationOf<Recorded> {
    ghost use Rattle.tc_station.specs.Faults.{IsCloseFault};

    /// Closes the station, takes the channels out of their locks, and compares their journals with the operators'
    /// counts. Two lists are allocated before any lock is taken. Any operators with counts for these channels may be
    /// given, including those of another station. For this station's own operators, [`StationOf::close_together`]
    /// promises more. A lock that isn't free would be reported as [`CloseFault::NoMemory`], but no lock of a station
    /// can be held when its owner calls this.
    pub fn close(self, operators: Vec<Operator>) -> Result<Vec<Channel>, CloseFault>
        requires ours { All (λ o. o.vcids ≡ self.vcids) operators.items }
        ensures all { IfOk result (λ _. self.issued ≤ vec_len operators) }
        ensures balanced { IfOk result (λ channels. AreInBalance self.vcids operators.items channels.items) }
        ensures channels { IfOk result (λ channels. map (λ c. c.settings.vcid) channels.items ≡ self.vcids) }
        ensures fault { IfErr result (IsCloseFault self operators.items) }
    {
        if operators.len() < usize::from(self.issued) {
            return Err(CloseFault::Missing(self, operators));
        }
        match self.into_channels() {
            Err(station) => Err(CloseFault::NoMemory(station, operators)),
            Ok((vcids, channels)) => {
                if are_in_balance(&vcids, &operators, &channels) {
                    Ok(channels)
                } else {
                    Err(CloseFault::Unbalanced(channels, operators))
                }
            }
        }
    }
}

impl StationOf<Unrecorded> {
    ghost use Rattle.tc_station.specs.Faults.{IsCountingCloseFault};

    /// Closes the station, takes the channels out of their locks, and compares the numbers of their events with the
    /// operators' counts. The number 2^64 - 1 stands for that many events or more, so it is never in balance. In all
    /// other respects this call is like the close of a [`Station`].
    pub fn close(self, operators: Vec<Operator>) -> Result<Vec<CountingChannel>, CountingCloseFault>
        requires ours { All (λ o. o.vcids ≡ self.vcids) operators.items }
        ensures all { IfOk result (λ _. self.issued ≤ vec_len operators) }
        ensures balanced { IfOk result (λ channels. AreInBalance self.vcids operators.items channels.items) }
        ensures reported { IfOk result (λ channels. All IsNumberReported channels.items) }
        ensures channels { IfOk result (λ channels. map (λ c. c.settings.vcid) channels.items ≡ self.vcids) }
        ensures fault { IfErr result (IsCountingCloseFault self operators.items) }
    {
        if operators.len() < usize::from(self.issued) {
            return Err(CountingCloseFault::Missing(self, operators));
        }
        match self.into_channels() {
            Err(station) => Err(CountingCloseFault::NoMemory(station, operators)),
            Ok((vcids, channels)) => {
                if are_in_reported_balance(&vcids, &operators, &channels) {
                    Ok(channels)
                } else {
                    Err(CountingCloseFault::Unbalanced(channels, operators))
                }
            }
        }
    }
}

// Returns whether one of the settings has this id.
fn has_vcid(list: &[Settings], vcid: u8) -> bool
    ensures { IsTrue result ↔ Any (λ s. s.vcid ≡ vcid) list.now }
{
    list.iter().any(|settings| settings.vcid == vcid)
}

// Returns the first virtual channel id that also occurs earlier in the list, or `None` if all ids are distinct.
fn double_vcid(list: &[Settings]) -> Option<u8>
    ensures { MatchOption result (HaveDistinctVcids list.now) (IsFirstDouble list.now) }
{
    for (i, settings) in list.iter().enumerate() {
        if has_vcid(&list[..i], settings.vcid) {
            return Some(settings.vcid);
        }
    }
    None
}

// Checks that a channel can have each of the settings. If not, returns the id and the fault of the first settings that
// no channel can have.
fn check_each(list: &[Settings]) -> Result<(), (u8, SettingsFault)>
    ensures { MatchResult result (λ _. All IsAllowed list.now) (λ fault. IsFirstRefused list.now fault.0 fault.1) }
{
    for settings in list {
        if let Err(fault) = settings.check() {
            return Err((settings.vcid, fault));
        }
    }
    Ok(())
}

// Checks whether a station can be created with these settings.
fn check(scid: u16, list: &[Settings]) -> Result<(), StationFault>
    ensures { MatchResult result (λ _. AreStationSettings scid list.now) (IsStationFault scid list.now) }
{
    if scid > 1023 {
        return Err(StationFault::BadScid);
    }
    if list.is_empty() {
        return Err(StationFault::NoChannel);
    }
    if let Some(vcid) = double_vcid(list) {
        return Err(StationFault::DoubleVcid(vcid));
    }
    match check_each(list) {
        Ok(()) => Ok(()),
        Err((vcid, fault)) => Err(StationFault::Settings(vcid, fault)),
    }
}

// Creates a station from settings that were checked.
fn start<J: Journal>(
    alloc: Global,
    scid: u16,
    list: Vec<Settings>,
) -> Result<StationOf<J>, NoMemory>
    requires { AreStationSettings scid list.items }
    ensures made { IfOk result (λ station. (station.scid ≡ scid) × (station.vcids ≡ vcids_of list.items) × (station.issued ≡ 0)) }
    ensures settings { IfOk result (λ station. settings_in station ≡ list.items) }
{
    let mut vcids = Vec::with_capacity(alloc, list.len())?;
    let mut desks = Vec::with_capacity(alloc, list.len())?;
    for settings in list {
        vcids.push_reserved(settings.vcid);
        let Ok(owned_desk) = OwnedDesk::new(alloc, settings) else {
            return Err(NoMemory);
        };
        desks.push_reserved(owned_desk);
    }
    Ok(StationOf {
        alloc,
        scid,
        vcids: Vcids::new(vcids),
        issued: 0,
        desks,
    })
}

// Creates room for `n` operators of channels with these ids.
fn rooms(alloc: Global, vcids: &[u8], n: u16) -> Result<Vec<Room>, AllocError>
    ensures many { IfOk result (λ rooms. vec_len rooms ≡ n) }
    ensures each { IfOk result (λ rooms. All (IsRoomFor vcids.now) rooms.items) }
{
    let mut rooms = Vec::with_capacity(alloc, usize::from(n))?;
    for _ in 0..n {
        rooms.push_reserved(Room::new(alloc, vcids)?);
    }
    Ok(rooms)
}

// Issues `n` operators that have made no event, or none if memory runs out.
fn issue<J: Journal>(
    alloc: Global,
    vcids: &[u8],
    owned_desks: &mut [OwnedDesk<J>],
    n: u16,
) -> Result<Vec<Operator>, AllocError>
    requires ids { vcids_of (settings_of_desks owned_desks.old) ≡ vcids.now }
    ensures issued { IfOk result (λ _. owned_desks.new ≡ issued_more n owned_desks.old) }
    ensures refused { IfErr result (λ _. owned_desks.new ≡ owned_desks.old) }
    ensures operators { IfOk result (λ operators. operators.items ≡ replicate n (newcomer_at_desks vcids.now owned_desks.old)) }
{
    let mut rooms = rooms(alloc, vcids, n)?;
    let mut operators = Vec::with_capacity(alloc, usize::from(n))?;
    while let Some(room) = rooms.pop() {
        operators.push_reserved(Operator::new(room, owned_desks));
    }
    Ok(operators)
}
