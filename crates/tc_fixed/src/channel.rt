//! A channel that requests memory when it is created, and never afterwards.

ghost use Rattle.std.specs.Prelude.{◌≡◌, [], ◌<◌, ◌≤◌, ◌+◌, ◌↔◌, ◌++◌, ◌^◌, ◌-◌, length, drop, min, ℕ, IfOk, IfSome, IfNone, OnOk, OnErr, IsErrOf, MatchResult, IsSome, IsTrue, Some, None, option_map, false};
ghost use Rattle.tc_channel.specs.declared.event.Event.TheVariants as Event;
ghost use Rattle.tc_queues.specs.Settings.{IsAllowed, IsRefusal};
ghost use Rattle.tc_channel.specs.Run.{run_within, IsLawfulWithin};
ghost use Rattle.tc_channel.specs.Reply.{IsBypassData, frame_reply_within, release_reply_within, take_reply_within, unit_reply_within, waiting_packets_within, waiting_units_within, buffered_fields_within, clcw_within};
ghost use Rattle.tc_channel.specs.Era.{CountsUpInItsEraWithin};
ghost use Rattle.tc_channel.specs.ChannelCore.{HaveLimits};
ghost use Rattle.tc_queues.specs.Copying.{IsCopiedIn};
ghost use Rattle.tc_channel.specs.Steps.{frame_steps_within, release_steps_within};
ghost use Rattle.tc_queues.specs.Steps.{looks_for};
ghost use Rattle.tc_packet.specs.Reassembly.{run_at};
ghost use Rattle.tc_packet.specs.Store.{open_runs};
ghost use Rattle.tc_fixed.specs.History.{with_limited_event};
ghost use Rattle.tc_fixed.specs.Limits.{AreLimits, LimitsMapsByHeaders, HaveOctets, IsOthers, IsRefusalWithLimits, limit_of, none};
ghost use Rattle.tc_fixed.specs.Taking.{IsOver};

use crate::faults::{NoUnitTaken, NothingReleased, NothingTaken};
use crate::limits::{Limits, LimitsFault};
use crate::noted::Noted;
use crate::past::Past;
use std::alloc::{AllocError, Global};
use std::marker::Model;
use std::snapshot::Snapshot;
use tc_channel::{
    ChannelCore, Delivery, FrameReply, LentEvent, Settings, SettingsFault, Tick, Unrecorded,
};
use tc_link::{Frame, Link, Report, clcw_word};
use tc_packet::{FixedRoom, Runs};

// A counter that counts no steps. The functions under a channel's calls can't name this type, so they can't create a
// counter of their own. They have to count every step with the counter that their caller passes.
#[derive(Drop)]
struct NoSteps;

impl Tick for NoSteps {
    ghost use Rattle.std.specs.Prelude.{false};

    ghost taken = { λ _. 0 };

    ghost counts = { false };

    fn tick(&mut self) {}
}

/// One virtual channel with the parts of a [`ChannelWith`](tc_channel::ChannelWith): FARM-1, the buffer of accepted
/// data fields, reassembly, the packet queues, the unit queues of chosen MAPs, and the journal of all events. It has a
/// room for each data field, packet, unit and open run that it can hold at one time, and only its creation requests
/// memory. So no other call allocates, and none can be refused because memory ran out. A call that is refused leaves
/// the channel as it was.
#[derive(Drop)]
pub struct FixedChannelWith<N: Noted> {
    settings: Settings,
    limits: Limits,
    channel_core: ChannelCore<FixedRoom>,
    journal: N,
}

/// A channel with fixed memory that keeps only the number of its events. Its journal takes no memory, and only
/// contracts can read it.
pub type FixedChannel = FixedChannelWith<Unrecorded>;

impl<N: Noted> Model for FixedChannelWith<N> {
    ghost use Rattle.tc_fixed.specs.Channel.{HoldsWithLimits};
    ghost use Rattle.tc_fixed.specs.History.{LimitedHistory};

    ghost Value = { LimitedHistory };

    ghost view = { λ c. record { settings = c.settings; limits = c.limits; journal = N.noted c.journal } };

    ghost invariant = { λ c. HoldsWithLimits c.limits c.settings (N.noted c.journal) c.channel_core };
}

impl<N: Noted> FixedChannelWith<N> {
    /// Creates a channel in S1, with nothing in it, an empty journal and no limits by MAP, so that a unit has at most
    /// 65,542 octets. The call requests all memory that the channel ever has: [`storage`](crate::storage) bytes.
    pub fn new(alloc: Global, settings: Settings) -> Result<FixedChannelWith<N>, SettingsFault>
        ensures settings { IfOk result (λ channel. channel.settings ≡ settings) }
        ensures limits { IfOk result (λ channel. channel.limits ≡ none) }
        ensures journal { IfOk result (λ channel. channel.journal ≡ []) }
        ensures fault { MatchResult result (λ _. IsAllowed settings) (IsRefusal settings) }
    {
        settings.check()?;
        match start(alloc, settings, Limits::none(alloc)) {
            Ok(channel) => Ok(channel),
            Err(_) => Err(SettingsFault::NoMemory),
        }
    }

    /// Creates a channel as [`new`](FixedChannelWith::new) does, but with a limit for the units of each MAP. The call
    /// requests [`storage_with_limits`](crate::storage_with_limits) bytes, which are fewer if the limits are low. A
    /// unit of more octets than its MAP's limit is dropped when it ends, and no reply reports the loss. Without limits,
    /// only a unit of more than 65,542 octets is dropped in this way.
    pub fn with_limits(
        alloc: Global,
        settings: Settings,
        limits: Limits,
    ) -> Result<FixedChannelWith<N>, LimitsFault>
        ensures settings { IfOk result (λ channel. channel.settings ≡ settings) }
        ensures limits { IfOk result (λ channel. channel.limits ≡ limits) }
        ensures journal { IfOk result (λ channel. channel.journal ≡ []) }
        ensures fault { MatchResult result (λ _. IsAllowed settings × AreLimits settings limits) (IsRefusalWithLimits settings limits) }
    {
        limits.check(&settings)?;
        match start(alloc, settings, limits) {
            Ok(channel) => Ok(channel),
            Err(_) => Err(LimitsFault::Settings(SettingsFault::NoMemory)),
        }
    }

    /// Processes a frame of any virtual channel. An accepted AD data field is copied into the buffer. The unit that an
    /// accepted BD data field completes is queued at once, as far as there are queues with room: as a whole if its MAP
    /// is chosen, and otherwise as its packets. Each item is copied into its room.
    pub fn frame(&mut self, frame: &Frame) -> FrameReply
        ensures allowed { IsAllowed self.old.settings }
        ensures lawful { IsLawfulWithin (limit_of self.old.limits) self.old.settings self.old.journal }
        ensures reply { result ≡ frame_reply_within (limit_of self.old.limits) self.old.settings self.old.journal frame.now }
        ensures done { self.new ≡ with_limited_event self.old (Event.Frame frame.now) }
    {
        self.frame_with_steps(frame, &mut NoSteps)
    }

    /// Processes a frame as [`frame`](FixedChannelWith::frame) does, and counts steps. One step is counted for each
    /// packet that is cut from the frame's unit, and one for each queue that is examined. A frame that isn't of Type-BD
    /// takes no steps.
    pub fn frame_with_steps<C: Tick>(&mut self, frame: &Frame, steps: &mut C) -> FrameReply
        ensures allowed { IsAllowed self.old.settings }
        ensures lawful { IsLawfulWithin (limit_of self.old.limits) self.old.settings self.old.journal }
        ensures reply { result ≡ frame_reply_within (limit_of self.old.limits) self.old.settings self.old.journal frame.now }
        ensures done { self.new ≡ with_limited_event self.old (Event.Frame frame.now) }
        ensures cost { C.taken steps.new ≤ C.taken steps.old + frame_steps_within
            (limit_of self.old.limits) self.old.settings self.old.journal frame.now }
        ensures quiet { (IsBypassData frame.now → ⊥) → C.taken steps.new ≡ C.taken steps.old }
    {
        let reply = self.channel_core.frame(frame, steps).unwrap();
        self.journal.note(&LentEvent::Frame(frame.octets()));
        reply
    }

    /// Releases the oldest data field from the buffer, and queues the unit that it completes, as far as there are
    /// queues with room: as a whole if its MAP is chosen, and otherwise as its packets.
    pub fn release(&mut self) -> Result<Delivery, NothingReleased>
        ensures allowed { IsAllowed self.old.settings }
        ensures lawful { IsLawfulWithin (limit_of self.old.limits) self.old.settings self.old.journal }
        ensures empty { IsErrOf result NothingReleased.Empty ↔
            (buffered_fields_within (limit_of self.old.limits) self.old.settings self.old.journal ≡ []) }
        ensures reply { IfOk result (λ delivery. delivery ≡ release_reply_within (limit_of self.old.limits) self.old.settings self.old.journal) }
        ensures done { OnOk result (self.new ≡ with_limited_event self.old Event.Release) }
        ensures refused { OnErr result (self.new ≡ self.old) }
    {
        self.release_with_steps(&mut NoSteps)
    }

    /// Releases the oldest data field as [`release`](FixedChannelWith::release) does, and counts steps as
    /// [`frame_with_steps`](FixedChannelWith::frame_with_steps) does.
    pub fn release_with_steps<C: Tick>(
        &mut self,
        steps: &mut C,
    ) -> Result<Delivery, NothingReleased>
        ensures allowed { IsAllowed self.old.settings }
        ensures lawful { IsLawfulWithin (limit_of self.old.limits) self.old.settings self.old.journal }
        ensures empty { IsErrOf result NothingReleased.Empty ↔
            (buffered_fields_within (limit_of self.old.limits) self.old.settings self.old.journal ≡ []) }
        ensures reply { IfOk result (λ delivery. delivery ≡ release_reply_within (limit_of self.old.limits) self.old.settings self.old.journal) }
        ensures done { OnOk result (self.new ≡ with_limited_event self.old Event.Release) }
        ensures refused { OnErr result (self.new ≡ self.old) }
        ensures cost { C.taken steps.new ≤ C.taken steps.old + release_steps_within (limit_of self.old.limits) self.old.settings self.old.journal }
    {
        if self.channel_core.buffered() == 0 {
            return Err(NothingReleased::Empty);
        }
        let delivery = self.channel_core.release(steps).unwrap();
        self.journal.note(&LentEvent::Release);
        Ok(delivery)
    }

    /// Takes the oldest packet out of the queue with this APID, copies it to the front of `into`, and returns its
    /// number of octets.
    pub fn take(&mut self, apid: u16, into: &mut [u8]) -> Result<usize, NothingTaken>
        ensures allowed { IsAllowed self.old.settings }
        ensures lawful { IsLawfulWithin (limit_of self.old.limits) self.old.settings self.old.journal }
        ensures no_queue { IsErrOf result NothingTaken.NoQueue ↔
            (waiting_packets_within (limit_of self.old.limits) self.old.settings self.old.journal apid ≡ None) }
        ensures empty { IsErrOf result NothingTaken.Empty ↔
            (waiting_packets_within (limit_of self.old.limits) self.old.settings self.old.journal apid ≡ Some []) }
        ensures no_room { (needed : ℕ) → IsErrOf result (NothingTaken.NoRoom needed) ↔ IsOver (length into.old) needed
            (take_reply_within (limit_of self.old.limits) self.old.settings self.old.journal apid) }
        ensures reply { IfOk result (λ count. IsCopiedIn
            (take_reply_within (limit_of self.old.limits) self.old.settings self.old.journal apid) count into.old into.new) }
        ensures done { OnOk result (self.new ≡ with_limited_event self.old (Event.Take apid)) }
        ensures refused { OnErr result ((self.new ≡ self.old) × (into.new ≡ into.old)) }
    {
        self.take_with_steps(apid, into, &mut NoSteps)
    }

    /// Takes a packet as [`take`](FixedChannelWith::take) does, and counts one step for each queue that is examined.
    pub fn take_with_steps<C: Tick>(
        &mut self,
        apid: u16,
        into: &mut [u8],
        steps: &mut C,
    ) -> Result<usize, NothingTaken>
        ensures allowed { IsAllowed self.old.settings }
        ensures lawful { IsLawfulWithin (limit_of self.old.limits) self.old.settings self.old.journal }
        ensures no_queue { IsErrOf result NothingTaken.NoQueue ↔
            (waiting_packets_within (limit_of self.old.limits) self.old.settings self.old.journal apid ≡ None) }
        ensures empty { IsErrOf result NothingTaken.Empty ↔
            (waiting_packets_within (limit_of self.old.limits) self.old.settings self.old.journal apid ≡ Some []) }
        ensures no_room { (needed : ℕ) → IsErrOf result (NothingTaken.NoRoom needed) ↔ IsOver (length into.old) needed
            (take_reply_within (limit_of self.old.limits) self.old.settings self.old.journal apid) }
        ensures reply { IfOk result (λ count. IsCopiedIn
            (take_reply_within (limit_of self.old.limits) self.old.settings self.old.journal apid) count into.old into.new) }
        ensures done { OnOk result (self.new ≡ with_limited_event self.old (Event.Take apid)) }
        ensures refused { OnErr result ((self.new ≡ self.old) × (into.new ≡ into.old)) }
        ensures once { C.taken steps.new ≤ C.taken steps.old + looks_for apid (length self.old.settings.queues) }
    {
        let count = self.channel_core.copy_packet(apid, into, steps)?;
        self.journal.note(&LentEvent::Take(apid));
        Ok(count)
    }

    /// Takes the oldest unit out of the queue of this MAP, copies it to the front of `into`, and returns its number of
    /// octets. If the MAP isn't chosen, if no unit waits, or if `into` is shorter than the unit, the call returns the
    /// reason and changes nothing.
    pub fn take_unit(&mut self, map: u8, into: &mut [u8]) -> Result<usize, NoUnitTaken>
        ensures allowed { IsAllowed self.old.settings }
        ensures lawful { IsLawfulWithin (limit_of self.old.limits) self.old.settings self.old.journal }
        ensures no_map { IsErrOf result NoUnitTaken.NoMap ↔
            (waiting_units_within (limit_of self.old.limits) self.old.settings self.old.journal map ≡ None) }
        ensures empty { IsErrOf result NoUnitTaken.Empty ↔
            (waiting_units_within (limit_of self.old.limits) self.old.settings self.old.journal map ≡ Some []) }
        ensures no_room { (needed : ℕ) → IsErrOf result (NoUnitTaken.NoRoom needed) ↔ IsOver (length into.old) needed
            (unit_reply_within (limit_of self.old.limits) self.old.settings self.old.journal map) }
        ensures reply { IfOk result (λ count. IsCopiedIn
            (unit_reply_within (limit_of self.old.limits) self.old.settings self.old.journal map) count into.old into.new) }
        ensures done { OnOk result (self.new ≡ with_limited_event self.old (Event.TakeUnit map)) }
        ensures refused { OnErr result ((self.new ≡ self.old) × (into.new ≡ into.old)) }
    {
        self.take_unit_with_steps(map, into, &mut NoSteps)
    }

    /// Takes a unit as [`take_unit`](FixedChannelWith::take_unit) does, and counts one step for each queue that is
    /// examined.
    pub fn take_unit_with_steps<C: Tick>(
        &mut self,
        map: u8,
        into: &mut [u8],
        steps: &mut C,
    ) -> Result<usize, NoUnitTaken>
        ensures allowed { IsAllowed self.old.settings }
        ensures lawful { IsLawfulWithin (limit_of self.old.limits) self.old.settings self.old.journal }
        ensures no_map { IsErrOf result NoUnitTaken.NoMap ↔
            (waiting_units_within (limit_of self.old.limits) self.old.settings self.old.journal map ≡ None) }
        ensures empty { IsErrOf result NoUnitTaken.Empty ↔
            (waiting_units_within (limit_of self.old.limits) self.old.settings self.old.journal map ≡ Some []) }
        ensures no_room { (needed : ℕ) → IsErrOf result (NoUnitTaken.NoRoom needed) ↔ IsOver (length into.old) needed
            (unit_reply_within (limit_of self.old.limits) self.old.settings self.old.journal map) }
        ensures reply { IfOk result (λ count. IsCopiedIn
            (unit_reply_within (limit_of self.old.limits) self.old.settings self.old.journal map) count into.old into.new) }
        ensures done { OnOk result (self.new ≡ with_limited_event self.old (Event.TakeUnit map)) }
        ensures refused { OnErr result ((self.new ≡ self.old) × (into.new ≡ into.old)) }
        ensures once { C.taken steps.new ≤ C.taken steps.old + looks_for map (length self.old.settings.maps) }
    {
        let count = self.channel_core.copy_unit(map, into, steps)?;
        self.journal.note(&LentEvent::TakeUnit(map));
        Ok(count)
    }

    /// Drops the oldest packet of the queue with this APID, if one waits, and returns whether one waited. Call
    /// [`oldest`](FixedChannelWith::oldest) first to read the packet.
    pub fn drop_oldest(&mut self, apid: u16) -> bool
        ensures allowed { IsAllowed self.old.settings }
        ensures lawful { IsLawfulWithin (limit_of self.old.limits) self.old.settings self.old.journal }
        ensures waits { IsTrue result ↔ IsSome (take_reply_within (limit_of self.old.limits) self.old.settings self.old.journal apid) }
        ensures done { IsTrue result → self.new ≡ with_limited_event self.old (Event.Take apid) }
        ensures refused { result ≡ false → self.new ≡ self.old }
    {
        if !self.channel_core.drop_packet(apid, &mut NoSteps) {
            return false;
        }
        self.journal.note(&LentEvent::Take(apid));
        true
    }

    /// Drops the oldest unit of the queue of this chosen MAP, if one waits, and returns whether one waited. Call
    /// [`oldest_unit`](FixedChannelWith::oldest_unit) first to read the unit.
    pub fn drop_oldest_unit(&mut self, map: u8) -> bool
        ensures allowed { IsAllowed self.old.settings }
        ensures lawful { IsLawfulWithin (limit_of self.old.limits) self.old.settings self.old.journal }
        ensures waits { IsTrue result ↔ IsSome (unit_reply_within (limit_of self.old.limits) self.old.settings self.old.journal map) }
        ensures done { IsTrue result → self.new ≡ with_limited_event self.old (Event.TakeUnit map) }
        ensures refused { result ≡ false → self.new ≡ self.old }
    {
        if !self.channel_core.drop_unit(map, &mut NoSteps) {
            return false;
        }
        self.journal.note(&LentEvent::TakeUnit(map));
        true
    }

    /// Lends the octets of the oldest packet in the queue with this APID, and leaves the packet there. Returns `None` if
    /// no queue has this APID, or if the queue is empty. The call isn't an event.
    pub fn oldest(&self, apid: u16) -> Option<&[u8]>
        ensures packet { option_map (λ octets. octets.now) result
            ≡ take_reply_within (limit_of self.now.limits) self.now.settings self.now.journal apid }
        ensures allowed { IsAllowed self.now.settings }
        ensures lawful { IsLawfulWithin (limit_of self.now.limits) self.now.settings self.now.journal }
    {
        self.oldest_with_steps(apid, &mut NoSteps)
    }

    /// Lends a packet as [`oldest`](FixedChannelWith::oldest) does, and counts one step for each queue that is
    /// examined.
    pub fn oldest_with_steps<C: Tick>(&self, apid: u16, steps: &mut C) -> Option<&[u8]>
        ensures packet { option_map (λ octets. octets.now) result
            ≡ take_reply_within (limit_of self.now.limits) self.now.settings self.now.journal apid }
        ensures allowed { IsAllowed self.now.settings }
        ensures lawful { IsLawfulWithin (limit_of self.now.limits) self.now.settings self.now.journal }
        ensures cost { C.taken steps.new ≤ C.taken steps.old + looks_for apid (length self.now.settings.queues) }
    {
        self.channel_core.oldest(apid, steps)
    }

    /// Lends the octets of the oldest unit in the queue of this MAP, and leaves the unit there. Returns `None` if the
    /// MAP isn't chosen, or if its queue is empty. The call isn't an event.
    pub fn oldest_unit(&self, map: u8) -> Option<&[u8]>
        ensures unit { option_map (λ octets. octets.now) result
            ≡ unit_reply_within (limit_of self.now.limits) self.now.settings self.now.journal map }
        ensures allowed { IsAllowed self.now.settings }
        ensures lawful { IsLawfulWithin (limit_of self.now.limits) self.now.settings self.now.journal }
    {
        self.oldest_unit_with_steps(map, &mut NoSteps)
    }

    /// Lends a unit as [`oldest_unit`](FixedChannelWith::oldest_unit) does, and counts one step for each queue that is
    /// examined.
    pub fn oldest_unit_with_steps<C: Tick>(&self, map: u8, steps: &mut C) -> Option<&[u8]>
        ensures unit { option_map (λ octets. octets.now) result
            ≡ unit_reply_within (limit_of self.now.limits) self.now.settings self.now.journal map }
        ensures allowed { IsAllowed self.now.settings }
        ensures lawful { IsLawfulWithin (limit_of self.now.limits) self.now.settings self.now.journal }
        ensures cost { C.taken steps.new ≤ C.taken steps.old + looks_for map (length self.now.settings.maps) }
    {
        self.channel_core.oldest_unit(map, steps)
    }

    /// Returns FARM-1's state, V(R), the flags Lockout, Wait and Retransmit, and the FARM-B counter.
    pub fn report(&self) -> Report
        ensures report { result ≡ (run_within (limit_of self.now.limits) self.now.settings self.now.journal).report }
        ensures farm_b { result.farm_b < 4 }
        ensures allowed { IsAllowed self.now.settings }
        ensures lawful { IsLawfulWithin (limit_of self.now.limits) self.now.settings self.now.journal }
        ensures era { CountsUpInItsEraWithin (limit_of self.now.limits) self.now.settings self.now.journal }
    {
        self.channel_core.report()
    }

    /// Returns the communications link control word, with these flags of the link.
    pub fn clcw(&self, link: Link) -> u32
        ensures word { result ≡ clcw_within (limit_of self.now.limits) self.now.settings self.now.journal link }
        ensures allowed { IsAllowed self.now.settings }
        ensures lawful { IsLawfulWithin (limit_of self.now.limits) self.now.settings self.now.journal }
    {
        clcw_word(&self.channel_core.report(), self.settings.vcid, link)
    }

    /// Returns the number of data fields that wait in the buffer.
    pub fn buffered(&self) -> usize
        ensures count { result ≡ length (buffered_fields_within (limit_of self.now.limits) self.now.settings self.now.journal) }
        ensures allowed { IsAllowed self.now.settings }
        ensures lawful { IsLawfulWithin (limit_of self.now.limits) self.now.settings self.now.journal }
    {
        self.channel_core.buffered()
    }

    /// Returns the number of packets that wait in the queue with this APID, if there is one.
    pub fn queued(&self, apid: u16) -> Option<usize>
        ensures count { result ≡ option_map length (waiting_packets_within (limit_of self.now.limits) self.now.settings self.now.journal apid) }
        ensures allowed { IsAllowed self.now.settings }
        ensures lawful { IsLawfulWithin (limit_of self.now.limits) self.now.settings self.now.journal }
    {
        self.channel_core.queued(apid, &mut NoSteps)
    }

    /// Returns the number of units that wait in the queue of this MAP, if it is chosen.
    pub fn units(&self, map: u8) -> Option<usize>
        ensures count { result ≡ option_map length (waiting_units_within (limit_of self.now.limits) self.now.settings self.now.journal map) }
        ensures allowed { IsAllowed self.now.settings }
        ensures lawful { IsLawfulWithin (limit_of self.now.limits) self.now.settings self.now.journal }
    {
        self.channel_core.units(map, &mut NoSteps)
    }

    /// Returns the number of events in the journal, or 2^64 - 1 if there are more.
    pub fn events(&self) -> u64
        ensures count { result ≡ min (length self.now.journal) (2 ^ 64 - 1) }
        ensures allowed { IsAllowed self.now.settings }
        ensures lawful { IsLawfulWithin (limit_of self.now.limits) self.now.settings self.now.journal }
    {
        self.journal.count()
    }

    /// Returns the channel at this moment as contracts see it. The value takes no memory.
    pub fn past(&self) -> Past
        ensures past { result ≡ self.now }
        ensures allowed { IsAllowed self.now.settings }
        ensures lawful { IsLawfulWithin (limit_of self.now.limits) self.now.settings self.now.journal }
    {
        Past {
            settings: Snapshot::of(&self.settings),
            limits: Snapshot::of(&self.limits),
            journal: self.journal.seen(),
        }
    }

    /// Returns the settings with which the channel was created.
    pub fn settings(&self) -> &Settings
        ensures settings { result.now ≡ self.now.settings }
        ensures allowed { IsAllowed self.now.settings }
        ensures lawful { IsLawfulWithin (limit_of self.now.limits) self.now.settings self.now.journal }
    {
        &self.settings
    }

    /// Returns the limits with which the channel was created.
    pub fn limits(&self) -> &Limits
        ensures limits { result.now ≡ self.now.limits }
        ensures allowed { AreLimits self.now.settings self.now.limits }
    {
        &self.limits
    }
}

// Creates the open runs of a new channel. On a plain channel each data field is a unit by itself, and its limit is
// `others`.
fn open_none(alloc: Global, segmented: bool, limits: &Limits) -> Result<Runs<FixedRoom>, AllocError>
    requires others { IsOthers limits.now.others segmented }
    requires octets { HaveOctets limits.now.maps }
    requires by_headers { LimitsMapsByHeaders limits.now.maps segmented }
    ensures segmented { IfOk result (λ r. r.segmented ≡ segmented) }
    ensures none { IfOk result (λ r. (place : ℕ) → run_at (open_runs r).runs place ≡ None) }
    ensures limits { IfOk result (λ r. HaveLimits (limit_of limits.now) r) }
{
    if segmented {
        return Runs::by_map(alloc, &limits.table());
    }
    Runs::new(alloc, false, limits.others as usize)
}

// Creates a channel from settings and limits that were checked.
fn start<N: Noted>(
    alloc: Global,
    settings: Settings,
    limits: Limits,
) -> Result<FixedChannelWith<N>, AllocError>
    requires settings { IsAllowed settings }
    requires limits { AreLimits settings limits }
    ensures settings { IfOk result (λ channel. channel.settings ≡ settings) }
    ensures limits { IfOk result (λ channel. channel.limits ≡ limits) }
    ensures journal { IfOk result (λ channel. channel.journal ≡ []) }
{
    let runs = open_none(alloc, settings.segmented, &limits)?;
    let size = limits.item_size(settings.segmented);
    let channel_core = ChannelCore::new(alloc, &settings, runs, size, &mut NoSteps)?;
    Ok(FixedChannelWith {
        settings,
        limits,
        channel_core,
        journal: N::start(alloc),
    })
}
