//! A channel and its journal.

ghost use Rattle.std.specs.Prelude.{◌≡◌, false, [], ◌<◌, ◌≤◌, ◌+◌, ◌↔◌, length, min, ◌^◌, ◌-◌, IfOk, OnOk, OnErr, IsErrOf, MatchResult, Some, None, option_map};
ghost use Rattle.tc_queues.specs.Settings.{IsAllowed, IsRefusal};
ghost use Rattle.tc_channel.specs.Journal.{with_event};
ghost use Rattle.tc_channel.specs.Run.{run, IsLawful};
ghost use Rattle.tc_channel.specs.Reply.{IsBypassData, frame_reply, release_reply, take_reply, unit_reply, waiting_packets, waiting_units, buffered_fields, clcw as clcw_of};
ghost use Rattle.tc_channel.specs.Era.{CountsUpInItsEra};
ghost use Rattle.tc_channel.specs.Steps.{frame_steps, release_steps};
ghost use Rattle.tc_queues.specs.Steps.{take_steps};

use crate::channel_core::ChannelCore;
use crate::event::Event;
use crate::journal::Journal;
use crate::lent::LentEvent;
use crate::past::Past;
use crate::recorded::Recorded;
use crate::unrecorded::Unrecorded;
use std::alloc::Global;
use std::marker::Model;
use std::snapshot::Snapshot;
use tc_link::{Frame, Link, Report, clcw_word};
use tc_packet::{GrowingRoom, LARGEST_UNIT, Runs};
use tc_queues::{
    Delivery, FrameReply, NoMemory, ReleaseFault, Settings, SettingsFault, TakeFault,
    TakeUnitFault, Tick,
};

// A counter that counts no steps. The functions under a channel's calls can't name this type, so they can't create a
// counter of their own. They have to count every step with the counter that their caller passes.
#[derive(Drop)]
struct NoSteps;

impl Tick for NoSteps {
    ghost use Rattle.std.specs.Prelude.{false};

    ghost taken = { λ _. 0 };

    ghost counts = { false };

    fn tick(&mut self) {}
}

/// One virtual channel: FARM-1, the buffer of accepted data fields, reassembly, the packet queues, the unit queues of
/// chosen MAPs, and the journal of all events. A call that is refused leaves the channel as it was.
#[derive(Drop)]
pub struct ChannelWith<J: Journal> {
    alloc: Global,
    settings: Settings,
    channel_core: ChannelCore<GrowingRoom>,
    journal: J,
}

/// A channel that keeps its journal in memory and can lend it.
pub type Channel = ChannelWith<Recorded>;

/// A channel whose journal takes no memory and exists only for contracts. It is meant for flight software and long
/// simulations. It behaves like [`Channel`], by the same proof, but it can't return its journal.
pub type CountingChannel = ChannelWith<Unrecorded>;

/// A deprecated name of [`CountingChannel`]. The next version won't have it.
pub type FlightChannel = CountingChannel;

impl<J: Journal> Model for ChannelWith<J> {
    ghost use Rattle.tc_channel.specs.Journal.{History};

    ghost Value = { History };

    ghost use Rattle.tc_queues.specs.ChannelState.{no_limits};
    ghost use Rattle.tc_channel.specs.ChannelCore.{HoldsInRooms};

    ghost view = { λ c. record { settings = c.settings; journal = J.events c.journal } };

    ghost invariant = { λ c. HoldsInRooms no_limits c.settings (J.events c.journal) c.channel_core };
}

impl<J: Journal> ChannelWith<J> {
    /// Creates a channel in S1, with nothing in it and an empty journal. The buffer is created with room for all data
    /// fields that it may hold, and each queue with a place for each packet or unit that it may hold. If the settings
    /// aren't allowed, the call returns their first fault. If memory runs out, it returns [`SettingsFault::NoMemory`].
    pub fn new(alloc: Global, settings: Settings) -> Result<ChannelWith<J>, SettingsFault>
        ensures settings { IfOk result (λ channel. channel.settings ≡ settings) }
        ensures journal { IfOk result (λ channel. channel.journal ≡ []) }
        ensures fault { MatchResult result (λ _. IsAllowed settings) (IsRefusal settings) }
    {
        settings.check()?;
        match start(alloc, settings) {
            Ok(channel) => Ok(channel),
            Err(_) => Err(SettingsFault::NoMemory),
        }
    }

    /// Takes in a frame, whatever virtual channel it names. An accepted AD data field is buffered. If an accepted BD
    /// data field ends a unit, the unit is queued at once: whole if its MAP is chosen, otherwise as its packets. A
    /// packet or unit for which no queue has room is dropped. The call copies the octets of the frame for a recorded
    /// journal, the data field of an accepted AD frame for the buffer, the body of a BD segment that is added to a run,
    /// and the unit or each packet that is queued. It is refused only if memory runs out. If the journal isn't
    /// recorded, this can happen only for a frame of Type-BD.
    pub fn frame(&mut self, frame: &Frame) -> Result<FrameReply, NoMemory>
        ensures allowed { IsAllowed self.old.settings }
        ensures lawful { IsLawful self.old.settings self.old.journal }
        ensures reply { IfOk result (λ reply. reply ≡ frame_reply self.old.settings self.old.journal frame.now) }
        ensures done { OnOk result (self.new ≡ with_event self.old (Event.Frame frame.now)) }
        ensures refused { OnErr result (self.new ≡ self.old) }
        ensures answered { J.grows ≡ false → OnErr result (IsBypassData frame.now) }
    {
        self.frame_with_steps(frame, &mut NoSteps)
    }

    /// Takes in a frame as [`frame`](ChannelWith::frame) does, and counts steps. One step is counted each time a packet
    /// is cut from the unit that the frame ends, and one each time a queue is looked at. A packet may be cut twice,
    /// first to stage it and then to commit it. A frame that isn't of Type-BD takes no steps.
    pub fn frame_with_steps<C: Tick>(
        &mut self,
        frame: &Frame,
        steps: &mut C,
    ) -> Result<FrameReply, NoMemory>
        ensures allowed { IsAllowed self.old.settings }
        ensures lawful { IsLawful self.old.settings self.old.journal }
        ensures reply { IfOk result (λ reply. reply ≡ frame_reply self.old.settings self.old.journal frame.now) }
        ensures done { OnOk result (self.new ≡ with_event self.old (Event.Frame frame.now)) }
        ensures refused { OnErr result (self.new ≡ self.old) }
        ensures answered { J.grows ≡ false → OnErr result (IsBypassData frame.now) }
        ensures cost { OnOk result (C.taken steps.new ≤ C.taken steps.old + frame_steps self.old.settings self.old.journal frame.now) }
        ensures refused_cost { OnErr result (C.taken steps.new ≤ C.taken steps.old +
            (frame_steps self.old.settings self.old.journal frame.now + length self.old.settings.queues)) }
        ensures quiet { (IsBypassData frame.now → ⊥) → C.taken steps.new ≡ C.taken steps.old }
    {
        let event = LentEvent::Frame(frame.octets());
        let entry = self.journal.prepare(self.alloc, &event)?;
        let reply = self.channel_core.frame(frame, steps)?;
        self.journal.append(&event, entry);
        Ok(reply)
    }

    /// Releases the oldest data field from the buffer. If the field ends a unit, the unit is queued, whole if its MAP is
    /// chosen, otherwise as its packets. A packet or unit that can't be queued is dropped, and [`Delivery`] counts it.
    /// The call copies the unit, or each packet that is queued. It is refused if the buffer is empty, or if memory runs
    /// out.
    pub fn release(&mut self) -> Result<Delivery, ReleaseFault>
        ensures allowed { IsAllowed self.old.settings }
        ensures lawful { IsLawful self.old.settings self.old.journal }
        ensures empty { IsErrOf result ReleaseFault.Empty ↔ (buffered_fields self.old.settings self.old.journal ≡ []) }
        ensures reply { IfOk result (λ delivery. delivery ≡ release_reply self.old.settings self.old.journal) }
        ensures done { OnOk result (self.new ≡ with_event self.old Event.Release) }
        ensures refused { OnErr result (self.new ≡ self.old) }
    {
        self.release_with_steps(&mut NoSteps)
    }

    /// Releases a data field as [`release`](ChannelWith::release) does, and counts the steps as
    /// [`frame_with_steps`](ChannelWith::frame_with_steps) does.
    pub fn release_with_steps<C: Tick>(&mut self, steps: &mut C) -> Result<Delivery, ReleaseFault>
        ensures allowed { IsAllowed self.old.settings }
        ensures lawful { IsLawful self.old.settings self.old.journal }
        ensures empty { IsErrOf result ReleaseFault.Empty ↔ (buffered_fields self.old.settings self.old.journal ≡ []) }
        ensures reply { IfOk result (λ delivery. delivery ≡ release_reply self.old.settings self.old.journal) }
        ensures done { OnOk result (self.new ≡ with_event self.old Event.Release) }
        ensures refused { OnErr result (self.new ≡ self.old) }
        ensures cost { OnOk result (C.taken steps.new ≤ C.taken steps.old + release_steps self.old.settings self.old.journal) }
        ensures refused_cost { OnErr result (C.taken steps.new ≤ C.taken steps.old +
            (release_steps self.old.settings self.old.journal + length self.old.settings.queues)) }
    {
        if self.channel_core.buffered() == 0 {
            return Err(ReleaseFault::Empty);
        }
        let entry = self.journal.prepare(self.alloc, &LentEvent::Release)?;
        let delivery = self.channel_core.release(steps)?;
        self.journal.append(&LentEvent::Release, entry);
        Ok(delivery)
    }

    /// Takes the oldest packet out of the queue with this APID. The packet is moved, not copied. The call is refused if
    /// there is no such queue, if the queue is empty, or if memory for a recorded journal runs out.
    pub fn take(&mut self, apid: u16) -> Result<Vec<u8>, TakeFault>
        ensures allowed { IsAllowed self.old.settings }
        ensures lawful { IsLawful self.old.settings self.old.journal }
        ensures no_queue { IsErrOf result TakeFault.NoQueue ↔ (waiting_packets self.old.settings self.old.journal apid ≡ None) }
        ensures empty { IsErrOf result TakeFault.Empty ↔ (waiting_packets self.old.settings self.old.journal apid ≡ Some []) }
        ensures reply { IfOk result (λ packet. take_reply self.old.settings self.old.journal apid ≡ Some packet.items) }
        ensures done { OnOk result (self.new ≡ with_event self.old (Event.Take apid)) }
        ensures refused { OnErr result (self.new ≡ self.old) }
        ensures answered { J.grows ≡ false → IsErrOf result TakeFault.NoMemory → ⊥ }
    {
        self.take_with_steps(apid, &mut NoSteps)
    }

    /// Takes a packet as [`take`](ChannelWith::take) does, and counts one step for each queue that is looked at.
    pub fn take_with_steps<C: Tick>(
        &mut self,
        apid: u16,
        steps: &mut C,
    ) -> Result<Vec<u8>, TakeFault>
        ensures allowed { IsAllowed self.old.settings }
        ensures lawful { IsLawful self.old.settings self.old.journal }
        ensures no_queue { IsErrOf result TakeFault.NoQueue ↔ (waiting_packets self.old.settings self.old.journal apid ≡ None) }
        ensures empty { IsErrOf result TakeFault.Empty ↔ (waiting_packets self.old.settings self.old.journal apid ≡ Some []) }
        ensures reply { IfOk result (λ packet. take_reply self.old.settings self.old.journal apid ≡ Some packet.items) }
        ensures done { OnOk result (self.new ≡ with_event self.old (Event.Take apid)) }
        ensures refused { OnErr result (self.new ≡ self.old) }
        ensures answered { J.grows ≡ false → IsErrOf result TakeFault.NoMemory → ⊥ }
        ensures cost { C.taken steps.new ≤ C.taken steps.old + take_steps apid (length self.old.settings.queues) }
    {
        match self.channel_core.queued(apid, steps) {
            None => return Err(TakeFault::NoQueue),
            Some(0) => return Err(TakeFault::Empty),
            Some(_) => {}
        }
        let taken = LentEvent::Take(apid);
        let entry = self.journal.prepare(self.alloc, &taken)?;
        let packet = self.channel_core.take(apid, steps).unwrap();
        self.journal.append(&taken, entry);
        Ok(packet)
    }

    /// Takes the oldest unit out of the queue of this chosen MAP. The unit is moved, not copied. The call is refused if
    /// the MAP isn't chosen, if its queue is empty, or if memory for a recorded journal runs out.
    pub fn take_unit(&mut self, map: u8) -> Result<Vec<u8>, TakeUnitFault>
        ensures allowed { IsAllowed self.old.settings }
        ensures lawful { IsLawful self.old.settings self.old.journal }
        ensures no_map { IsErrOf result TakeUnitFault.NoMap ↔ (waiting_units self.old.settings self.old.journal map ≡ None) }
        ensures empty { IsErrOf result TakeUnitFault.Empty ↔ (waiting_units self.old.settings self.old.journal map ≡ Some []) }
        ensures reply { IfOk result (λ unit. unit_reply self.old.settings self.old.journal map ≡ Some unit.items) }
        ensures done { OnOk result (self.new ≡ with_event self.old (Event.TakeUnit map)) }
        ensures refused { OnErr result (self.new ≡ self.old) }
        ensures answered { J.grows ≡ false → IsErrOf result TakeUnitFault.NoMemory → ⊥ }
    {
        self.take_unit_with_steps(map, &mut NoSteps)
    }

    /// Takes a unit as [`take_unit`](ChannelWith::take_unit) does, and counts one step for each queue that is looked
    /// at.
    pub fn take_unit_with_steps<C: Tick>(
        &mut self,
        map: u8,
        steps: &mut C,
    ) -> Result<Vec<u8>, TakeUnitFault>
        ensures allowed { IsAllowed self.old.settings }
        ensures lawful { IsLawful self.old.settings self.old.journal }
        ensures no_map { IsErrOf result TakeUnitFault.NoMap ↔ (waiting_units self.old.settings self.old.journal map ≡ None) }
        ensures empty { IsErrOf result TakeUnitFault.Empty ↔ (waiting_units self.old.settings self.old.journal map ≡ Some []) }
        ensures reply { IfOk result (λ unit. unit_reply self.old.settings self.old.journal map ≡ Some unit.items) }
        ensures done { OnOk result (self.new ≡ with_event self.old (Event.TakeUnit map)) }
        ensures refused { OnErr result (self.new ≡ self.old) }
        ensures answered { J.grows ≡ false → IsErrOf result TakeUnitFault.NoMemory → ⊥ }
        ensures cost { C.taken steps.new ≤ C.taken steps.old + take_steps map (length self.old.settings.maps) }
    {
        match self.channel_core.units(map, steps) {
            None => return Err(TakeUnitFault::NoMap),
            Some(0) => return Err(TakeUnitFault::Empty),
            Some(_) => {}
        }
        let taken = LentEvent::TakeUnit(map);
        let entry = self.journal.prepare(self.alloc, &taken)?;
        let unit = self.channel_core.take_unit(map, steps).unwrap();
        self.journal.append(&taken, entry);
        Ok(unit)
    }

    /// Lends the octets of the packet that the next [`take`](ChannelWith::take) with this APID will return. Returns
    /// `None` if there is no such queue or it is empty. The call allocates nothing and isn't an event.
    pub fn oldest(&self, apid: u16) -> Option<&[u8]>
        ensures packet { option_map (λ octets. octets.now) result ≡ take_reply self.now.settings self.now.journal apid }
        ensures allowed { IsAllowed self.now.settings }
        ensures lawful { IsLawful self.now.settings self.now.journal }
    {
        self.channel_core.oldest(apid, &mut NoSteps)
    }

    /// Lends the octets of the unit that the next [`take_unit`](ChannelWith::take_unit) with this MAP will return.
    /// Returns `None` if the MAP isn't chosen or its queue is empty. The call allocates nothing and isn't an event.
    pub fn oldest_unit(&self, map: u8) -> Option<&[u8]>
        ensures unit { option_map (λ octets. octets.now) result ≡ unit_reply self.now.settings self.now.journal map }
        ensures allowed { IsAllowed self.now.settings }
        ensures lawful { IsLawful self.now.settings self.now.journal }
    {
        self.channel_core.oldest_unit(map, &mut NoSteps)
    }

    /// Returns FARM-1's components.
    pub fn report(&self) -> Report
        ensures report { result ≡ (run self.now.settings self.now.journal).report }
        ensures farm_b { result.farm_b < 4 }
        ensures allowed { IsAllowed self.now.settings }
        ensures lawful { IsLawful self.now.settings self.now.journal }
        ensures era { CountsUpInItsEra self.now.settings self.now.journal }
    {
        self.channel_core.report()
    }

    /// Returns the communications link control word (CLCW).
    pub fn clcw(&self, link: Link) -> u32
        ensures word { result ≡ clcw_of self.now.settings self.now.journal link }
        ensures allowed { IsAllowed self.now.settings }
        ensures lawful { IsLawful self.now.settings self.now.journal }
    {
        clcw_word(&self.channel_core.report(), self.settings.vcid, link)
    }

    /// Returns the number of data fields that wait in the buffer.
    pub fn buffered(&self) -> usize
        ensures count { result ≡ length (buffered_fields self.now.settings self.now.journal) }
        ensures allowed { IsAllowed self.now.settings }
        ensures lawful { IsLawful self.now.settings self.now.journal }
    {
        self.channel_core.buffered()
    }

    /// Returns the number of packets that wait in the queue with this APID, if there is one.
    pub fn queued(&self, apid: u16) -> Option<usize>
        ensures count { result ≡ option_map length (waiting_packets self.now.settings self.now.journal apid) }
        ensures allowed { IsAllowed self.now.settings }
        ensures lawful { IsLawful self.now.settings self.now.journal }
    {
        self.channel_core.queued(apid, &mut NoSteps)
    }

    /// Returns the number of units that wait in the queue of this MAP, if the MAP is chosen.
    pub fn units(&self, map: u8) -> Option<usize>
        ensures count { result ≡ option_map length (waiting_units self.now.settings self.now.journal map) }
        ensures allowed { IsAllowed self.now.settings }
        ensures lawful { IsLawful self.now.settings self.now.journal }
    {
        self.channel_core.units(map, &mut NoSteps)
    }

    /// Returns the number of events in the journal, or 2^64 - 1 if there are more than that.
    pub fn events(&self) -> u64
        ensures count { result ≡ min (length self.now.journal) (2 ^ 64 - 1) }
        ensures allowed { IsAllowed self.now.settings }
        ensures lawful { IsLawful self.now.settings self.now.journal }
    {
        self.journal.count()
    }

    /// Returns the settings and the journal of the channel at this moment, as contracts see them. The call takes no
    /// memory.
    pub fn past(&self) -> Past
        ensures past { result ≡ self.now }
        ensures allowed { IsAllowed self.now.settings }
        ensures lawful { IsLawful self.now.settings self.now.journal }
    {
        Past {
            settings: Snapshot::of(&self.settings),
            journal: self.journal.seen(),
        }
    }

    /// Lends the settings that the channel was created from.
    pub fn settings(&self) -> &Settings
        ensures settings { result.now ≡ self.now.settings }
        ensures allowed { IsAllowed self.now.settings }
        ensures lawful { IsLawful self.now.settings self.now.journal }
    {
        &self.settings
    }
}

impl ChannelWith<Recorded> {
    /// Lends the events so far, the oldest first.
    pub fn journal(&self) -> &[Event]
        ensures journal { result.now ≡ self.now.journal }
        ensures allowed { IsAllowed self.now.settings }
        ensures lawful { IsLawful self.now.settings self.now.journal }
    {
        &self.journal.events
    }
}

// Creates a channel from settings that were checked.
fn start<J: Journal>(alloc: Global, settings: Settings) -> Result<ChannelWith<J>, NoMemory>
    requires { IsAllowed settings }
    ensures settings { IfOk result (λ channel. channel.settings ≡ settings) }
    ensures journal { IfOk result (λ channel. channel.journal ≡ []) }
{
    let runs = Runs::new(alloc, settings.segmented, LARGEST_UNIT)?;
    let channel_core = ChannelCore::new(alloc, &settings, runs, LARGEST_UNIT, &mut NoSteps)?;
    Ok(ChannelWith {
        alloc,
        settings,
        channel_core,
        journal: J::start(alloc),
    })
}
