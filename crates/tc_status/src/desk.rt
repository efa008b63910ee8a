//! A channel with its publisher, which together lie under the channel's lock.

ghost use Rattle.std.specs.Prelude.{◌≡◌, ◌↔◌, false, [], IfOk, OnOk, OnErr, IsErrOf, MatchResult, Some, None};
ghost use Rattle.tc_queues.specs.Settings.{IsAllowed, IsRefusal};
ghost use Rattle.tc_channel.specs.Journal.{with_event};
ghost use Rattle.tc_channel.specs.Run.{IsLawful};
ghost use Rattle.tc_channel.specs.Reply.{IsBypassData, frame_reply, release_reply, take_reply, unit_reply, waiting_packets, waiting_units, buffered_fields};
ghost use Rattle.tc_status.specs.Board.{IsEarlier};

use crate::publisher::Publisher;
use crate::watcher::{Watcher, meet};
use std::alloc::Global;
use std::marker::Model;
use tc_channel::{
    ChannelWith, Delivery, Event, FrameReply, Journal, NoMemory, Recorded, ReleaseFault, Settings,
    SettingsFault, TakeFault, TakeUnitFault, Unrecorded,
};
use tc_link::Frame;

/// A channel and the publisher of its status, which lie under a lock together. A call that is refused leaves the
/// channel as it was. A call that is answered publishes the channel before it returns, so that between calls the
/// published journal is exactly the channel's.
#[derive(Drop)]
pub struct DeskOf<J: Journal> {
    channel: ChannelWith<J>,
    publisher: Publisher,
}

/// A desk whose channel keeps its journal in memory.
pub type Desk = DeskOf<Recorded>;

/// A desk whose channel's journal takes no memory.
pub type CountingDesk = DeskOf<Unrecorded>;

impl<J: Journal> Model for DeskOf<J> {
    ghost use Rattle.std.specs.Prelude.{◌≡◌};
    ghost use Rattle.tc_status.specs.Desk.{AtDesk};

    ghost Value = { AtDesk };

    ghost view = { λ d. record { channel = d.channel; board = d.publisher.board } };

    ghost invariant = { λ d. d.publisher.published ≡ d.channel };
}

impl<J: Journal> DeskOf<J> {
    /// Creates a desk with a new channel, on a board of its own. The call requests the memory of both. If the settings
    /// aren't allowed, it returns their first fault. If memory runs out, it returns [`SettingsFault::NoMemory`].
    pub fn new(alloc: Global, settings: Settings) -> Result<DeskOf<J>, SettingsFault>
        ensures settings { IfOk result (λ desk. desk.channel.settings ≡ settings) }
        ensures journal { IfOk result (λ desk. desk.channel.journal ≡ []) }
        ensures fault { MatchResult result (λ _. IsAllowed settings) (IsRefusal settings) }
    {
        let channel = ChannelWith::new(alloc, settings)?;
        let Ok(publisher) = Publisher::new(alloc, &channel) else {
            return Err(SettingsFault::NoMemory);
        };
        Ok(DeskOf { channel, publisher })
    }

    /// Lends the channel.
    pub fn channel(&self) -> &ChannelWith<J>
        ensures { result.now ≡ self.now.channel }
    {
        &self.channel
    }

    /// Lends the publisher of the channel's status.
    pub fn publisher(&self) -> &Publisher
        ensures board { result.now.board ≡ self.now.board }
        ensures published { result.now.published ≡ self.now.channel }
    {
        &self.publisher
    }

    /// Passes a frame to the channel, and publishes the channel if the call is answered. This call and the next three
    /// allocate no more than the channel does.
    pub fn frame(&mut self, frame: &Frame) -> Result<FrameReply, NoMemory>
        ensures allowed { IsAllowed self.old.channel.settings }
        ensures lawful { IsLawful self.old.channel.settings self.old.channel.journal }
        ensures reply { IfOk result (λ reply. reply ≡ frame_reply self.old.channel.settings self.old.channel.journal frame.now) }
        ensures done { OnOk result (self.new.channel ≡ with_event self.old.channel (Event.Frame frame.now)) }
        ensures refused { OnErr result (self.new ≡ self.old) }
        ensures answered { J.grows ≡ false → OnErr result (IsBypassData frame.now) }
        ensures board { self.new.board ≡ self.old.board }
    {
        let reply = self.channel.frame(frame)?;
        self.publisher.publish(&self.channel);
        Ok(reply)
    }

    /// Releases the oldest data field from the channel's buffer.
    pub fn release(&mut self) -> Result<Delivery, ReleaseFault>
        ensures allowed { IsAllowed self.old.channel.settings }
        ensures lawful { IsLawful self.old.channel.settings self.old.channel.journal }
        ensures empty { IsErrOf result ReleaseFault.Empty ↔ (buffered_fields self.old.channel.settings self.old.channel.journal ≡ []) }
        ensures reply { IfOk result (λ delivery. delivery ≡ release_reply self.old.channel.settings self.old.channel.journal) }
        ensures done { OnOk result (self.new.channel ≡ with_event self.old.channel Event.Release) }
        ensures refused { OnErr result (self.new ≡ self.old) }
        ensures board { self.new.board ≡ self.old.board }
    {
        let delivery = self.channel.release()?;
        self.publisher.publish(&self.channel);
        Ok(delivery)
    }

    /// Takes the oldest packet out of the channel's queue with this APID.
    pub fn take(&mut self, apid: u16) -> Result<Vec<u8>, TakeFault>
        ensures allowed { IsAllowed self.old.channel.settings }
        ensures lawful { IsLawful self.old.channel.settings self.old.channel.journal }
        ensures no_queue { IsErrOf result TakeFault.NoQueue ↔ (waiting_packets self.old.channel.settings self.old.channel.journal apid ≡ None) }
        ensures empty { IsErrOf result TakeFault.Empty ↔ (waiting_packets self.old.channel.settings self.old.channel.journal apid ≡ Some []) }
        ensures reply { IfOk result (λ packet. take_reply self.old.channel.settings self.old.channel.journal apid ≡ Some packet.items) }
        ensures done { OnOk result (self.new.channel ≡ with_event self.old.channel (Event.Take apid)) }
        ensures refused { OnErr result (self.new ≡ self.old) }
        ensures answered { J.grows ≡ false → IsErrOf result TakeFault.NoMemory → ⊥ }
        ensures board { self.new.board ≡ self.old.board }
    {
        let packet = self.channel.take(apid)?;
        self.publisher.publish(&self.channel);
        Ok(packet)
    }

    /// Takes the oldest unit out of the channel's queue of this chosen MAP.
    pub fn take_unit(&mut self, map: u8) -> Result<Vec<u8>, TakeUnitFault>
        ensures allowed { IsAllowed self.old.channel.settings }
        ensures lawful { IsLawful self.old.channel.settings self.old.channel.journal }
        ensures no_map { IsErrOf result TakeUnitFault.NoMap ↔ (waiting_units self.old.channel.settings self.old.channel.journal map ≡ None) }
        ensures empty { IsErrOf result TakeUnitFault.Empty ↔ (waiting_units self.old.channel.settings self.old.channel.journal map ≡ Some []) }
        ensures reply { IfOk result (λ unit. unit_reply self.old.channel.settings self.old.channel.journal map ≡ Some unit.items) }
        ensures done { OnOk result (self.new.channel ≡ with_event self.old.channel (Event.TakeUnit map)) }
        ensures refused { OnErr result (self.new ≡ self.old) }
        ensures answered { J.grows ≡ false → IsErrOf result TakeUnitFault.NoMemory → ⊥ }
        ensures board { self.new.board ≡ self.old.board }
    {
        let unit = self.channel.take_unit(map)?;
        self.publisher.publish(&self.channel);
        Ok(unit)
    }

    /// Creates a watcher of this desk's board, which has seen the whole journal of the channel. The call requests no
    /// memory. It fails only if the board can count no more owners.
    pub fn watcher(&mut self) -> Result<Watcher, NoMemory>
        ensures board { IfOk result (λ watcher. watcher.board ≡ self.old.board) }
        ensures seen { IfOk result (λ watcher. watcher.seen ≡ self.old.channel) }
        ensures allowed { IsAllowed self.old.channel.settings }
        ensures lawful { IsLawful self.old.channel.settings self.old.channel.journal }
        ensures unchanged { self.new ≡ self.old }
    {
        // The contract of this call states that the settings are allowed and the journal is lawful. The proof needs
        // both.
        let _ = self.channel.settings();
        self.publisher.watcher()
    }

    /// Lets a watcher of this desk's board see the whole journal of the channel. Each later read of the watcher then
    /// shows this moment or a later one.
    pub fn meet(&mut self, watcher: &mut Watcher)
        requires { watcher.old.board ≡ self.old.board }
        ensures desk { self.new ≡ self.old }
        ensures board { watcher.new.board ≡ watcher.old.board }
        ensures seen { watcher.new.seen ≡ self.old.channel }
        ensures later { IsEarlier watcher.old.seen self.old.channel }
    {
        meet(&mut self.publisher, watcher);
    }

    /// Takes the channel out of the desk.
    pub fn into_channel(self) -> ChannelWith<J>
        ensures { result ≡ self.channel }
    {
        let DeskOf {
            channel,
            publisher: _,
        } = self;
        channel
    }
}
