//! A channel with the flags of its link, and its answers.

ghost use Rattle.std.specs.Prelude.{◌≡◌, ◌≢◌, ◌⊎◌, ◌+◌, [], length, IfOk, OnErr};
ghost use Rattle.tc_rack.specs.Linked.{new_linked, later, IsFrameAnswered, IsReleaseAnswered, IsTakeAnswered, IsUnitAnswered, reported_word};
ghost use Rattle.tc_rack.specs.Delivery.{IsTakenFrom, waiting_in};
ghost use Rattle.tc_channel.specs.Holding.{holding_of};

use crate::answer::{Answer, Refusal};
use crate::queue::QueueId;
use std::alloc::Global;
use std::marker::Model;
use tc_channel::{
    CountingChannel, Holding, NoMemory, Octets, ReleaseFault, Settings, TakeFault, TakeUnitFault,
    holding_in,
};
use tc_link::{Frame, Link};

/// The state of a link with neither flag set.
pub(crate) const NO_FLAG: Link = Link {
    no_rf: false,
    no_bit_lock: false,
};

/// A channel with the flags of its link. A call that is refused leaves both as they were.
#[derive(Drop)]
pub(crate) struct LinkedChannel {
    channel: CountingChannel,
    link: Link,
}

impl Model for LinkedChannel {
    ghost use Rattle.tc_rack.specs.Linked.{Linked};

    ghost Value = { Linked };

    ghost view = { λ o. record { history = o.channel; link = o.link } };
}

impl LinkedChannel {
    /// Creates a channel with no flag of its link set. The call returns `NoMemory` if memory runs out, and also if no
    /// channel can have these settings.
    pub(crate) fn new(alloc: Global, settings: Settings) -> Result<LinkedChannel, NoMemory>
        ensures { IfOk result (λ channel. channel ≡ new_linked settings) }
    {
        match CountingChannel::new(alloc, settings) {
            Ok(channel) => Ok(LinkedChannel {
                channel,
                link: NO_FLAG,
            }),
            Err(_) => Err(NoMemory),
        }
    }

    /// Lends the settings that the channel was created from.
    pub(crate) fn settings(&self) -> &Settings
        ensures { result.now ≡ self.now.history.settings }
    {
        self.channel.settings()
    }

    /// Returns the virtual channel id.
    pub(crate) fn vcid(&self) -> u8
        ensures { result ≡ self.now.history.settings.vcid }
    {
        self.channel.settings().vcid
    }

    /// Processes a frame, and returns the answer to it.
    pub(crate) fn frame(&mut self, frame: &Frame) -> Result<Answer, NoMemory>
        ensures answer { IfOk result (λ answer. IsFrameAnswered frame.now self.old answer self.new) }
        ensures settings { self.new.history.settings ≡ self.old.history.settings }
        ensures refused { OnErr result (self.new ≡ self.old) }
    {
        let vcid = self.vcid();
        let reply = self.channel.frame(frame)?;
        Ok(Answer::Frame { vcid, reply })
    }

    /// Releases the oldest data field from the buffer. If the buffer is empty, the answer is a refusal.
    pub(crate) fn release(&mut self) -> Result<Answer, NoMemory>
        ensures answer { IfOk result (λ answer. IsReleaseAnswered self.old answer self.new) }
        ensures settings { self.new.history.settings ≡ self.old.history.settings }
        ensures refused { OnErr result (self.new ≡ self.old) }
    {
        let vcid = self.vcid();
        match self.channel.release() {
            Ok(delivery) => Ok(Answer::Release { vcid, delivery }),
            Err(ReleaseFault::Empty) => Ok(Answer::Refused(Refusal::Empty)),
            Err(ReleaseFault::NoMemory) => Err(NoMemory),
        }
    }

    /// Takes the oldest packet with this APID. If there is no such queue or packet, the answer is a refusal. Nothing is
    /// allocated.
    pub(crate) fn take(&mut self, apid: u16) -> Answer
        ensures answer { IsTakeAnswered apid self.old result self.new }
        ensures settings { self.new.history.settings ≡ self.old.history.settings }
    {
        let vcid = self.vcid();
        match self.channel.take(apid) {
            Ok(packet) => Answer::Take {
                vcid,
                apid,
                packet: Octets::from(packet),
            },
            Err(TakeFault::NoQueue) => Answer::Refused(Refusal::NoQueue),
            Err(TakeFault::Empty) => Answer::Refused(Refusal::Empty),
            Err(TakeFault::NoMemory) => unreachable!(),
        }
    }

    /// Takes the oldest unit of this MAP. If the MAP isn't chosen or no unit waits, the answer is a refusal. Nothing is
    /// allocated.
    pub(crate) fn unit(&mut self, map: u8) -> Answer
        ensures answer { IsUnitAnswered map self.old result self.new }
        ensures settings { self.new.history.settings ≡ self.old.history.settings }
    {
        let vcid = self.vcid();
        match self.channel.take_unit(map) {
            Ok(unit) => Answer::Unit {
                vcid,
                map,
                unit: Octets::from(unit),
            },
            Err(TakeUnitFault::NoMap) => Answer::Refused(Refusal::NoMap),
            Err(TakeUnitFault::Empty) => Answer::Refused(Refusal::Empty),
            Err(TakeUnitFault::NoMemory) => unreachable!(),
        }
    }

    /// Returns the number of items that wait in a queue, or 0 if there is no such queue.
    pub(crate) fn waiting(&self, queue: QueueId) -> usize
        ensures { result ≡ length (waiting_in queue self.now) }
    {
        let count = match queue {
            QueueId::Packets(apid) => self.channel.queued(apid),
            QueueId::Units(map) => self.channel.units(map),
        };
        count.unwrap_or(0)
    }

    /// Takes the oldest item from a queue in which an item waits, and leaves the others. Nothing is allocated.
    pub(crate) fn take_from(&mut self, queue: QueueId) -> Answer
        requires { waiting_in queue self.old ≢ [] }
        ensures taken { IsTakenFrom queue self.old result self.new }
        ensures rest { length (waiting_in queue self.new) + 1 ≡ length (waiting_in queue self.old) }
        ensures settings { self.new.history.settings ≡ self.old.history.settings }
    {
        match queue {
            QueueId::Packets(apid) => self.take(apid),
            QueueId::Units(map) => self.unit(map),
        }
    }

    /// Returns the answer with the CLCW, which shows the flags of the link.
    pub(crate) fn clcw(&self) -> Answer
        ensures { result ≡ reported_word self.now }
    {
        Answer::Clcw {
            vcid: self.vcid(),
            word: self.channel.clcw(self.link),
        }
    }

    /// Sets the flags of the link.
    pub(crate) fn set_link(&mut self, link: Link)
        ensures { self.new ≡ record self.old { link = link } }
    {
        self.link = link;
    }

    /// Returns the state of the channel. The lists of its queues and MAPs are allocated.
    pub(crate) fn holding(&self, alloc: Global) -> Result<Holding, NoMemory>
        ensures { IfOk result (λ holding. holding ≡ holding_of self.now.history.settings self.now.history.journal) }
    {
        holding_in(alloc, &self.channel)
    }

    /// Returns the channel without the flags of its link.
    pub(crate) fn into_channel(self) -> CountingChannel
        ensures { result ≡ self.history }
    {
        let LinkedChannel { channel, link: _ } = self;
        channel
    }
}
