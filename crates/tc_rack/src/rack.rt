//! The channels of one spacecraft.

ghost use Rattle.std.specs.Prelude.{◌≡◌, ◌≢◌, ◌⊎◌, map, IfOk, OnOk, OnErr, MatchOption, MatchResult};
ghost use Rattle.tc_rack.specs.Linked.{Linked, new_linked, IsReleaseAnswered, IsTakeAnswered, IsUnitAnswered};
ghost use Rattle.tc_rack.specs.Rack.{new_rack, HasChannel, IsChannelAt, IsRackLocateFault, AreChannelsApart, IsLocatedInRack, IsLinkSet, IsReported};
ghost use Rattle.tc_rack.specs.Delivery.{AreAnswersWritten, IsDeliveryEnded};
ghost use Rattle.tc_rack.specs.Operation.{IsAnswerOf, IsChannelAnswer, IsFrameAnswer, IsClcwAnswer};

use crate::answer::{Answer, Refusal};
use crate::configuration::Configuration;
use crate::delivery::hand_on;
use crate::linked::LinkedChannel;
use crate::operation::Operation;
use std::alloc::Global;
use std::io;
use std::io::Write;
use std::marker::Model;
use tc_channel::{CountingChannel, Holding, NoMemory, Settings};
use tc_link::{Frame, Link, LocateFault, read_frame};

/// The channels of one spacecraft, in the order in which they were set up, each with the flags of its link. They belong
/// to one thread. If an operation is refused, or if memory runs out for it, everything stays as it was.
///
/// A contract sees the settings and the journal of each channel, and the flags of its link.
#[derive(Drop)]
pub struct Rack {
    scid: u16,
    channels: Vec<LinkedChannel>,
}

impl Model for Rack {
    ghost use Rattle.tc_rack.specs.Rack.{Racked};
    ghost use Rattle.tc_rack.specs.Rack.{AreChannelsApart};

    ghost Value = { Racked };

    ghost view = { λ o. record { scid = o.scid; channels = o.channels.items } };

    ghost invariant = { λ o. AreChannelsApart o.channels.items };
}

impl Rack {
    /// Creates the channels that were set up, with no flag of their links set. The call allocates a list, and the
    /// memory of each channel.
    pub fn new(alloc: Global, scid: u16, configuration: Configuration) -> Result<Rack, NoMemory>
        ensures { IfOk result (λ rack. rack ≡ new_rack scid configuration) }
    {
        let channels = make(alloc, configuration.into_channels())?;
        Ok(Rack { scid, channels })
    }

    /// Carries out an operation. Only the channel that the operation names allocates.
    pub fn operate(&mut self, operation: Operation) -> Result<Answer, NoMemory>
        ensures apart { AreChannelsApart self.old.channels }
        ensures answer { IfOk result (λ answer. IsAnswerOf operation self.old answer self.new) }
        ensures refused { OnErr result (self.new ≡ self.old) }
    {
        match operation {
            Operation::Frame(octets) => self.bring(octets.as_slice()),
            Operation::Release(vcid) => self.release(vcid),
            Operation::Take(vcid, apid) => Ok(self.take(vcid, apid)),
            Operation::Unit(vcid, map) => Ok(self.unit(vcid, map)),
            Operation::Clcw(vcid) => Ok(self.clcw(vcid)),
        }
    }

    // Brings octets to the channel that their frame names.
    fn bring(&mut self, octets: &[u8]) -> Result<Answer, NoMemory>
        ensures apart { AreChannelsApart self.old.channels }
        ensures answer { IfOk result (λ answer. IsFrameAnswer octets.now self.old answer self.new) }
        ensures refused { OnErr result (self.new ≡ self.old) }
    {
        match self.locate(octets) {
            Ok((place, frame)) => {
                let answer = self.channels[place].frame(&frame)?;
                Ok(answer)
            }
            Err(fault) => Ok(Answer::Refused(Refusal::Unlocated(fault))),
        }
    }

    // Returns the frame at the front of the octets, and the place of the channel that the frame is for.
    fn locate<'a>(&self, octets: &'a [u8]) -> Result<(usize, Frame<'a>), LocateFault>
        ensures apart { AreChannelsApart self.now.channels }
        ensures located { MatchResult result (λ located. IsLocatedInRack self.now octets.now located.0 located.1) (IsRackLocateFault self.now octets.now) }
    {
        let Rack { scid, channels } = self;
        let frame = read_frame(octets).map_err(LocateFault::Frame)?;
        let header = frame.header();
        if header.scid != *scid {
            return Err(LocateFault::OtherSpacecraft);
        }
        let Some(place) = place_of(channels, header.vcid) else {
            return Err(LocateFault::UnknownChannel);
        };
        Ok((place, frame))
    }

    // Releases the oldest data field from the buffer of a channel.
    fn release(&mut self, vcid: u8) -> Result<Answer, NoMemory>
        ensures apart { AreChannelsApart self.old.channels }
        ensures answer { IfOk result (λ answer. IsChannelAnswer vcid IsReleaseAnswered self.old answer self.new) }
        ensures refused { OnErr result (self.new ≡ self.old) }
    {
        let Some(place) = place_of(&self.channels, vcid) else {
            return Ok(Answer::Refused(Refusal::UnknownChannel));
        };
        let answer = self.channels[place].release()?;
        Ok(answer)
    }

    // Takes the oldest packet with this APID from a channel.
    fn take(&mut self, vcid: u8, apid: u16) -> Answer
        ensures apart { AreChannelsApart self.old.channels }
        ensures answer { IsChannelAnswer vcid (IsTakeAnswered apid) self.old result self.new }
    {
        match place_of(&self.channels, vcid) {
            Some(place) => self.channels[place].take(apid),
            None => Answer::Refused(Refusal::UnknownChannel),
        }
    }

    // Takes the oldest unit of a chosen MAP from a channel.
    fn unit(&mut self, vcid: u8, map: u8) -> Answer
        ensures apart { AreChannelsApart self.old.channels }
        ensures answer { IsChannelAnswer vcid (IsUnitAnswered map) self.old result self.new }
    {
        match place_of(&self.channels, vcid) {
            Some(place) => self.channels[place].unit(map),
            None => Answer::Refused(Refusal::UnknownChannel),
        }
    }

    // Returns the CLCW of a channel with the flags of its link.
    fn clcw(&self, vcid: u8) -> Answer
        ensures apart { AreChannelsApart self.now.channels }
        ensures answer { IsClcwAnswer vcid self.now result }
    {
        match place_of(&self.channels, vcid) {
            Some(place) => self.channels[place].clcw(),
            None => Answer::Refused(Refusal::UnknownChannel),
        }
    }

    /// Ends a delivery, which an [`Operation::Release`] begins. Takes each packet of each queue of a channel, and then
    /// each unit of each chosen MAP, in the order of the set-up, until no item waits. Writes the answer to each take,
    /// and then the CLCW, each with a line feed. If there is no such channel, nothing is written. Nothing is allocated,
    /// and each answer is written before the next item is taken. If the writer fails at the answer to a take, the item
    /// that was taken is lost.
    pub fn hand_on<W: Write>(&mut self, vcid: u8, writer: &mut W) -> io::Result<()>
        ensures { OnOk result (AreAnswersWritten (W.contents writer.old) (W.contents writer.new)
            (λ answers. IsDeliveryEnded vcid self.old answers self.new)) }
    {
        match place_of(&self.channels, vcid) {
            Some(place) => hand_on(&mut self.channels[place], writer),
            None => Ok(()),
        }
    }

    /// Sets the flags of a channel's link, which its CLCWs report from then on. Returns whether there is such a
    /// channel.
    pub fn link(&mut self, vcid: u8, link: Link) -> bool
        ensures { IsLinkSet self.old vcid link result self.new }
    {
        let Some(place) = place_of(&self.channels, vcid) else {
            return false;
        };
        self.channels[place].set_link(link);
        true
    }

    /// Returns the state of the channel with this id, if there is one. The lists of its queues and MAPs are allocated.
    pub fn report(&self, alloc: Global, vcid: u8) -> Result<Option<Holding>, NoMemory>
        ensures { IfOk result (IsReported self.now vcid) }
    {
        match place_of(&self.channels, vcid) {
            Some(place) => Ok(Some(self.channels[place].holding(alloc)?)),
            None => Ok(None),
        }
    }

    /// Returns the channels by value, in the order in which they were set up. A list is allocated.
    pub fn into_channels(self, alloc: Global) -> Result<Vec<CountingChannel>, NoMemory>
        ensures { IfOk result (λ channels. channels.items ≡ map (λ (channel : Linked). channel.history) self.channels) }
    {
        let Rack { scid: _, channels } = self;
        bare(alloc, channels)
    }
}

// Returns the place of the channel with this id, if there is one.
fn place_of(channels: &[LinkedChannel], vcid: u8) -> Option<usize>
    ensures { MatchOption result (¬ HasChannel channels.now vcid) (λ place. (channel : Linked) × IsChannelAt channels.now vcid place channel) }
{
    channels.iter().position(|channel| channel.vcid() == vcid)
}

// Creates a channel from each of the settings.
fn make(alloc: Global, list: Vec<Settings>) -> Result<Vec<LinkedChannel>, NoMemory>
    ensures { IfOk result (λ channels. channels.items ≡ map new_linked list.items) }
{
    let mut channels = Vec::with_capacity(alloc, list.len())?;
    for settings in list {
        channels.push_reserved(LinkedChannel::new(alloc, settings)?);
    }
    Ok(channels)
}

// Returns the channels without the flags of their links.
fn bare(alloc: Global, channels: Vec<LinkedChannel>) -> Result<Vec<CountingChannel>, NoMemory>
    ensures { IfOk result (λ bare. bare.items ≡ map (λ (channel : Linked). channel.history) channels.items) }
{
    let mut bare = Vec::with_capacity(alloc, channels.len())?;
    for channel in channels {
        bare.push_reserved(channel.into_channel());
    }
    Ok(bare)
}
