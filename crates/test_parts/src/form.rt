//! The forms of a channel: with its journal in memory, with the number of its events alone, and with fixed memory.

use crate::frames::NO_FLAG;
use std::alloc::Global;
use tc_channel::{
    ChannelWith, Delivery, FrameReply, Journal, NoMemory, Octets, ReleaseFault, Settings,
    SettingsFault, TakeFault, TakeUnitFault,
};
use tc_fixed::{FixedChannel, NoUnitTaken, NothingReleased, NothingTaken};
use tc_link::{Frame, Report};

/// A channel of any form, with its calls.
pub trait Form: Drop {
    /// Creates the channel with these settings.
    fn made(alloc: Global, settings: Settings) -> Result<Self, SettingsFault>;

    /// Brings a frame to the channel.
    fn bring(&mut self, frame: &Frame) -> Result<FrameReply, NoMemory>;

    /// Releases the oldest data field of the buffer.
    fn let_out(&mut self) -> Result<Delivery, ReleaseFault>;

    /// Takes the oldest packet of an application.
    fn take_packet(&mut self, alloc: Global, apid: u16) -> Result<Octets, TakeFault>;

    /// Takes the oldest unit of a chosen MAP.
    fn take_whole(&mut self, alloc: Global, map: u8) -> Result<Octets, TakeUnitFault>;

    /// Lends the oldest packet of an application, or returns `None` if no packet waits.
    fn lent_packet(&self, apid: u16) -> Option<&[u8]>;

    /// Lends the oldest unit of a chosen MAP, or returns `None` if no unit waits.
    fn lent_whole(&self, map: u8) -> Option<&[u8]>;

    /// Returns the CLCW with both link flags 0.
    fn word(&self) -> u32;

    /// Returns the report of FARM-1.
    fn state(&self) -> Report;

    /// Returns the settings with which the channel was created.
    fn made_with(&self) -> &Settings;

    /// Returns the number of events, and the number of data fields that wait.
    fn events_and_fields(&self) -> (u64, usize);

    /// Returns the number of packets of an application that wait, or `None` if the application has no queue.
    fn packets(&self, apid: u16) -> Option<usize>;

    /// Returns the number of units of a MAP that wait, or `None` if the MAP isn't chosen.
    fn whole_units(&self, map: u8) -> Option<usize>;
}

impl<J: Journal> Form for ChannelWith<J> {
    fn made(alloc: Global, settings: Settings) -> Result<ChannelWith<J>, SettingsFault> {
        ChannelWith::new(alloc, settings)
    }

    fn bring(&mut self, frame: &Frame) -> Result<FrameReply, NoMemory> {
        self.frame(frame)
    }

    fn let_out(&mut self) -> Result<Delivery, ReleaseFault> {
        self.release()
    }

    fn take_packet(&mut self, _: Global, apid: u16) -> Result<Octets, TakeFault> {
        Ok(Octets::from(self.take(apid)?))
    }

    fn take_whole(&mut self, _: Global, map: u8) -> Result<Octets, TakeUnitFault> {
        Ok(Octets::from(self.take_unit(map)?))
    }

    fn lent_packet(&self, apid: u16) -> Option<&[u8]> {
        self.oldest(apid)
    }

    fn lent_whole(&self, map: u8) -> Option<&[u8]> {
        self.oldest_unit(map)
    }

    fn word(&self) -> u32 {
        self.clcw(NO_FLAG)
    }

    fn state(&self) -> Report {
        self.report()
    }

    fn made_with(&self) -> &Settings {
        self.settings()
    }

    fn events_and_fields(&self) -> (u64, usize) {
        (self.events(), self.buffered())
    }

    fn packets(&self, apid: u16) -> Option<usize> {
        self.queued(apid)
    }

    fn whole_units(&self, map: u8) -> Option<usize> {
        self.units(map)
    }
}

// Returns as many zeros as the item has octets, or none if there is no item. Returns `None` if memory runs out.
fn room_for(alloc: Global, item: Option<&[u8]>) -> Option<Vec<u8>> {
    vec![in alloc; 0; item.map_or(0, |item| item.len())].ok()
}

impl Form for FixedChannel {
    fn made(alloc: Global, settings: Settings) -> Result<FixedChannel, SettingsFault> {
        FixedChannel::new(alloc, settings)
    }

    fn bring(&mut self, frame: &Frame) -> Result<FrameReply, NoMemory> {
        Ok(self.frame(frame))
    }

    fn let_out(&mut self) -> Result<Delivery, ReleaseFault> {
        match self.release() {
            Ok(delivery) => Ok(delivery),
            Err(NothingReleased::Empty) => Err(ReleaseFault::Empty),
        }
    }

    fn take_packet(&mut self, alloc: Global, apid: u16) -> Result<Octets, TakeFault> {
        let mut item = room_for(alloc, self.oldest(apid)).ok_or(TakeFault::NoMemory)?;
        match self.take(apid, &mut item) {
            Ok(_) => Ok(Octets::from(item)),
            Err(NothingTaken::NoQueue) => Err(TakeFault::NoQueue),
            Err(NothingTaken::Empty) => Err(TakeFault::Empty),
            Err(NothingTaken::NoRoom(_)) => Err(TakeFault::NoMemory),
        }
    }

    fn take_whole(&mut self, alloc: Global, map: u8) -> Result<Octets, TakeUnitFault> {
        let mut item = room_for(alloc, self.oldest_unit(map)).ok_or(TakeUnitFault::NoMemory)?;
        match self.take_unit(map, &mut item) {
            Ok(_) => Ok(Octets::from(item)),
            Err(NoUnitTaken::NoMap) => Err(TakeUnitFault::NoMap),
            Err(NoUnitTaken::Empty) => Err(TakeUnitFault::Empty),
            Err(NoUnitTaken::NoRoom(_)) => Err(TakeUnitFault::NoMemory),
        }
    }

    fn lent_packet(&self, apid: u16) -> Option<&[u8]> {
        self.oldest(apid)
    }

    fn lent_whole(&self, map: u8) -> Option<&[u8]> {
        self.oldest_unit(map)
    }

    fn word(&self) -> u32 {
        self.clcw(NO_FLAG)
    }

    fn state(&self) -> Report {
        self.report()
    }

    fn made_with(&self) -> &Settings {
        self.settings()
    }

    fn events_and_fields(&self) -> (u64, usize) {
        (self.events(), self.buffered())
    }

    fn packets(&self, apid: u16) -> Option<usize> {
        self.queued(apid)
    }

    fn whole_units(&self, map: u8) -> Option<usize> {
        self.units(map)
    }
}
