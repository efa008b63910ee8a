//! The forms of a channel, which differ in whether the channel keeps its journal and in when it requests memory.

use crate::score::Score;
use crate::seen::{NO_FLAG, call_clcw, call_drop_oldest_unit, call_new, call_take};
use anyhow::{Result, anyhow};
use std::alloc::Global;
use tc_channel::{ChannelWith, Delivery, FrameReply, Journal, Settings};
use tc_fixed::{FixedChannel, storage};
use tc_link::Frame;

/// The oldest item of a queue.
#[derive(Clone, Copy)]
pub(crate) enum Oldest {
    /// The packet of an application.
    Packet(u16),
    /// The packet of an application. If the form can lend the packet, it is read in its room and then dropped.
    LentPacket(u16),
    /// The unit of a MAP.
    Unit(u8),
}

/// A channel of any form, with its calls.
pub(crate) trait Form: Drop {
    /// Returns the name of the bound on the memory of a channel with these settings, and the number of bytes.
    fn memory(settings: &Settings) -> (&'static str, u64);

    /// Creates the channel with these settings.
    fn made(alloc: Global, settings: Settings) -> Result<Self>;

    /// Brings a frame to the channel.
    fn bring(&mut self, frame: &Frame) -> Result<FrameReply>;

    /// Releases the oldest data field of the buffer.
    fn let_out(&mut self) -> Result<Delivery>;

    /// Takes an item, and adds the octets that are read of it to the score.
    fn take_oldest(&mut self, oldest: Oldest, score: &mut Score) -> Result<()>;

    /// Returns the CLCW, and the number of events.
    fn word_and_events(&self) -> (u32, u64);
}

// Adds the octets of an item to the score. If the item has more than 16 octets, only its first 16 octets, its length
// and its last octet are added.
#[inline(always)]
fn add(octets: &[u8], score: &mut Score) {
    match octets {
        [front @ .., last] if octets.len() > 16 => {
            score.add_packet(&front[..16.min(front.len())]);
            score.add(octets.len() as u64);
            score.add(u64::from(*last));
        }
        _ => score.add_packet(octets),
    }
}

impl<J: Journal> Form for ChannelWith<J> {
    fn memory(settings: &Settings) -> (&'static str, u64) {
        ("bound", settings.memory_bound())
    }

    fn made(alloc: Global, settings: Settings) -> Result<ChannelWith<J>> {
        Ok(ChannelWith::new(alloc, settings)?)
    }

    #[inline(always)]
    fn bring(&mut self, frame: &Frame) -> Result<FrameReply> {
        Ok(self.frame(frame)?)
    }

    #[inline(always)]
    fn let_out(&mut self) -> Result<Delivery> {
        Ok(self.release()?)
    }

    #[inline(always)]
    fn take_oldest(&mut self, oldest: Oldest, score: &mut Score) -> Result<()> {
        match oldest {
            Oldest::Packet(apid) | Oldest::LentPacket(apid) => add(&self.take(apid)?, score),
            Oldest::Unit(map) => add(&self.take_unit(map)?, score),
        }
        Ok(())
    }

    fn word_and_events(&self) -> (u32, u64) {
        (self.clcw(NO_FLAG), self.events())
    }
}

// Some calls here go through functions of `seen`, so that another program finds them in the machine code. Frames and
// releases don't, because `worst` also brings and releases frames before the call that it measures.
impl Form for FixedChannel {
    fn memory(settings: &Settings) -> (&'static str, u64) {
        ("storage", storage(settings))
    }

    fn made(alloc: Global, settings: Settings) -> Result<FixedChannel> {
        Ok(call_new(alloc, settings)?)
    }

    #[inline(always)]
    fn bring(&mut self, frame: &Frame) -> Result<FrameReply> {
        Ok(self.frame(frame))
    }

    #[inline(always)]
    fn let_out(&mut self) -> Result<Delivery> {
        Ok(self.release()?)
    }

    #[inline(always)]
    fn take_oldest(&mut self, oldest: Oldest, score: &mut Score) -> Result<()> {
        let is_taken = match oldest {
            Oldest::Packet(apid) => call_take(self, apid, &mut [0; 1_024]).is_ok(),
            Oldest::LentPacket(apid) => {
                if let Some(octets) = self.oldest(apid) {
                    add(octets, score);
                }
                self.drop_oldest(apid)
            }
            Oldest::Unit(map) => call_drop_oldest_unit(self, map),
        };
        if is_taken {
            return Ok(());
        }
        Err(anyhow!("nothing to take"))
    }

    fn word_and_events(&self) -> (u32, u64) {
        (call_clcw(self), self.events())
    }
}
