//! Rounds on a bare channel of any form.

use crate::command_line::{Kind, Load};
use crate::form::{Form, Oldest};
use crate::loads::{PACKETS, frames};
use crate::plan::LOADED;
use crate::score::Score;
use crate::sender::{Sender, Sent};
use crate::station::APID;
use anyhow::{Result, anyhow};
use std::alloc::Global;
use tc_channel::{Channel, CountingChannel, Octets};
use tc_fixed::FixedChannel;
use tc_link::read_frame;

// The number of packets for which the queue has room in the load with small packets. All packets of a data field of
// this load can wait in it.
const CAPACITY: u16 = 128;

const OLDEST: Oldest = Oldest::LentPacket(APID);

/// Runs `count` rounds of a load on a channel of this form, and prints their score.
pub(crate) fn print<R: AllocGlobal + Print>(
    rt: &R,
    kind: Kind,
    load: Load,
    count: u32,
) -> Result<()> {
    let score = match kind {
        Kind::Recorded => play::<Channel>(rt.alloc(), load, count)?,
        Kind::Counting => play::<CountingChannel>(rt.alloc(), load, count)?,
        Kind::Rooms => play::<FixedChannel>(rt.alloc(), load, count)?,
    };
    println!(rt; "{score:016x}")?;
    Ok(())
}

fn play<F: Form>(alloc: Global, load: Load, count: u32) -> Result<u64> {
    let mut plan = LOADED;
    if let Load::Packets = load {
        plan.queues = (1, CAPACITY);
    }
    let mut channel = F::made(alloc, plan.settings(alloc, 1)?)?;
    let mut score = Score { sum: 0 };
    let done = match load {
        Load::Packets => {
            let frames = frames(alloc, PACKETS, 0)?;
            units(&mut channel, &frames, PACKETS, count, &mut score)
        }
        Load::Segments => {
            let frames = frames(alloc, 1, u16::MAX)?;
            units(&mut channel, &frames, 1, count, &mut score)
        }
        _ => packets(
            &mut channel,
            &Sender::new(alloc, 1)?,
            load,
            count,
            &mut score,
        ),
    };
    if done.is_none() {
        return Err(anyhow!("a call was refused"));
    }
    score.add(channel.word_and_events().1);
    Ok(score.sum)
}

// Runs rounds in which a frame with a packet is brought, and the packet is taken. If the frame doesn't bypass the
// window, its data field is released before the take.
fn packets<F: Form>(
    channel: &mut F,
    sender: &Sender,
    load: Load,
    count: u32,
    score: &mut Score,
) -> Option<()> {
    for number in 0..count {
        let octet = (number % 256) as u8;
        if let Load::Bypassing = load {
            bring(channel, sender.octets(Sent::Bypassing(octet)), score)?;
        } else {
            bring(channel, sender.octets(Sent::Sequenced(octet)), score)?;
            score.add_delivery(channel.let_out().ok()?);
        }
        channel.take_oldest(OLDEST, score).ok()?;
    }
    Some(())
}

// Runs rounds in which the frames with the segments of a unit are brought, and its packets are taken.
fn units<F: Form>(
    channel: &mut F,
    frames: &[Octets],
    packets: usize,
    count: u32,
    score: &mut Score,
) -> Option<()> {
    for _ in 0..count {
        for frame in frames {
            bring(channel, frame.as_slice(), score)?;
        }
        for _ in 0..packets {
            channel.take_oldest(OLDEST, score).ok()?;
        }
    }
    Some(())
}

// Brings a frame that must be accepted.
#[inline(always)]
fn bring<F: Form>(channel: &mut F, octets: &[u8], score: &mut Score) -> Option<()> {
    let reply = channel.bring(&read_frame(octets).ok()?).ok()?;
    score.add_reply(1, reply);
    if reply.act.accepted { Some(()) } else { None }
}
