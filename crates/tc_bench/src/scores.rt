//! The scores of the load.

use crate::operator_list::OperatorList;
use crate::score::Score;
use crate::seen::NO_FLAG;
use crate::sender::Sender;
use crate::station::APID;
use crate::workers::work;
use anyhow::{Result, anyhow};
use std::alloc::Global;
use std::sync::Wait;
use std::thread::Threads;
use tc_channel::Channel;

// The name of a score, its virtual channels, the number of rounds on each channel, and a flag for workers. If the flag
// is set, each channel has a worker that makes its rounds. Otherwise one thread makes a round on each channel in turn.
type Row = (&'static str, &'static [u8], u32, bool);

static ROWS: [Row; 3] = [
    ("one channel", &[1], 20_000, false),
    ("four channels", &[1, 2, 3, 63], 5_000, false),
    ("four workers", &[1, 2, 3, 63], 5_000, true),
];

/// Runs the load of each row, and prints its score.
pub(crate) fn print<R: Threads + Wait + Sync + AllocGlobal + Print>(rt: &R) -> Result<()> {
    for (what, vcids, rounds, by_workers) in &ROWS {
        let score = score_of(rt, rt.alloc(), vcids, *rounds, *by_workers)?;
        println!(rt; "{what} {score:016x}")?;
    }
    Ok(())
}

// Creates a sender for each of the virtual channels, in order.
fn senders(alloc: Global, vcids: &[u8]) -> Result<Vec<Sender>> {
    let mut senders = Vec::with_capacity(alloc, vcids.len())?;
    for vcid in vcids {
        senders.push(Sender::new(alloc, *vcid)?)?;
    }
    Ok(senders)
}

// Returns the score of a row. Without workers, each answer in turn adds to it. In the end the reports of the closed
// channels add to it.
fn score_of<R: Threads + Wait + Sync>(
    rt: &R,
    alloc: Global,
    vcids: &[u8],
    rounds: u32,
    by_workers: bool,
) -> Result<u64> {
    let senders = senders(alloc, vcids)?;
    let mut score = Score { sum: 0 };
    let channels = if by_workers {
        work(rt, alloc, vcids, &senders, rounds)?
    } else {
        in_turn(
            rt,
            alloc,
            OperatorList::new(alloc, vcids)?,
            &senders,
            rounds,
            &mut score,
        )?
    };
    add_channels(&mut score, &channels)?;
    Ok(score.sum)
}

fn in_turn(
    rt: &impl Wait,
    alloc: Global,
    mut operator_list: OperatorList,
    senders: &[Sender],
    rounds: u32,
    score: &mut Score,
) -> Result<Vec<Channel>> {
    for number in 0..rounds {
        for sender in senders {
            operator_list.make_round(rt, sender, (number % 256) as u8, score)?;
        }
    }
    operator_list.close(alloc)
}

// Adds the reports of closed channels.
fn add_channels(score: &mut Score, channels: &[Channel]) -> Result<()> {
    for channel in channels {
        let Some(queued) = channel.queued(APID) else {
            return Err(anyhow!("no queue"));
        };
        score.add(u64::from(channel.settings().vcid));
        score.add(u64::from(channel.clcw(NO_FLAG)));
        score.add(channel.journal().len() as u64);
        score.add(channel.buffered() as u64);
        score.add(queued as u64);
    }
    Ok(())
}
