//! The load for workers, as a list of jobs for each channel.

ghost use Rattle.std.specs.Prelude.{◌≡◌, All, length};
ghost use Rattle.tc_station.specs.Tally.{IsOurs};

use crate::sender::{Sender, Sent, second};
use crate::station::{APID, new_station};
use anyhow::Result;
use std::alloc::{AllocError, Global};
use std::sync::Wait;
use std::thread::Threads;
use tc_channel::{Channel, Items, Octets};
use tc_station::{FreeGate, Job, Operator, Order, Station, WorkList};

/// Runs `rounds` rounds on each channel, by a worker for each channel, and then closes the station.
pub(crate) fn work<R: Threads + Wait + Sync>(
    rt: &R,
    alloc: Global,
    vcids: &[u8],
    senders: &[Sender],
    rounds: u32,
) -> Result<Vec<Channel>> {
    let lists = work_lists(alloc, senders, rounds)?;
    let mut station = new_station(alloc, vcids)?;
    let mut operators = station.operators(u16::try_from(lists.len())?)?;
    do_lists(rt, &station, &mut operators, &lists)?;
    Ok(station.close(operators)?)
}

// Carries out each list through the operator at the same place of the list of operators.
fn do_lists<R: Threads + Wait + Sync>(
    rt: &R,
    station: &Station,
    operators: &mut Vec<Operator>,
    lists: &[WorkList],
) -> Result<()>
    requires as_many { length operators.old.items ≡ length lists.now }
    requires ours { All (IsOurs station.now) operators.old.items }
    ensures { All (IsOurs station.now) operators.new.items }
{
    Ok(station.work(rt, &FreeGate, operators, lists)?)
}

fn work_lists(alloc: Global, senders: &[Sender], rounds: u32) -> Result<Vec<WorkList>, AllocError> {
    let mut lists = Vec::with_capacity(alloc, senders.len())?;
    for sender in senders {
        let mut jobs = Vec::new(alloc);
        for number in 0..rounds {
            add_round(alloc, &mut jobs, sender, number)?;
        }
        lists.push(WorkList {
            vcid: sender.vcid,
            jobs: Items::from(jobs),
        })?;
    }
    Ok(lists)
}

// Adds the jobs of a round. The number of the round serves as the line number of its jobs.
fn add_round(
    alloc: Global,
    jobs: &mut Vec<Job>,
    sender: &Sender,
    line: u32,
) -> Result<(), AllocError> {
    let number = (line % 256) as u8;
    for sent in [Sent::Sequenced(number), second(number)] {
        let octets = Octets::copied(alloc, sender.octets(sent))?;
        let order = Order::Bring(octets);
        jobs.push(Job { line, order })?;
    }
    for order in [Order::Release, Order::Take(APID)] {
        jobs.push(Job { line, order })?;
    }
    Ok(())
}
