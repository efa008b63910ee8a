//! A station, an operator and a watcher at work on one frame. This is the example of docs/howto/library.md.
//!
//! The program prints whether the frame was accepted, how many packets were queued, the length of the packet that the
//! frame brought, the CLCW after the frame, and the number of events in the channel's journal at the end.
#![tactic(auto)]

#[cfg(test)]
mod tests;

use anyhow::Result;
use std::alloc::Global;
use std::process::ExitCode;
use std::sync::Wait;
use tc_channel::{Items, QueueSetting, Settings};
use tc_link::Link;
use tc_station::Station;

/// A frame of Type-AD for channel 1 of spacecraft 42, with N(S) 0 and a packet of application 5 in one segment.
const FRAME: &[u8] = b"\x00\x2a\x04\x0c\x00\xc0\x10\x05\xc0\x00\x00\x00\xaa";

/// The results of the calls on the station.
#[derive(Debug, Drop)]
struct Seen {
    accepted: bool,
    queued: u32,
    packet: Vec<u8>,
    word: u32,
    /// The number of events in the channel's journal, if the station was closed.
    events: Option<usize>,
}

fn main(rt: HostRuntime) -> ExitCode {
    match print(&rt) {
        Ok(()) => ExitCode::SUCCESS,
        Err(error) => {
            let _ = eprintln!(rt; "{error:#}");
            ExitCode::FAILURE
        }
    }
}

fn print<R: Wait + AllocGlobal + Print>(rt: &R) -> Result<()> {
    let seen = receive(rt, rt.alloc(), FRAME)?;
    println!(rt; "accepted {}, queued {}", seen.accepted, seen.queued)?;
    println!(rt; "packet of {} octets", seen.packet.len())?;
    println!(rt; "clcw {:08x}", seen.word)?;
    if let Some(events) = seen.events {
        println!(rt; "journal of {events} events")?;
    }
    Ok(())
}

// Receives one frame. The page shows the lines between the two marks, and checks/pages compares them.
fn receive(rt: &impl Wait, alloc: Global, octets: &[u8]) -> Result<Seen> {
    // the page: from here
    let queues = Items::from(vec![in alloc;
        QueueSetting {
            apid: 5,
            capacity: 1
        },
    ]?);
    let maps = Items::from(Vec::new(alloc)); // no MAP whose units are delivered whole
    let settings = Settings {
        vcid: 1,
        width: 10,
        buffer: 1,
        first: 0,
        segmented: true,
        queues,
        maps,
    };
    let mut station = Station::new(alloc, 42, vec![in alloc; settings]?)?;
    let mut operators = station.operators(1)?; // one for each thread
    let operator = &mut operators[0];
    let mut watcher = station.watcher(rt, 1)?;
    let brought = station.bring(rt, operator, octets)?; // the event, and whether it was accepted
    let delivery = station.release(rt, operator, 1)?; // how many packets were queued
    let packet = station.take(rt, operator, 1, 5)?;
    let word = station.watch(
        &mut watcher,
        Link {
            no_rf: false,
            no_bit_lock: false,
        },
    );
    station.meet(rt, operator, &mut watcher, 1); // the CLCW that was read is then that of a place in the journal
    let channels = station.close_together(operators).ok();
    // the page: to here
    let channel = channels.as_ref().and_then(|channels| channels.first());
    Ok(Seen {
        accepted: brought.reply.act.accepted,
        queued: delivery.queued,
        packet,
        word,
        events: channel.map(|channel| channel.journal().len()),
    })
}
