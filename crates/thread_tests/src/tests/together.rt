//! Two threads work on two channels, which are then closed together.

ghost use Rattle.std.specs.Prelude.{All};
ghost use Rattle.tc_station.specs.Tally.{IsOurs};

use super::gate::{do_lists, new_operator_list};
use super::*;
use tc_station::{FreeGate, Job, Order, WorkList};

// The third octets of the frames for virtual channels 1 and 2.
const TO_CHANNEL_1: u8 = 0x04;

const TO_CHANNEL_2: u8 = 0x08;

// The number of frames that each worker brings to each channel.
const FRAMES: u8 = 200;

// Returns a Type-BD frame for the channel that this third octet names. Its data field names the worker and the frame.
fn frame(third: u8, worker: u8, number: u8) -> [u8; 8] {
    [0x20, 0x2a, third, 0x07, 0x00, 0xc0, worker, number]
}

fn bring(rt: &impl Abort, alloc: Global, octets: &[u8]) -> Job {
    Job {
        line: 1,
        order: Order::Bring(octets_of(alloc, octets).expect(rt, "octets")),
    }
}

// Creates the list of jobs that bring the worker's frames, for channel 1 and for channel 2 in turn.
fn frames_of(rt: &impl Abort, alloc: Global, worker: u8) -> WorkList {
    let mut jobs = Vec::new(alloc);
    for number in 0..FRAMES {
        let first = bring(rt, alloc, &frame(TO_CHANNEL_1, worker, number));
        jobs.push(first).expect(rt, "jobs");
        let second = bring(rt, alloc, &frame(TO_CHANNEL_2, worker, number));
        jobs.push(second).expect(rt, "jobs");
    }
    WorkList {
        vcid: worker,
        jobs: Items::from(jobs),
    }
}

// Closes a station, and checks that this succeeds.
fn closed_together(rt: &impl Abort, station: Station, operators: Vec<Operator>) -> Vec<Channel>
    requires { All (IsOurs station) operators.items }
{
    match station.close_together(operators) {
        Ok(channels) => channels,
        Err(_) => panic!(rt; "not closed"),
    }
}

// Checks that the journal is a merge of both workers' frames for this channel: it has all frames of each worker, in
// order, and nothing else.
fn check_merge(rt: &impl Abort, journal: &[Event], third: u8) {
    let mut one: u8 = 0;
    let mut two: u8 = 0;
    for event in journal {
        if is_frame(event, &frame(third, 1, one)) {
            one = one.saturating_add(1);
        } else {
            assert!(rt; is_frame(event, &frame(third, 2, two)));
            two = two.saturating_add(1);
        }
    }
    assert_eq!(rt; one, FRAMES);
    assert_eq!(rt; two, FRAMES);
}

#[test]
fn two_threads_on_two_channels(rt: HostRuntime) {
    let alloc = rt.alloc();
    let lists = [frames_of(&rt, alloc, 1), frames_of(&rt, alloc, 2)];
    let (station, mut operators) = new_operator_list(&rt, alloc, 2);
    do_lists(&rt, &FreeGate, &station, &mut operators, &lists);
    let channels = closed_together(&rt, station, operators);
    assert_eq!(rt; channels.len(), 2);
    assert_eq!(rt; channels[0].settings().vcid, 1);
    assert_eq!(rt; channels[1].settings().vcid, 2);
    check_merge(&rt, channels[0].journal(), TO_CHANNEL_1);
    check_merge(&rt, channels[1].journal(), TO_CHANNEL_2);
}
