//! Two workers meet at a gate while each holds the lock of its list's channel. A worker that waits in a gate holds the
//! lock of this channel, and of no other.

ghost use Rattle.std.specs.Prelude.{◌≡◌, All, length};
ghost use Rattle.tc_station.specs.Tally.{IsOurs};

use super::*;
use std::sync::atomic::{AtomicBool, Ordering};
use std::thread::{Threads, join, yield_now};
use tc_cli::parallel_script;
use tc_station::{Gate, Job, Order, WorkList};
use tc_status::Watcher;

// A gate at which the worker of channel 1 and the worker of another channel wait for each other, for at most `turns`
// turns. A worker that doesn't see the other in that time sets `ran_out`.
#[derive(Drop)]
struct Meeting {
    turns: u32,
    first_came: AtomicBool,
    second_came: AtomicBool,
    ran_out: AtomicBool,
}

impl Meeting {
    fn new(turns: u32) -> Meeting {
        Meeting {
            turns,
            first_came: AtomicBool::new(false),
            second_came: AtomicBool::new(false),
            ran_out: AtomicBool::new(false),
        }
    }

    // Returns whether a worker came to the gate for channel 1, and whether one came for another channel.
    fn came(&self) -> (bool, bool) {
        (
            self.first_came.load(Ordering::SeqCst),
            self.second_came.load(Ordering::SeqCst),
        )
    }

    fn has_run_out(&self) -> bool {
        self.ran_out.load(Ordering::SeqCst)
    }

    fn meet(&self, own: &AtomicBool, other: &AtomicBool) {
        own.store(true, Ordering::SeqCst);
        if !comes_true(other, self.turns) {
            self.ran_out.store(true, Ordering::SeqCst);
        }
    }
}

impl Gate for Meeting {
    fn pass(&self, vcid: u8) {
        if vcid == 1 {
            self.meet(&self.first_came, &self.second_came);
        } else {
            self.meet(&self.second_came, &self.first_came);
        }
    }
}

// Waits for the flag, for at most `turns` turns of a loop, and returns whether it was set in that time.
fn comes_true(flag: &AtomicBool, turns: u32) -> bool {
    for turn in 0..turns {
        if flag.load(Ordering::SeqCst) {
            return true;
        }
        if turn % 1024 == 1023 {
            yield_now();
        }
    }
    false
}

// Creates a list of one job, which unlocks the channel by a frame with this third octet.
fn unlock(rt: &impl Abort, alloc: Global, vcid: u8, third: u8) -> WorkList {
    let octets = [0x30, 0x2a, third, 0x05, 0x00, 0x00];
    let job = Job {
        line: 1,
        order: Order::Bring(octets_of(alloc, &octets).expect(rt, "octets")),
    };
    WorkList {
        vcid,
        jobs: Items::from(list_of(alloc, job).expect(rt, "a list")),
    }
}

// Creates a list with an Unlock for each channel.
fn two_unlocks(rt: &impl Abort, alloc: Global) -> [WorkList; 2] {
    [unlock(rt, alloc, 1, 0x04), unlock(rt, alloc, 2, 0x08)]
}

// Creates a station with channels 1 and 2, and `n` operators.
pub(super) fn new_operator_list(rt: &impl Abort, alloc: Global, n: u16) -> (Station, Vec<Operator>)
    ensures ours { All (IsOurs result.0) result.1.items }
    ensures number { length result.1.items ≡ n }
{
    let mut station = station_of_two(rt, alloc, 1);
    let operators = station.operators(n).expect(rt, "operators");
    (station, operators)
}

// Carries out the lists, and checks that memory didn't run out.
pub(super) fn do_lists<R: Threads + Wait + Sync + Abort, G: Gate + Sync>(
    rt: &R,
    gate: &G,
    station: &Station,
    operators: &mut Vec<Operator>,
    lists: &[WorkList],
)
    requires as_many { length operators.old.items ≡ length lists.now }
    requires ours { All (IsOurs station.now) operators.old.items }
    ensures { All (IsOurs station.now) operators.new.items }
{
    let done = station.work(rt, gate, operators, lists);
    assert!(rt; done == Ok(()));
}

#[test]
fn workers_of_two_channels_meet(rt: HostRuntime) {
    let lists = two_unlocks(&rt, rt.alloc());
    let (station, mut operators) = new_operator_list(&rt, rt.alloc(), 2);
    let gate = Meeting::new(100_000_000);
    do_lists(&rt, &gate, &station, &mut operators, &lists);
    assert!(rt; gate.came() == (true, true));
    assert!(rt; !gate.has_run_out());
    let channels = closed(&rt, station, operators);
    assert_eq!(rt; channels.len(), 2);
    assert_eq!(rt; channels[0].journal().len(), 1);
    assert_eq!(rt; channels[1].journal().len(), 1);
}

// A script with two channels, and with frames of Type-AD and of Type-BD. Channel 2 is set up first, but the final
// report is in rising order of virtual channel ids.
const SCRIPT: &str =
    "channel 2 10 2 255\nqueue 2 7 3\nchannel 1 10 1 0\nqueue 1 5 1\nframe 002a080cffc01007c0000000bb\nframe 202a040c00c01005c0000000aa\nrelease 2\nframe 002a040c00c01005c0000000aa\n";

const REPORT: &str =
    "final 1 01040201 events 2 buffered 1\nqueue 1 5 1\nfinal 2 01080000 events 2 buffered 0\nqueue 2 7 1\n";

#[test]
fn workers_of_a_script_meet(rt: HostRuntime) {
    let gate = Meeting::new(100_000_000);
    let mut report: Vec<u8> = Vec::new(rt.alloc());
    let mut reader = SCRIPT.as_bytes();
    let done = parallel_script(&rt, rt.alloc(), &gate, 42, &mut reader, &mut report);
    assert_eq!(rt; done, Ok(()));
    assert_eq!(rt; report.as_slice(), REPORT.as_bytes());
    assert!(rt; gate.came() == (true, true));
    assert!(rt; !gate.has_run_out());
}

// A gate at which the worker of channel 1 sets `inside`, and then waits for a report, for at most `turns` turns. If the
// report comes in that time, this worker sets `was_reported`. Other workers wait for `inside`, for at most as long.
#[derive(Drop)]
struct Inside {
    turns: u32,
    inside: AtomicBool,
    reported: AtomicBool,
    was_reported: AtomicBool,
}

impl Inside {
    fn new(turns: u32) -> Inside {
        Inside {
            turns,
            inside: AtomicBool::new(false),
            reported: AtomicBool::new(false),
            was_reported: AtomicBool::new(false),
        }
    }

    fn report(&self) {
        self.reported.store(true, Ordering::SeqCst);
    }

    fn was_reported(&self) -> bool {
        self.was_reported.load(Ordering::SeqCst)
    }
}

impl Gate for Inside {
    fn pass(&self, vcid: u8) {
        if vcid == 1 {
            self.inside.store(true, Ordering::SeqCst);
            if comes_true(&self.reported, self.turns) {
                self.was_reported.store(true, Ordering::SeqCst);
            }
        } else {
            comes_true(&self.inside, self.turns);
        }
    }
}

// Waits until the watcher of channel 2 shows that the channel was unlocked, and then reports to the gate. The wait has
// at most 100,000,000 turns.
fn report_the_second(station: &Station, watcher: &mut Watcher, gate: &Inside) {
    for turn in 0..100_000_000u32 {
        if station.watch(watcher, NO_FLAG) == 0x01080200 {
            gate.report();
            return;
        }
        if turn % 1024 == 1023 {
            yield_now();
        }
    }
}

#[test]
fn a_channel_is_worked_while_the_lock_of_another_is_held(rt: HostRuntime) {
    let lists = two_unlocks(&rt, rt.alloc());
    let (station, mut operators) = new_operator_list(&rt, rt.alloc(), 2);
    let mut watcher = station.watcher(&rt, 2).expect(&rt, "a watcher");
    let gate = Inside::new(100_000_000);
    join(
        &rt,
        || do_lists(&rt, &gate, &station, &mut operators, &lists),
        || report_the_second(&station, &mut watcher, &gate),
    );
    assert!(rt; gate.was_reported());
}

// Waits until the worker of channel 1 is inside the gate, creates a watcher of channel 1, and then reports to the gate.
fn report_a_watcher(rt: &impl Wait, station: &Station, gate: &Inside) {
    if comes_true(&gate.inside, 100_000_000) && station.watcher(rt, 1).is_ok() {
        gate.report();
    }
}

// A watcher is created under the lock. The worker holds the lock while it is inside, so the report comes after the
// worker has left the gate.
#[test]
fn who_passes_holds_the_lock(rt: HostRuntime) {
    let lists = two_unlocks(&rt, rt.alloc());
    let (station, mut operators) = new_operator_list(&rt, rt.alloc(), 2);
    let gate = Inside::new(20_000_000);
    join(
        &rt,
        || do_lists(&rt, &gate, &station, &mut operators, &lists),
        || report_a_watcher(&rt, &station, &gate),
    );
    assert!(rt; gate.reported.load(Ordering::SeqCst));
    assert!(rt; !gate.was_reported());
}
