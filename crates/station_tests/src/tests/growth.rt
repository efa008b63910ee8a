//! Calls that may run out of memory. A call that runs out of memory must leave everything as it was, and is then made
//! again.

ghost use Rattle.std.specs.Prelude.{◌≡◌, ◌≤◌, All, length};
ghost use Rattle.tc_station.specs.Tally.{IsOurs};

use super::asking::{Watched, closed_together};
use super::replay::{Replay, Row, new_channel, play_counting, play_recorded, row_settings};
use super::*;
use std::thread::Threads;
use tc_channel::{NoMemory, SettingsFault};
use tc_link::read_frame;
use tc_station::{Desk, FreeGate, Job, Order, WorkFault, WorkList};
use tc_status::{Publisher, Watcher, meet};
use test_parts::room;

// Virtual channel 1 with queues of capacity 2 for APID 5 and for MAP 3.
const CHANNEL: Wanted<'static> = Wanted {
    queues: &[(5, 2)],
    maps: &[(3, 2)],
    ..WANTED
};

// The journal grows at the first and the fifth event. The fifth is a take, in which nothing else grows.
static PACKETS: Row<'static> = Row {
    name: "packets",
    wanted: &CHANNEL,
    script: "frame 002a040c00c01005c0000000aa\nclcw 1\nframe 002a040c01c01005c0000000aa\nclcw 1\nframe 002a040c00c01005c0000000aa\nrelease 1\nclcw 1\ntake 1 5\nframe 202a041300c01005c0000000aa1005c0010000bb\nclcw 1\ntake 1 5\ntake 1 5\ntake 1 5\ntake 1 6\nrelease 1\nclcw 1\n",
    answers: "frame 1 E1 accepted 1 queued 0 dropped 0 rest 0\nclcw 1 01040001\nframe 1 E2 accepted 0 queued 0 dropped 0 rest 0\nclcw 1 01041801\nframe 1 E4 accepted 0 queued 0 dropped 0 rest 0\nrelease 1 queued 1 dropped 0 rest 0\nclcw 1 01040801\ntake 1 5 1005c0000000aa\nframe 1 E6 accepted 1 queued 2 dropped 0 rest 0\nclcw 1 01040a01\ntake 1 5 1005c0000000aa\ntake 1 5 1005c0010000bb\nrefused empty\nrefused no queue\nrefused empty\nclcw 1 01040a01\n",
};

// The fifth event is the take of a unit, in which nothing else grows.
static UNITS: Row<'static> = Row {
    name: "units of a chosen MAP",
    wanted: &CHANNEL,
    script: "frame 002a040700c3aabb\nrelease 1\nframe 202a040700c3aabb\nclcw 1\nunit 1 3\nunit 1 3\nunit 1 3\nunit 1 4\nclcw 1\n",
    answers: "frame 1 E1 accepted 1 queued 0 dropped 0 rest 0\nrelease 1 queued 1 dropped 0 rest 0\nframe 1 E6 accepted 1 queued 1 dropped 0 rest 0\nclcw 1 01040201\nunit 1 3 aabb\nunit 1 3 aabb\nrefused empty\nrefused no map\nclcw 1 01040201\n",
};

#[test]
fn growth_of_each_call_of_a_station(rt: HostRuntime) {
    play_recorded(&rt, rt.alloc(), "Station", false, &PACKETS);
    play_recorded(&rt, rt.alloc(), "Station", false, &UNITS)
}

#[test]
fn growth_of_watched_frames(rt: HostRuntime) {
    play_recorded(&rt, rt.alloc(), "Watched station", true, &PACKETS)
}

#[test]
fn growth_of_each_call_of_a_counting_station(rt: HostRuntime) {
    play_counting(&rt, rt.alloc(), false, &PACKETS)
}

fn new_desk(rt: &(impl Abort + Print), alloc: Global, row: &Row) -> Desk {
    match Desk::new(alloc, row_settings(rt, alloc, row, 1)) {
        Ok(desk) => desk,
        Err(fault) => {
            let _ = println!(rt; "refused: Desk::new");
            assert_eq!(rt; fault, SettingsFault::NoMemory);
            let again = Desk::new(alloc, row_settings(rt, alloc, row, 1));
            again.expect(rt, "a desk")
        }
    }
}

// Plays a row on a desk with a watcher. The watcher requests no memory.
fn check_desk(rt: &(impl Wait + Abort + Print), alloc: Global, row: &Row) {
    let mut desk = new_desk(rt, alloc, row);
    let watcher = desk.watcher().expect(rt, "a watcher");
    let mut watched = Watched { desk, watcher };
    let mut replay = Replay::new(rt, alloc, row);
    replay.play(rt, "Desk", &mut watched, row);
    replay.check_journal(rt, watched.desk.channel().journal())
}

#[test]
fn growth_of_each_call_of_a_desk(rt: HostRuntime) {
    check_desk(&rt, rt.alloc(), &PACKETS);
    check_desk(&rt, rt.alloc(), &UNITS)
}

// The station closes with these operators alone. If a refused call had issued another operator, that operator would be
// missing.
#[test]
fn growth_of_operators_of_a_new_station(rt: HostRuntime) {
    let mut station = station_of_one(&rt, rt.alloc());
    let operators = new_operators(&rt, &mut station, 3);
    for operator in &operators {
        assert!(rt; operator.count(1) == Some(0));
    }
    check_events(&rt, &closed(&rt, station, operators), &[0])
}

fn new_publisher(rt: &(impl Abort + Print), alloc: Global, channel: &Channel) -> Publisher
    ensures { result.published ≡ channel.now }
{
    match Publisher::new(alloc, channel) {
        Ok(publisher) => publisher,
        Err(NoMemory) => {
            let _ = println!(rt; "refused: Publisher::new");
            assert_eq!(rt; channel.clcw(NO_FLAG), 0x01040000);
            Publisher::new(alloc, channel).expect(rt, "a publisher")
        }
    }
}

// A channel, its publisher, and a watcher that was created before its first frame.
#[derive(Drop)]
struct Published {
    channel: Channel,
    publisher: Publisher,
    old: Watcher,
    ghost reported: { publisher.published ≡ channel },
    ghost same: { old.board ≡ publisher.board },
}

impl Published {
    fn new(rt: &(impl Abort + Print), alloc: Global) -> Published {
        let channel = new_channel(rt, alloc, &PACKETS, 1);
        let mut publisher = new_publisher(rt, alloc, &channel);
        // A watcher requests no memory.
        let old = publisher.watcher().expect(rt, "a watcher");
        Published {
            channel,
            publisher,
            old,
        }
    }

    // Brings a frame that must lead to the event of FARM-1 with this number. The watcher must read the first word
    // before the publication, and the second one after it.
    fn frame(&mut self, rt: &impl Abort, octets: &[u8], event: u8, words: [u32; 2]) {
        let frame = read_frame(octets).expect(rt, "a frame");
        let reply = match self.channel.frame(&frame) {
            Ok(reply) => reply,
            Err(NoMemory) => self.channel.frame(&frame).expect(rt, "a reply"),
        };
        assert_eq!(rt; reply.act.event, event);
        assert_eq!(rt; self.old.read(), words[0], "before the publication");
        self.publisher.publish(&self.channel);
        assert_eq!(rt; self.old.read(), words[1]);
    }

    // Checks that the watcher reads this word, and that a watcher that is created now reads it, too.
    fn check(&mut self, rt: &impl Abort, word: u32) {
        assert_eq!(rt; self.old.read(), word);
        let mut new = self.publisher.watcher().expect(rt, "a watcher");
        assert_eq!(rt; new.read(), word);
    }

    fn meet(&mut self) {
        meet(&mut self.publisher, &mut self.old);
    }
}

#[test]
fn growth_of_a_board_whose_watchers_read_what_was_published_last(rt: HostRuntime) {
    let mut published = Published::new(&rt, rt.alloc());
    published.check(&rt, 0x01040000);
    published.frame(&rt, &FRAME, 1, [0x01040000, 0x01040001]);
    published.frame(&rt, &NEXT, 2, [0x01040001, 0x01041801]);
    published.check(&rt, 0x01041801);
    published.meet();
    published.check(&rt, 0x01041801);
}

// Creates a list of two Unlocks, on lines 5 and 6, even if memory is refused once.
fn two_unlocks(rt: &impl Abort, alloc: Global) -> WorkList {
    let mut jobs = room(alloc, 2).expect(rt, "room");
    for line in 5..7 {
        let order = Order::Bring(octets_of(alloc, &UNLOCK).expect(rt, "octets"));
        jobs.push(Job { line, order }).expect(rt, "room");
    }
    let jobs = Items::from(jobs);
    WorkList { vcid: 1, jobs }
}

// Returns the number of Unlocks that were answered. It follows from the lowest line for which memory was refused.
fn answered(rt: &(impl Abort + Print), done: Result<(), WorkFault>) -> u64
    ensures { result ≤ 2 }
{
    match done {
        Ok(()) => 2,
        Err(WorkFault::NoMemory { line: 5 }) => {
            let _ = println!(rt; "refused: work, first line");
            0
        }
        Err(fault) => {
            let _ = println!(rt; "refused: work, second line");
            assert_eq!(rt; fault, WorkFault::NoMemory { line: 6 });
            1
        }
    }
}

// Tries to carry out the lists, and returns the number of Unlocks that were answered.
fn try_lists<R: Threads + Wait + Sync + Abort + Print>(
    rt: &R,
    station: &Station,
    operators: &mut Vec<Operator>,
    lists: &[WorkList],
) -> u64
    requires as_many { length operators.old.items ≡ length lists.now }
    requires ours { All (IsOurs station.now) operators.old.items }
    ensures kept { All (IsOurs station.now) operators.new.items }
    ensures number { length operators.new.items ≡ length operators.old.items }
    ensures most { result ≤ 2 }
{
    answered(rt, station.work(rt, &FreeGate, operators, lists))
}

#[test]
fn growth_of_work(rt: HostRuntime) {
    let alloc = rt.alloc();
    let lists = [two_unlocks(&rt, alloc)];
    let mut station = station_of_one(&rt, alloc);
    let mut operators = new_operators(&rt, &mut station, 1);
    let first = try_lists(&rt, &station, &mut operators, &lists);
    assert!(rt; operators[0].count(1) == Some(first));
    // Memory is refused only once, so this call carries out all lists.
    let second = try_lists(&rt, &station, &mut operators, &lists);
    assert!(rt; first == 2 || second == 2);
    check_events(
        &rt,
        &closed_together(&rt, station, operators),
        &[first + second],
    )
}
