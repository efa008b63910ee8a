//! Six threads on one channel: two bring frames, one releases, one takes and two watch.
//!
//! Whatever the order of their calls was, a new channel gives the same answers to the events in the closed channel's
//! journal.

ghost use Rattle.std.specs.Prelude.{◌≡◌, ◌∷◌, [], All};
ghost use Rattle.std.specs.Thread.{IsSync};
ghost use Rattle.tc_station.specs.Tally.{IsOurs};

use super::*;
use std::thread::{Threads, for_each_mut, join, join_mut, yield_now};
use tc_channel::{Delivery, FrameReply};
use tc_link::read_clcw;
use tc_station::{ReleaseRefused, TakeRefused};
use tc_status::Watcher;

// The task that an operator repeats.
#[derive(Clone, Copy, PartialEq)]
enum Task {
    // Bringing the frames with N(S) 0 to 199.
    Bring,
    // Releasing 300 times.
    Release,
    // Taking packets for APID 5, 300 times.
    Take,
}

#[derive(Drop, PartialEq)]
enum Answer {
    Frame(FrameReply),
    Release(Delivery),
    Packet(Vec<u8>),
}

impl Answer {
    fn task(&self) -> Task {
        match self {
            Answer::Frame(_) => Task::Bring,
            Answer::Release(_) => Task::Release,
            Answer::Packet(_) => Task::Take,
        }
    }
}

// An operator of a station with virtual channel 1, its task, and the answers that it got, apart from refusals.
#[derive(Drop)]
struct Worker {
    task: Task,
    operator: Operator,
    answers: Vec<Answer>,
    ghost one: { operator.vcids ≡ 1 ∷ [] },
}

impl Worker {
    fn new(rt: &impl Abort, alloc: Global, station: &mut Station, task: Task) -> Worker
        requires { station.old.vcids ≡ 1 ∷ [] }
        ensures ours { IsOurs station.new result.operator }
        ensures same { (station.new.vcids ≡ station.old.vcids) × (station.new.locks ≡ station.old.locks) }
    {
        let mut operators = station.operators(1).expect(rt, "operators");
        let operator = operators.pop().expect(rt, "an operator");
        Worker {
            task,
            operator,
            answers: Vec::new(alloc),
        }
    }

    fn note(&mut self, answer: Answer) -> bool
        ensures { self.new.operator ≡ self.old.operator }
    {
        self.answers.push(answer).is_ok()
    }

    fn bring(&mut self, rt: &impl Wait, station: &Station, ns: u8) -> bool
        requires { IsOurs station.now self.old.operator }
        ensures { IsOurs station.now self.new.operator }
    {
        let octets = ad_frame(1, ns);
        match station.bring(rt, &mut self.operator, &octets) {
            Ok(brought) => self.note(Answer::Frame(brought.reply)),
            Err(_) => false,
        }
    }

    fn release(&mut self, rt: &impl Wait, station: &Station) -> bool
        requires { IsOurs station.now self.old.operator }
        ensures { IsOurs station.now self.new.operator }
    {
        match station.release(rt, &mut self.operator, 1) {
            Ok(delivery) => self.note(Answer::Release(delivery)),
            Err(refused) => refused == ReleaseRefused::Empty,
        }
    }

    fn take(&mut self, rt: &impl Wait, station: &Station) -> bool
        requires { IsOurs station.now self.old.operator }
        ensures { IsOurs station.now self.new.operator }
    {
        match station.take(rt, &mut self.operator, 1, 5) {
            Ok(packet) => self.note(Answer::Packet(packet)),
            Err(refused) => refused == TakeRefused::Empty,
        }
    }

    // Takes one turn of the task. Returns whether nothing was refused, except for an empty buffer or an empty queue.
    fn act(&mut self, rt: &impl Wait, station: &Station, turn: u16) -> bool
        requires { IsOurs station.now self.old.operator }
        ensures { IsOurs station.now self.new.operator }
    {
        match self.task {
            Task::Bring => self.bring(rt, station, (turn % 256) as u8),
            Task::Release => self.release(rt, station),
            Task::Take => self.take(rt, station),
        }
    }

    // Takes all turns of the task, and checks that `act` returns true for each.
    fn work(&mut self, rt: &(impl Abort + Wait), station: &Station)
        requires { IsOurs station.now self.old.operator }
        ensures { IsOurs station.now self.new.operator }
    {
        let turns = if self.task == Task::Bring { 200 } else { 300 };
        for turn in 0..turns {
            assert!(rt; self.act(rt, station, turn));
        }
    }
}

// Returns V(R) in the CLCW that the watcher reads next, or `None` if this CLCW isn't one of channel 1 with a FARM-B
// counter of 0.
fn next_number(station: &Station, watcher: &mut Watcher) -> Option<u8> {
    let status = read_clcw(station.watch(watcher, NO_FLAG))?;
    if status.vcid == 1 && status.farm_b == 0 {
        Some(status.vr)
    } else {
        None
    }
}

// Watches 300 times, and returns whether V(R) never fell.
fn never_falls(station: &Station, watcher: &mut Watcher) -> bool {
    let mut last = 0;
    for _ in 0..300 {
        match next_number(station, watcher) {
            Some(next) if next >= last => last = next,
            _ => return false,
        }
        yield_now();
    }
    true
}

// Creates four workers: two that bring, one that releases and one that takes.
fn four_workers(rt: &impl Abort, alloc: Global, station: &mut Station) -> Vec<Worker>
    requires { station.old.vcids ≡ 1 ∷ [] }
    ensures ours { All (λ w. IsOurs station.new w.operator) result.items }
    ensures same { station.new.vcids ≡ station.old.vcids }
{
    let one = Worker::new(rt, alloc, station, Task::Bring);
    let two = Worker::new(rt, alloc, station, Task::Bring);
    let releaser = Worker::new(rt, alloc, station, Task::Release);
    let taker = Worker::new(rt, alloc, station, Task::Take);
    vec![in alloc; one, two, releaser, taker].expect(rt, "a list")
}

fn new_watcher(rt: &(impl Abort + Wait), station: &Station) -> Watcher {
    station.watcher(rt, 1).expect(rt, "a watcher")
}

// Runs each worker in a thread of its own.
fn work_all<R: Abort + Threads + Wait + Sync>(rt: &R, station: &Station, workers: &mut [Worker])
    requires { All (λ w. IsOurs station.now w.operator) workers.old }
{
    for_each_mut(
        rt,
        workers,
        4,
        &|_, worker: &mut Worker| -> ()
            requires { IsOurs station.now worker.old.operator }
        { worker.work(rt, station) },
    );
}

// Runs both watchers, each in a thread of its own, and checks that V(R) falls for neither.
fn watch_both<R: Abort + Threads + Wait + Sync>(
    rt: &R,
    station: &Station,
    one: &mut Watcher,
    two: &mut Watcher,
) {
    let (first, second) = join(
        rt,
        || never_falls(station, one),
        || never_falls(station, two),
    );
    assert!(rt; first && second);
}

// Runs workers and watchers at the same time, each in a thread of its own.
fn all_at_once<R: Abort + Threads + Wait + Sync>(
    rt: &R,
    station: &Station,
    workers: &mut [Worker],
    one: &mut Watcher,
    two: &mut Watcher,
)
    requires { All (λ w. IsOurs station.now w.operator) workers.old }
{
    let mut first = || -> ()
        requires { IsSync R.row × All (λ w. IsOurs station.now w.operator) workers.now }
    { work_all(rt, station, workers) };
    let mut second = || watch_both(rt, station, one, two);
    join_mut(rt, &mut first, &mut second);
}

// Returns the sum of the events that all operators counted on channel 1.
fn counted(rt: &impl Abort, workers: &[Worker]) -> u64 {
    let mut sum: u64 = 0;
    for worker in workers {
        let count = worker.operator.count(1).expect(rt, "a count");
        sum = sum.checked_add(count).expect(rt, "a sum");
    }
    sum
}

fn let_out(rt: &impl Abort, channel: &mut Channel) -> Delivery {
    channel.release().expect(rt, "a delivery")
}

fn take(rt: &impl Abort, channel: &mut Channel, apid: u16) -> Vec<u8> {
    channel.take(apid).expect(rt, "a packet")
}

// Returns the answer of a channel to an event.
fn answer_to(rt: &impl Abort, channel: &mut Channel, event: &Event) -> Answer {
    match event {
        Event::Frame(octets) => {
            Answer::Frame(
                offer(channel, octets.as_slice())
                    .expect(rt, "a frame")
                    .expect(rt, "a reply"),
            )
        }
        Event::Release => Answer::Release(let_out(rt, channel)),
        Event::Take(apid) => Answer::Packet(take(rt, channel, *apid)),
        Event::TakeUnit(_) => panic!(rt; "a unit, which nobody takes"),
    }
}

// Checks that both channels have the same CLCW, and the same numbers of data fields and of packets for APID 5.
fn check_alike(rt: &impl Abort, channel: &Channel, closed: &Channel) {
    assert_eq!(rt; channel.clcw(NO_FLAG), closed.clcw(NO_FLAG));
    assert_eq!(rt; channel.buffered(), closed.buffered());
    assert!(rt; channel.queued(5) == closed.queued(5));
}

// Returns the answers of a new channel to the events of the closed channel's journal, and checks that both channels are
// then alike.
fn answers_again(rt: &impl Abort, alloc: Global, closed: &Channel) -> Vec<Answer> {
    let mut channel = Channel::new(alloc, settings(alloc, &CHANNEL).expect(rt, "settings")).expect(
        rt,
        "a channel",
    );
    let mut answers = Vec::new(alloc);
    for event in closed.journal() {
        let answer = answer_to(rt, &mut channel, event);
        answers.push(answer).expect(rt, "a list");
    }
    check_alike(rt, &channel, closed);
    answers
}

// Checks that the answers to this task, among all answers, are exactly the worker's answers, in order.
fn check_in_order(rt: &impl Abort, all: &[Answer], task: Task, got: &[Answer]) {
    let mut got = got.iter();
    for answer in all {
        if answer.task() == task {
            assert!(rt; Some(answer) == got.next());
        }
    }
    assert!(rt; got.next().is_none());
}

fn times(answers: &[Answer], wanted: &Answer) -> u32 {
    let mut times: u32 = 0;
    for answer in answers {
        if answer == wanted {
            times = times.saturating_add(1);
        }
    }
    times
}

// Checks that each reply to a frame comes as often among all answers as among those of the two workers that bring
// frames.
fn check_as_often(rt: &impl Abort, all: &[Answer], one: &[Answer], two: &[Answer]) {
    assert_eq!(rt; one.len(), 200);
    assert_eq!(rt; two.len(), 200);
    for answer in all {
        if answer.task() == Task::Bring {
            let got = times(one, answer).saturating_add(times(two, answer));
            assert_eq!(rt; times(all, answer), got);
        }
    }
}

// Checks that the journal has this frame twice.
fn check_frame(rt: &impl Abort, journal: &[Event], frame: &[u8]) {
    let mut times: u32 = 0;
    for event in journal {
        if is_frame(event, frame) {
            times = times.saturating_add(1);
        }
    }
    assert_eq!(rt; times, 2);
}

// Checks that each frame was brought by both workers that bring frames.
fn check_frames(rt: &impl Abort, journal: &[Event]) {
    for ns in 0..200u8 {
        check_frame(rt, journal, &ad_frame(1, ns));
    }
}

// Checks that the journal has as many events as the operators counted, that it has each frame twice, and that `status`
// is the channel's CLCW.
fn check_closed(rt: &impl Abort, channel: &Channel, counted: u64, status: u32) {
    let events = channel.journal().len() as u64;
    assert_eq!(rt; events, counted);
    assert!(rt; events >= 400);
    assert_eq!(rt; status, channel.clcw(NO_FLAG));
    check_frames(rt, channel.journal());
}

// The channel of the closed station, and the answers that each operator got.
#[derive(Drop)]
struct Closed {
    channel: Channel,
    one: Vec<Answer>,
    two: Vec<Answer>,
    releases: Vec<Answer>,
    takes: Vec<Answer>,
}

fn last_of(rt: &impl Abort, workers: &mut Vec<Worker>) -> Worker {
    workers.pop().expect(rt, "a worker")
}

// Closes the station, and keeps the answers that each operator got.
fn close_all(rt: &impl Abort, alloc: Global, station: Station, mut workers: Vec<Worker>) -> Closed
    requires { station.vcids ≡ 1 ∷ [] }
{
    let taker = last_of(rt, &mut workers);
    let releaser = last_of(rt, &mut workers);
    let two = last_of(rt, &mut workers);
    let one = last_of(rt, &mut workers);
    let three = vec![in alloc; one.operator, two.operator, releaser.operator];
    let three = three.expect(rt, "a list");
    let mut channels = close(rt, station, three, taker.operator);
    assert_eq!(rt; channels.len(), 1);
    Closed {
        channel: channels.pop().expect(rt, "a channel"),
        one: one.answers,
        two: two.answers,
        releases: releaser.answers,
        takes: taker.answers,
    }
}

// Replays the journal on a new channel, and compares its answers with those that the operators got. The answers to
// releases and to takes must be equal, in order. Each reply to a frame must come equally often.
fn check_answers(rt: &impl Abort, alloc: Global, closed: &Closed) {
    let all = answers_again(rt, alloc, &closed.channel);
    check_as_often(rt, &all, &closed.one, &closed.two);
    check_in_order(rt, &all, Task::Release, &closed.releases);
    check_in_order(rt, &all, Task::Take, &closed.takes);
}

#[test]
fn six_threads_on_one_channel(rt: HostRuntime) {
    let alloc = rt.alloc();
    let mut station: Station = station_of_one(&rt, alloc);
    let mut workers = four_workers(&rt, alloc, &mut station);
    let mut one = new_watcher(&rt, &station);
    let mut two = new_watcher(&rt, &station);
    all_at_once(&rt, &station, workers.as_mut_slice(), &mut one, &mut two);
    let status = station.watch(&mut one, NO_FLAG);
    let counted = counted(&rt, &workers);
    let closed = close_all(&rt, alloc, station, workers);
    check_closed(&rt, &closed.channel, counted, status);
    check_answers(&rt, alloc, &closed);
}
