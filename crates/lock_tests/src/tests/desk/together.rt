//! Tests that close two desks at once. Each worker has an operator at each of the desks.

ghost use Rattle.std.specs.Prelude.{◌≡◌, ◌∷◌, [], map};
ghost use Rattle.tc_desk.specs.Together.{AreOurs};

use super::*;
use std::sync::Wait;
use tc_channel::Recorded;
use tc_desk::{
    DeskOperator, Framing, OwnedDesk, Release, UnitTaking, close_together, take_out_together,
};
use tc_link::read_frame;

pub(super) type Desk = OwnedDesk<Recorded>;

// A frame like `BD_UNIT`, for virtual channel 2.
const OTHER_FRAME: [u8; 8] = [0x20, 0x2a, 0x08, 0x07, 0x00, 0xc3, 0xaa, 0xbb];

// Creates a desk for this virtual channel, whose other settings are those of virtual channel 1.
fn new_desk(rt: &impl Abort, alloc: Global, vcid: u8) -> Desk {
    let wanted = Wanted { vcid, ..CHANNEL };
    Desk::new(alloc, settings(alloc, &wanted).expect(rt, "settings")).expect(rt, "a desk")
}

// Two desks, of virtual channels 1 and 2.
#[derive(Drop)]
struct Desks {
    first: Desk,
    second: Desk,
}

// A worker that has an operator at each of two desks.
#[derive(Drop)]
struct Worker {
    first: DeskOperator,
    second: DeskOperator,
}

impl Desks {
    fn new(rt: &impl Abort, alloc: Global) -> Desks {
        Desks {
            first: new_desk(rt, alloc, 1),
            second: new_desk(rt, alloc, 2),
        }
    }

    fn worker(&mut self) -> Worker
        ensures same { (self.new.first.lock ≡ self.old.first.lock) × (self.new.second.lock ≡ self.old.second.lock) }
        ensures first { result.first.lock ≡ self.new.first.lock }
        ensures second { result.second.lock ≡ self.new.second.lock }
    {
        Worker {
            first: self.first.operator(),
            second: self.second.operator(),
        }
    }
}

fn bring(
    rt: &(impl Abort + Wait),
    desk: &Desk,
    operator: &mut DeskOperator,
    octets: &[u8],
) -> FrameReply
    requires { operator.old.lock ≡ desk.now.lock }
    ensures { operator.new.lock ≡ operator.old.lock }
{
    let frame = read_frame(octets).expect(rt, "a frame");
    let framing = Framing { frame: &frame };
    operator
        .operate(desk.desk(), rt, &framing)
        .expect(rt, "a reply")
}

fn release(rt: &(impl Abort + Wait), desk: &Desk, operator: &mut DeskOperator) -> Delivery
    requires { operator.old.lock ≡ desk.now.lock }
    ensures { operator.new.lock ≡ operator.old.lock }
{
    operator
        .operate(desk.desk(), rt, &Release)
        .expect(rt, "a delivery")
}

fn take_unit(rt: &(impl Abort + Wait), desk: &Desk, operator: &mut DeskOperator) -> Vec<u8>
    requires { operator.old.lock ≡ desk.now.lock }
    ensures { operator.new.lock ≡ operator.old.lock }
{
    operator
        .operate(desk.desk(), rt, &UnitTaking { map: 3 })
        .expect(rt, "a unit")
}

// Carries out the work of two workers. At the first desk `one` brings a frame, and `other` releases its data field. At
// the second desk `other` brings a unit, and `one` takes it.
fn work(rt: &(impl Abort + Wait), desks: &Desks, one: &mut Worker, other: &mut Worker)
    requires one { (one.old.first.lock ≡ desks.now.first.lock) × (one.old.second.lock ≡ desks.now.second.lock) }
    requires other { (other.old.first.lock ≡ desks.now.first.lock) × (other.old.second.lock ≡ desks.now.second.lock) }
    ensures one { (one.new.first.lock ≡ one.old.first.lock) × (one.new.second.lock ≡ one.old.second.lock) }
    ensures other { (other.new.first.lock ≡ other.old.first.lock) × (other.new.second.lock ≡ other.old.second.lock) }
{
    assert!(rt; bring(rt, &desks.first, &mut one.first, &FRAME) == BUFFERED);
    assert!(rt; release(rt, &desks.first, &mut other.first) == ONE);
    assert!(rt; bring(rt, &desks.second, &mut other.second, &OTHER_FRAME) == DELIVERED);
    let unit = take_unit(rt, &desks.second, &mut one.second);
    assert_eq!(rt; unit.as_slice(), UNIT.as_slice());
}

pub(super) fn list_of_two<T: Drop>(rt: &impl Abort, alloc: Global, first: T, second: T) -> Vec<T>
    ensures { result.items ≡ first ∷ second ∷ [] }
{
    let mut list = room(alloc, 2).expect(rt, "room");
    list.push(first).expect(rt, "room");
    list.push(second).expect(rt, "room");
    list
}

// Returns the two desks in order. `operator_list_of` returns the operators of a worker in the same order.
fn owned_desks_of(rt: &impl Abort, alloc: Global, desks: Desks) -> Vec<Desk>
    ensures { result.items ≡ desks.first ∷ desks.second ∷ [] }
{
    let Desks { first, second } = desks;
    list_of_two(rt, alloc, first, second)
}

fn operator_list_of(rt: &impl Abort, alloc: Global, worker: Worker) -> Vec<DeskOperator>
    ensures { result.items ≡ worker.first ∷ worker.second ∷ [] }
{
    let Worker { first, second } = worker;
    list_of_two(rt, alloc, first, second)
}

pub(super) fn closed(
    rt: &impl Abort,
    alloc: Global,
    owned_desks: Vec<Desk>,
    operator_lists: Vec<Vec<DeskOperator>>,
) -> Vec<Channel>
    requires { AreOurs owned_desks.items (map (λ operator_list. operator_list.items) operator_lists.items) }
{
    match close_together(alloc, owned_desks, operator_lists) {
        Ok(channels) => channels,
        Err(_) => panic!(rt; "not closed"),
    }
}

// Takes the channels out, whichever operators made their events.
fn taken_out(rt: &impl Abort, alloc: Global, owned_desks: Vec<Desk>) -> Vec<Channel> {
    match take_out_together(alloc, owned_desks) {
        Ok(channels) => channels,
        Err(_) => panic!(rt; "not taken out"),
    }
}

// Checks the two channels, in the order of the desks: the journal of each, and its CLCW. The first channel has V(R) 1,
// and the second has the FARM-B counter 1.
fn check_channels(rt: &impl Abort, alloc: Global, channels: &[Channel]) {
    assert_eq!(rt; channels.len(), 2);
    if let [first, second] = channels {
        let released = [
            frame_event(alloc, &FRAME).expect(rt, "an event"),
            Event::Release,
        ];
        assert!(rt; first.journal() == released.as_slice());
        assert_eq!(rt; first.clcw(NO_FLAG), 0x01040001);
        let taken = [
            frame_event(alloc, &OTHER_FRAME).expect(rt, "an event"),
            Event::TakeUnit(3),
        ];
        assert!(rt; second.journal() == taken.as_slice());
        assert_eq!(rt; second.clcw(NO_FLAG), 0x01080200);
    }
}

// Checks that a worker has made one event at each desk.
fn check_counts(rt: &impl Abort, worker: &Worker) {
    assert_eq!(rt; worker.first.count(), 1);
    assert_eq!(rt; worker.second.count(), 1);
}

// Creates two desks and two workers, and carries out the work at both desks.
fn worked(rt: &(impl Abort + Wait), alloc: Global) -> (Desks, Worker, Worker)
    ensures one { (result.1.first.lock ≡ result.0.first.lock) × (result.1.second.lock ≡ result.0.second.lock) }
    ensures other { (result.2.first.lock ≡ result.0.first.lock) × (result.2.second.lock ≡ result.0.second.lock) }
{
    let mut desks = Desks::new(rt, alloc);
    let mut one = desks.worker();
    let mut other = desks.worker();
    work(rt, &desks, &mut one, &mut other);
    (desks, one, other)
}

#[test]
fn desks_closed_together(rt: HostRuntime) {
    let alloc = rt.alloc();
    let (desks, one, other) = worked(&rt, alloc);
    check_counts(&rt, &one);
    check_counts(&rt, &other);
    let owned_desks = owned_desks_of(&rt, alloc, desks);
    let operator_lists = list_of_two(
        &rt,
        alloc,
        operator_list_of(&rt, alloc, one),
        operator_list_of(&rt, alloc, other),
    );
    check_channels(&rt, alloc, &closed(&rt, alloc, owned_desks, operator_lists));
}

// The workers aren't needed to take the channels out.
#[test]
fn desks_taken_out_together(rt: HostRuntime) {
    let alloc = rt.alloc();
    let (desks, _, _) = worked(&rt, alloc);
    let owned_desks = owned_desks_of(&rt, alloc, desks);
    check_channels(&rt, alloc, &taken_out(&rt, alloc, owned_desks));
}
