//! Workers, each of which passes the gate once.

use super::gate::{do_lists, new_operator_list};
use super::*;
use std::sync::atomic::{AtomicU32, Ordering};
use tc_station::{Gate, Job, Order, WorkList};

// Returns the order of a job that brings octets.
fn bring(rt: &impl Abort, alloc: Global, octets: &[u8]) -> Order {
    Order::Bring(octets_of(alloc, octets).expect(rt, "octets"))
}

// Creates a list of an order that may be refused, and then an Unlock of virtual channel 1.
fn list_for(rt: &impl Abort, alloc: Global, vcid: u8, order: Order) -> WorkList {
    let first = Job { line: 1, order };
    let unlock = Job {
        line: 2,
        order: bring(rt, alloc, &UNLOCK),
    };
    WorkList {
        vcid,
        jobs: Items::from(vec![in alloc; first, unlock].expect(rt, "jobs")),
    }
}

// Creates seven lists. There is no channel 9. The order before each Unlock is refused. These orders are a release of an
// empty buffer, a release on channel 9, octets that aren't a frame, a take for an APID without a queue, a take from an
// empty queue, and the take of a unit of a MAP that isn't chosen. The last list has no jobs.
fn seven_lists(rt: &impl Abort, alloc: Global) -> [WorkList; 7] {
    [
        list_for(rt, alloc, 1, Order::Release),
        list_for(rt, alloc, 9, Order::Release),
        list_for(rt, alloc, 1, bring(rt, alloc, &UNLOCK[..3])),
        list_for(rt, alloc, 1, Order::Take(6)),
        list_for(rt, alloc, 2, Order::Take(5)),
        list_for(rt, alloc, 2, Order::TakeUnit(3)),
        WorkList {
            vcid: 2,
            jobs: Items::from(Vec::new(alloc)),
        },
    ]
}

// A gate that counts how often it is passed. The ones count the passes for channel 1, the tens those for channel 2, the
// hundreds those for channel 9, and the thousands those for any other channel.
#[derive(Drop)]
struct Counting {
    passed: AtomicU32,
}

impl Gate for Counting {
    fn pass(&self, vcid: u8) {
        let one = match vcid {
            1 => 1,
            2 => 10,
            9 => 100,
            _ => 1_000,
        };
        self.passed.fetch_add(one, Ordering::SeqCst);
    }
}

// The worker of a list without jobs passes the gate, too. Refusals don't stop a worker.
#[test]
fn each_worker_passes_the_gate_once(rt: HostRuntime) {
    let alloc = rt.alloc();
    let lists = seven_lists(&rt, alloc);
    let (station, mut operators) = new_operator_list(&rt, alloc, 7);
    let gate = Counting {
        passed: AtomicU32::new(0),
    };
    do_lists(&rt, &gate, &station, &mut operators, &lists);
    assert_eq!(rt; gate.passed.load(Ordering::SeqCst), 133);
    for operator in operators.iter().take(6) {
        assert!(rt; operator.count(1) == Some(1));
    }
}
