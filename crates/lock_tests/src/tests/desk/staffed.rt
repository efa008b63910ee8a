//! A desk and an operator.

ghost use Rattle.std.specs.Prelude.{◌≡◌};

use super::together::Desk;
use super::*;
use std::sync::Wait;
use tc_channel::Recorded;
use tc_desk::{DeskOperator, Framing, LockedDesk};
use tc_link::read_frame;

pub(super) type Locked = LockedDesk<Recorded>;

// A desk and the operator that works at it.
#[derive(Drop)]
pub(super) struct Staffed {
    pub(super) owned_desk: Desk,
    pub(super) operator: DeskOperator,
    ghost ours: { operator.lock ≡ owned_desk.lock },
}

impl Staffed {
    pub(super) fn new(rt: &impl Abort, alloc: Global) -> Staffed
        ensures { result.operator.own.seen.head ≡ result.owned_desk.own.seen.head }
    {
        let settings = settings(alloc, &CHANNEL).expect(rt, "settings");
        let mut owned_desk = Desk::new(alloc, settings).expect(rt, "a desk");
        let operator = owned_desk.operator();
        Staffed {
            owned_desk,
            operator,
        }
    }

    // Issues another operator of the same desk.
    pub(super) fn other(&mut self) -> DeskOperator
        ensures other { result.lock ≡ self.new.owned_desk.lock }
        ensures same { (self.new.owned_desk.lock ≡ self.old.owned_desk.lock)
            × (self.new.owned_desk.own.seen ≡ self.old.owned_desk.own.seen) × (self.new.operator ≡ self.old.operator) }
    {
        self.owned_desk.operator()
    }
}

// Brings this frame through the operator, and returns whether it was answered.
pub(super) fn bring<R: Abort + Wait>(
    rt: &R,
    desk: &Locked,
    operator: &mut DeskOperator,
    octets: &[u8],
) -> bool
    requires { operator.old.lock ≡ desk.now.id }
    ensures { operator.new.lock ≡ desk.now.id }
{
    let frame = read_frame(octets).expect(rt, "a frame");
    operator
        .operate(desk, rt, &Framing { frame: &frame })
        .is_ok()
}
