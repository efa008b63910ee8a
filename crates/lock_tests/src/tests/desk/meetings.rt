//! A watcher that meets the desk, through one operator, after operations of another operator.

ghost use Rattle.std.specs.Prelude.{◌≡◌};

use super::staffed::{Locked, Staffed, bring};
use super::*;
use std::sync::Wait;
use tc_channel::ReleaseFault;
use tc_desk::{DeskOperator, Release, Watching};

// Checks the CLCWs that a watcher reads at its meetings. Their octets are 01 for COP-1 in effect, 04 for virtual
// channel 1, an octet with the flags and the FARM-B counter, and V(R). No flag is set, so the third octet is twice the
// FARM-B counter. A Type-AD frame makes V(R) 1, each Type-BD frame adds 1 to the counter, and a release changes
// neither.
fn check_meetings<R: Abort + Wait>(
    rt: &R,
    desk: &Locked,
    operator: &mut DeskOperator,
    other: &mut DeskOperator,
)
    requires one { operator.old.lock ≡ desk.now.id }
    requires head { operator.old.own.seen.head ≡ desk.now.head }
    requires other { other.old.lock ≡ desk.now.id }
    ensures { operator.new.lock ≡ desk.now.id }
{
    let mut watcher = desk.ask_as_guest(rt, &Watching).expect(rt, "a watcher");
    assert_eq!(rt; watcher.read(), 0x01040000);
    assert!(rt; bring(rt, desk, other, &FRAME));
    operator.meet(desk, rt, &mut watcher);
    assert_eq!(rt; watcher.read(), 0x01040001);
    assert!(rt; bring(rt, desk, other, &BD_UNIT));
    let released = operator.operate_met(desk, rt, &mut watcher, &Release);
    assert!(rt; released == Ok(ONE));
    assert_eq!(rt; watcher.read(), 0x01040201);
    assert!(rt; bring(rt, desk, other, &BD_UNIT));
    let refused = operator.operate_met(desk, rt, &mut watcher, &Release);
    assert!(rt; refused == Err(ReleaseFault::Empty));
    assert_eq!(rt; watcher.read(), 0x01040401);
}

fn check(rt: &(impl Abort + Wait), staffed: &mut Staffed, other: &mut DeskOperator)
    requires other { other.old.lock ≡ staffed.old.owned_desk.lock }
    requires head { staffed.old.operator.own.seen.head ≡ staffed.old.owned_desk.own.seen.head }
{
    check_meetings(rt, staffed.owned_desk.desk(), &mut staffed.operator, other)
}

#[test]
fn a_watcher_meets_what_another_operator_did(rt: HostRuntime) {
    let mut staffed = Staffed::new(&rt, rt.alloc());
    let mut other = staffed.other();
    check(&rt, &mut staffed, &mut other);
}
