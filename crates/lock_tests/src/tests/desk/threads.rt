//! Two threads, each with an operator of its own.

ghost use Rattle.std.specs.Prelude.{◌≡◌};
ghost use Rattle.std.specs.Thread.{IsSync};

use super::staffed::{Locked, Staffed, bring};
use super::together::{closed, list_of_two};
use super::*;
use std::sync::Wait;
use std::thread::{Threads, join_mut};
use tc_desk::DeskOperator;

// The number of frames that each of the two threads brings.
const TURNS: u8 = 250;

// Returns the Type-BD frame of a turn of a thread. Its unit has two octets: the number of the thread, and the number of
// the turn.
fn turn_frame(who: u8, turn: u8) -> [u8; 8] {
    [0x20, 0x2a, 0x04, 0x07, 0x00, 0xc3, who, turn]
}

// Brings the frames of all turns, one after the other, and returns whether each was answered.
fn bring_all<R: Abort + Wait>(rt: &R, desk: &Locked, operator: &mut DeskOperator, who: u8) -> bool
    requires { operator.old.lock ≡ desk.now.id }
    ensures { operator.new.lock ≡ desk.now.id }
{
    let mut done = true;
    for turn in 0..TURNS {
        done = bring(rt, desk, operator, &turn_frame(who, turn)) && done;
    }
    done
}

// Brings the frames of both operators, each in a thread of its own, and returns whether each frame was answered.
fn side_by_side<R: Threads + Abort + Wait + Sync>(
    rt: &R,
    desk: &Locked,
    one: &mut DeskOperator,
    two: &mut DeskOperator,
) -> bool
    requires one { one.old.lock ≡ desk.now.id }
    requires two { two.old.lock ≡ desk.now.id }
    ensures one { one.new.lock ≡ desk.now.id }
    ensures two { two.new.lock ≡ desk.now.id }
{
    let mut first = || -> bool
        requires { IsSync R.row × (one.now.lock ≡ desk.now.id) }
        ensures { one.exit.now.lock ≡ desk.entry.now.id }
    { bring_all(rt, desk, one, 1) };
    let mut second = || -> bool
        requires { IsSync R.row × (two.now.lock ≡ desk.now.id) }
        ensures { two.exit.now.lock ≡ desk.entry.now.id }
    { bring_all(rt, desk, two, 2) };
    let (a, b) = join_mut(rt, &mut first, &mut second);
    a && b
}

// Brings the frames of the desk's own operator and of this one, and returns whether each frame was answered.
fn work<R: Threads + Abort + Wait + Sync>(
    rt: &R,
    staffed: &mut Staffed,
    other: &mut DeskOperator,
) -> bool
    requires { other.old.lock ≡ staffed.old.owned_desk.lock }
    ensures { other.new.lock ≡ staffed.new.owned_desk.lock }
{
    side_by_side(rt, staffed.owned_desk.desk(), &mut staffed.operator, other)
}

// Checks that the journal has all frames that this thread brought, in order, and no others of this thread.
fn check_frames(rt: &impl Abort, journal: &[Event], who: u8) {
    let mut turn = 0u8;
    for event in journal {
        if let Event::Frame(octets) = event {
            let octets = octets.as_slice();
            if octets.len() == 8 && octets[6] == who {
                assert!(rt; octets == turn_frame(who, turn).as_slice());
                turn = turn.saturating_add(1);
            }
        }
    }
    assert_eq!(rt; turn, TURNS);
}

// Closes the desk with both operators.
fn close_both(rt: &impl Abort, alloc: Global, staffed: Staffed, other: DeskOperator) -> Channel
    requires { other.lock ≡ staffed.owned_desk.lock }
{
    let Staffed {
        owned_desk,
        operator,
    } = staffed;
    let owned_desks = list_of(alloc, owned_desk).expect(rt, "a list");
    let operator_list = list_of(alloc, operator).expect(rt, "a list");
    let other = list_of(alloc, other).expect(rt, "a list");
    let operator_lists = list_of_two(rt, alloc, operator_list, other);
    closed(rt, alloc, owned_desks, operator_lists)
        .pop()
        .expect(rt, "a channel")
}

#[test]
fn the_journal_is_a_merge_of_what_two_threads_brought(rt: HostRuntime) {
    let mut staffed = Staffed::new(&rt, rt.alloc());
    let mut other = staffed.other();
    assert!(rt; work(&rt, &mut staffed, &mut other));
    assert_eq!(rt; staffed.operator.count(), u64::from(TURNS));
    assert_eq!(rt; other.count(), u64::from(TURNS));
    let channel = close_both(&rt, rt.alloc(), staffed, other);
    assert_eq!(rt; channel.journal().len(), 500);
    check_frames(&rt, channel.journal(), 1);
    check_frames(&rt, channel.journal(), 2);
}
