//! A thread that waits for a lock gets it.

ghost use Rattle.lock_tests.specs.Book.{IsAtRest};

use super::roles::{Role, against_two, side_by_side};
use super::*;
use std::sync::Wait;

// Returns the number of numbers in the book. No seat can take its lock afterwards.
fn numbers<R: Wait>(rt: &R, alloc: Global, lock: &BookLock, seat: &mut BookSeat) -> usize
    requires { IsAtRest lock.now seat.old }
{
    let blank = Book {
        title: 8,
        numbers: Vec::new(alloc),
    };
    take_out(rt, lock, seat, blank).numbers.len()
}

#[test]
fn who_sleeps_is_woken(rt: HostRuntime) {
    let (lock, mut first) = new_lock(&rt, rt.alloc());
    let mut other = lock.issue(&mut first);
    for round in 0..50u32 {
        assert!(rt;
            side_by_side(
                &rt,
                &lock,
                &mut first,
                &mut other,
                (Role::HaveForLong, Role::WriteBehind)
            ),
            "round {round}"
        );
    }
    assert_eq!(rt; numbers(&rt, rt.alloc(), &lock, &mut first), 50);
}

#[test]
fn who_has_it_all_the_time_keeps_nobody_away(rt: HostRuntime) {
    let (lock, mut first) = new_lock(&rt, rt.alloc());
    let mut other = lock.issue(&mut first);
    let roles = (Role::HaveAllTheTime, Role::WriteNowAndThen);
    assert!(rt; side_by_side(&rt, &lock, &mut first, &mut other, roles));
    assert_eq!(rt; numbers(&rt, rt.alloc(), &lock, &mut other), 100);
}

// Two threads that only try the lock always take it before a woken thread can take it. A thread that sleeps therefore
// gets the lock only if the lock is reserved for threads that have slept. The thread requests this once it has slept
// twice. Each of its three turns then waits for about four turns of the other threads.
#[test]
fn who_has_slept_twice_comes_before_who_only_tries(rt: HostRuntime) {
    let (lock, mut first) = new_lock(&rt, rt.alloc());
    let mut one = lock.issue(&mut first);
    let mut two = lock.issue(&mut first);
    assert!(rt; against_two(&rt, &lock, &mut first, &mut one, &mut two, 60));
    assert_eq!(rt; numbers(&rt, rt.alloc(), &lock, &mut first), 3);
}
