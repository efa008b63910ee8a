//! Roles that a thread plays with its seat. Two or three threads play them at the same time.

ghost use Rattle.std.specs.Thread.{IsSync};
ghost use Rattle.lock_tests.specs.Book.{IsWriter};

use super::*;
use std::rt::Clock;
use std::sync::Wait;
use std::sync::atomic::{AtomicBool, Ordering};
use std::thread::{Threads, join_mut, sleep, yield_now};
use std::time::Duration;

// The number of turns of a thread in the role `Write`. It writes one number at each turn.
pub(super) const TURNS: u32 = 10_000;

// The role of a thread with its seat. Threads that play at the same time share a flag, which isn't set at first.
#[derive(Clone, Copy)]
pub(super) enum Role {
    // A thread that writes the numbers from the given one on, in rising order.
    Write(u32),
    // A thread that sets the flag while it holds the lock, and holds it for long.
    HaveForLong,
    // A thread that writes the number 1 once the flag is set.
    WriteBehind,
    // A thread that takes the lock again and again until the flag is set.
    HaveAllTheTime,
    // A thread that writes a hundred numbers, and then sets the flag.
    WriteNowAndThen,
    // A thread that takes the lock whenever the lock is free, and holds it for longer than a sleeping thread takes to
    // wake. It does so until the flag is set, and no more often than the number says.
    HaveWhereFree(u32),
    // A thread that writes three numbers, each after a while, and then sets the flag.
    WriteAfterAWhile,
}

// Writes the numbers from `first` on, one at each turn, and returns whether each was written.
fn write_all<R: Wait>(rt: &R, lock: &BookLock, seat: &mut BookSeat, first: u32) -> bool
    requires { IsWriter lock.now seat.old }
    ensures { IsWriter lock.now seat.new }
{
    let mut done = true;
    for turn in 0..TURNS {
        let number = first.saturating_add(turn);
        done = write(rt, lock, seat, number) && done;
    }
    done
}

// Waits until the flag is set, for at most `turns` turns, and returns whether it is set.
fn comes_true(flag: &AtomicBool, turns: u32) -> bool {
    for turn in 0..turns {
        if flag.load(Ordering::SeqCst) {
            return true;
        }
        if turn % 1024 == 1023 {
            yield_now();
        }
    }
    false
}

// Takes the lock, sets the flag `taken`, and holds the lock for so long that a thread that waits for it stops polling
// it and sleeps.
fn have_for_long<R: Wait + Clock>(
    rt: &R,
    lock: &BookLock,
    seat: &mut BookSeat,
    taken: &AtomicBool,
) -> bool
    requires { IsWriter lock.now seat.old }
    ensures { IsWriter lock.now seat.new }
{
    lock.lock(rt, seat);
    taken.store(true, Ordering::SeqCst);
    sleep(rt, Duration::from_millis(10));
    lock.unlock(seat);
    true
}

// Writes the number 1 once the flag `taken` is set, and returns whether the number was written.
fn write_behind<R: Wait>(rt: &R, lock: &BookLock, seat: &mut BookSeat, taken: &AtomicBool) -> bool
    requires { IsWriter lock.now seat.old }
    ensures { IsWriter lock.now seat.new }
{
    comes_true(taken, 100_000_000) && write(rt, lock, seat, 1)
}

// Takes the lock and releases it again and again until the flag is set. Returns whether the flag was found set.
fn have_it_all_the_time<R: Wait>(
    rt: &R,
    lock: &BookLock,
    seat: &mut BookSeat,
    done: &AtomicBool,
) -> bool
    requires { IsWriter lock.now seat.old }
    ensures { IsWriter lock.now seat.new }
{
    for _ in 0..u32::MAX {
        if done.load(Ordering::SeqCst) {
            return true;
        }
        turn(rt, lock, seat);
    }
    false
}

// Writes a hundred numbers, and then sets the flag.
fn write_now_and_then<R: Wait>(
    rt: &R,
    lock: &BookLock,
    seat: &mut BookSeat,
    done: &AtomicBool,
) -> bool
    requires { IsWriter lock.now seat.old }
    ensures { IsWriter lock.now seat.new }
{
    for number in 0..100u32 {
        write(rt, lock, seat, number);
        yield_now();
    }
    done.store(true, Ordering::SeqCst);
    true
}

// Takes the lock whenever it is free, at most `times` times, until the flag is set. Returns whether the flag was
// found set.
fn have_where_free<R: Wait + Clock>(
    rt: &R,
    lock: &BookLock,
    seat: &mut BookSeat,
    done: &AtomicBool,
    times: u32,
) -> bool
    requires { IsWriter lock.now seat.old }
    ensures { IsWriter lock.now seat.new }
{
    let mut left = times;
    for _ in 0..u32::MAX {
        if done.load(Ordering::SeqCst) {
            return true;
        }
        if left == 0 {
            return false;
        }
        if lock.try_lock(seat) {
            left -= 1;
            sleep(rt, Duration::from_millis(5));
            lock.unlock(seat);
        }
    }
    false
}

// Writes three numbers, each after other threads have had the time to take the lock, and then sets the flag.
fn write_after_a_while<R: Wait + Clock>(
    rt: &R,
    lock: &BookLock,
    seat: &mut BookSeat,
    done: &AtomicBool,
) -> bool
    requires { IsWriter lock.now seat.old }
    ensures { IsWriter lock.now seat.new }
{
    for number in 0..3u32 {
        sleep(rt, Duration::from_millis(20));
        write(rt, lock, seat, number);
    }
    done.store(true, Ordering::SeqCst);
    true
}

// Plays a role, and returns whether it was played to its end.
fn act<R: Wait + Clock>(
    rt: &R,
    lock: &BookLock,
    seat: &mut BookSeat,
    flag: &AtomicBool,
    role: Role,
) -> bool
    requires { IsWriter lock.now seat.old }
    ensures { IsWriter lock.now seat.new }
{
    match role {
        Role::Write(first) => write_all(rt, lock, seat, first),
        Role::HaveForLong => have_for_long(rt, lock, seat, flag),
        Role::WriteBehind => write_behind(rt, lock, seat, flag),
        Role::HaveAllTheTime => have_it_all_the_time(rt, lock, seat, flag),
        Role::WriteNowAndThen => write_now_and_then(rt, lock, seat, flag),
        Role::HaveWhereFree(times) => have_where_free(rt, lock, seat, flag, times),
        Role::WriteAfterAWhile => write_after_a_while(rt, lock, seat, flag),
    }
}

// Plays the roles of both seats at once, by two threads if a second one can be started, and returns whether both roles
// were played to their ends.
pub(super) fn side_by_side<R: Threads + Wait + Clock + Sync>(
    rt: &R,
    lock: &BookLock,
    one: &mut BookSeat,
    two: &mut BookSeat,
    roles: (Role, Role),
) -> bool
    requires one { IsWriter lock.now one.old }
    requires two { IsWriter lock.now two.old }
    ensures one { IsWriter lock.now one.new }
    ensures two { IsWriter lock.now two.new }
{
    act_both(rt, lock, one, two, &AtomicBool::new(false), roles)
}

// Plays the first role with seat `one` in a new thread, and the second with seat `two` in the running thread, both with
// this flag. If no thread can be started, the first role is played after the second. Returns whether both roles were
// played to their ends.
fn act_both<R: Threads + Wait + Clock + Sync>(
    rt: &R,
    lock: &BookLock,
    one: &mut BookSeat,
    two: &mut BookSeat,
    flag: &AtomicBool,
    roles: (Role, Role),
) -> bool
    requires one { IsWriter lock.now one.old }
    requires two { IsWriter lock.now two.old }
    ensures one { IsWriter lock.now one.new }
    ensures two { IsWriter lock.now two.new }
{
    let (first_role, second_role) = roles;
    let mut first = || -> bool
        requires { IsWriter lock.now one.now }
        ensures { IsWriter lock.entry.now one.exit.now }
    { act(rt, lock, one, flag, first_role) };
    let mut second = || -> bool
        requires { IsWriter lock.now two.now }
        ensures { IsWriter lock.entry.now two.exit.now }
    { act(rt, lock, two, flag, second_role) };
    let (a, b) = join_mut(rt, &mut first, &mut second);
    a && b
}

// Runs two threads that take the lock whenever it is free, at most `times` times each, and a third thread that writes
// three numbers, each after a while. Returns whether the third thread was done before either of the others had taken
// the lock `times` times.
pub(super) fn against_two<R: Threads + Wait + Clock + Sync>(
    rt: &R,
    lock: &BookLock,
    writer: &mut BookSeat,
    one: &mut BookSeat,
    two: &mut BookSeat,
    times: u32,
) -> bool
    requires writer { IsWriter lock.now writer.old }
    requires one { IsWriter lock.now one.old }
    requires two { IsWriter lock.now two.old }
    ensures writer { IsWriter lock.now writer.new }
    ensures one { IsWriter lock.now one.new }
    ensures two { IsWriter lock.now two.new }
{
    let done = AtomicBool::new(false);
    let roles = (Role::HaveWhereFree(times), Role::HaveWhereFree(times));
    let mut written = || -> bool
        requires { IsSync R.row × IsWriter lock.now writer.now }
        ensures { IsWriter lock.entry.now writer.exit.now }
    { act(rt, lock, writer, &done, Role::WriteAfterAWhile) };
    let mut had = || -> bool
        requires { IsSync R.row × IsWriter lock.now one.now × IsWriter lock.now two.now }
        ensures { IsWriter lock.entry.now one.exit.now × IsWriter lock.entry.now two.exit.now }
    { act_both(rt, lock, one, two, &done, roles) };
    let (a, b) = join_mut(rt, &mut written, &mut had);
    a && b
}
