//! Six threads write 10,000 numbers each into one book.
//!
//! All threads finish. The book then has each number once, and each thread's numbers in order.

ghost use Rattle.std.specs.Prelude.{◌≡◌, true};
ghost use Rattle.std.specs.Thread.{IsSync};
ghost use Rattle.lock_tests.specs.Book.{IsWriter};

use super::roles::{Role, TURNS, side_by_side};
use super::*;
use std::rt::Clock;
use std::sync::Wait;
use std::thread::{Threads, join_mut};

// A writer of consecutive numbers, the first of which is `first`.
#[derive(Drop)]
struct Writer {
    seat: BookSeat,
    first: u32,
}

impl Writer {
    fn new(lock: &BookLock, first: &mut BookSeat, number: u32) -> Writer
        requires writer { IsWriter lock.now first.old }
        requires first { first.old.id ≡ 0 }
        ensures first { IsWriter lock.now first.new × (first.new.id ≡ first.old.id) }
        ensures rest { IsWriter lock.now result.seat }
    {
        Writer {
            seat: lock.issue(first),
            first: number,
        }
    }
}

#[derive(Drop)]
struct Pair {
    one: Writer,
    two: Writer,
}

impl Pair {
    // Creates two writers. One writes the numbers from `number` on, and the other the numbers after those.
    fn new(lock: &BookLock, first: &mut BookSeat, number: u32) -> Pair
        requires writer { IsWriter lock.now first.old }
        requires first { first.old.id ≡ 0 }
        ensures first { IsWriter lock.now first.new × (first.new.id ≡ first.old.id) }
        ensures one { IsWriter lock.now result.one.seat }
        ensures two { IsWriter lock.now result.two.seat }
    {
        let one = Writer::new(lock, first, number);
        let two = Writer::new(lock, first, number.saturating_add(TURNS));
        Pair { one, two }
    }

    // Runs both writers, each in a thread of its own. Returns whether both wrote all their numbers.
    fn work<R: Threads + Wait + Clock + Sync>(&mut self, rt: &R, lock: &BookLock) -> bool
        requires one { IsWriter lock.now self.old.one.seat }
        requires two { IsWriter lock.now self.old.two.seat }
        ensures one { IsWriter lock.now self.new.one.seat }
        ensures two { IsWriter lock.now self.new.two.seat }
    {
        let roles = (Role::Write(self.one.first), Role::Write(self.two.first));
        side_by_side(rt, lock, &mut self.one.seat, &mut self.two.seat, roles)
    }
}

#[derive(Drop)]
struct Six {
    one: Pair,
    two: Pair,
    three: Pair,
}

impl Six {
    // Runs all six writers, each in a thread of its own. Returns whether all of them wrote all their numbers.
    fn work<R: Threads + Wait + Clock + Sync>(&mut self, rt: &R, lock: &BookLock) -> bool
        requires one { IsWriter lock.now self.old.one.one.seat × IsWriter lock.now self.old.one.two.seat }
        requires two { IsWriter lock.now self.old.two.one.seat × IsWriter lock.now self.old.two.two.seat }
        requires three { IsWriter lock.now self.old.three.one.seat × IsWriter lock.now self.old.three.two.seat }
        ensures one { IsWriter lock.now self.new.one.one.seat × IsWriter lock.now self.new.one.two.seat }
        ensures two { IsWriter lock.now self.new.two.one.seat × IsWriter lock.now self.new.two.two.seat }
        ensures three { IsWriter lock.now self.new.three.one.seat × IsWriter lock.now self.new.three.two.seat }
    {
        let one = &mut self.one;
        let two = &mut self.two;
        let three = &mut self.three;
        let mut first = || -> bool
            requires { IsSync R.row × IsWriter lock.now one.now.one.seat × IsWriter lock.now one.now.two.seat }
            ensures { IsWriter lock.entry.now one.exit.now.one.seat × IsWriter lock.entry.now one.exit.now.two.seat }
        { one.work(rt, lock) };
        let mut rest = || -> bool
            requires { IsSync R.row × IsWriter lock.now two.now.one.seat × IsWriter lock.now two.now.two.seat
                × IsWriter lock.now three.now.one.seat × IsWriter lock.now three.now.two.seat }
            ensures { IsWriter lock.entry.now two.exit.now.one.seat × IsWriter lock.entry.now two.exit.now.two.seat
                × IsWriter lock.entry.now three.exit.now.one.seat × IsWriter lock.entry.now three.exit.now.two.seat }
        { work_by_four(rt, lock, two, three) };
        let (a, b) = join_mut(rt, &mut first, &mut rest);
        a && b
    }
}

// Runs the four writers of two pairs, each in a thread of its own. Returns whether all four wrote all their numbers.
fn work_by_four<R: Threads + Wait + Clock + Sync>(
    rt: &R,
    lock: &BookLock,
    one: &mut Pair,
    two: &mut Pair,
) -> bool
    requires one { IsWriter lock.now one.old.one.seat × IsWriter lock.now one.old.two.seat }
    requires two { IsWriter lock.now two.old.one.seat × IsWriter lock.now two.old.two.seat }
    ensures one { IsWriter lock.now one.new.one.seat × IsWriter lock.now one.new.two.seat }
    ensures two { IsWriter lock.now two.new.one.seat × IsWriter lock.now two.new.two.seat }
{
    let mut first = || -> bool
        requires { IsSync R.row × IsWriter lock.now one.now.one.seat × IsWriter lock.now one.now.two.seat }
        ensures { IsWriter lock.entry.now one.exit.now.one.seat × IsWriter lock.entry.now one.exit.now.two.seat }
    { one.work(rt, lock) };
    let mut second = || -> bool
        requires { IsSync R.row × IsWriter lock.now two.now.one.seat × IsWriter lock.now two.now.two.seat }
        ensures { IsWriter lock.entry.now two.exit.now.one.seat × IsWriter lock.entry.now two.exit.now.two.seat }
    { two.work(rt, lock) };
    let (a, b) = join_mut(rt, &mut first, &mut second);
    a && b
}

// Reports to the first seat the entries that the two seats of a pair have seen and made.
fn report_both(lock: &BookLock, first: &mut BookSeat, pair: Pair)
    requires first { (first.old.table_id ≡ lock.now.id) × (first.old.id ≡ 0) × (first.old.me.0.live ≡ true) }
    requires one { IsWriter lock.now pair.one.seat }
    requires two { IsWriter lock.now pair.two.seat }
    ensures first { (first.new.table_id ≡ lock.now.id) × (first.new.id ≡ 0) × (first.new.me.0.live ≡ true) }
    ensures same { (first.new.me.0.locks ≡ first.old.me.0.locks) × (first.new.me.1 ≡ first.old.me.1) }
{
    let Pair { one, two } = pair;
    lock.report(first, one.seat);
    lock.report(first, two.seat);
}

// Takes the book out from under the lock, through the first seat, and returns the book. Before that, the entries that
// the six other seats have seen and made are reported to the first seat.
fn close<R: Wait>(rt: &R, alloc: Global, lock: &BookLock, mut first: BookSeat, six: Six) -> Book
    requires first { IsWriter lock.now first × (first.id ≡ 0) }
    requires one { IsWriter lock.now six.one.one.seat × IsWriter lock.now six.one.two.seat }
    requires two { IsWriter lock.now six.two.one.seat × IsWriter lock.now six.two.two.seat }
    requires three { IsWriter lock.now six.three.one.seat × IsWriter lock.now six.three.two.seat }
{
    lock.lock(rt, &mut first);
    let Six { one, two, three } = six;
    report_both(lock, &mut first, one);
    report_both(lock, &mut first, two);
    report_both(lock, &mut first, three);
    lock.account(&mut first);
    let blank = Book {
        title: 0,
        numbers: Vec::new(alloc),
    };
    lock.replace(&mut first, blank)
}

// Checks that the numbers include each number of the writer that begins with `first`, once and in order.
fn check_in_order(rt: &impl Abort, numbers: &[u32], first: u32) {
    let end = first.saturating_add(TURNS);
    let mut wanted = first..end;
    for number in numbers {
        if first <= *number && *number < end {
            assert_eq!(rt; wanted.next(), Some(*number));
        }
    }
    assert_eq!(rt; wanted.next(), None);
}

#[test]
fn six_threads_write_their_numbers_in_order(rt: HostRuntime) {
    let (lock, mut first) = new_lock(&rt, rt.alloc());
    let mut six = Six {
        one: Pair::new(&lock, &mut first, 0),
        two: Pair::new(&lock, &mut first, 20_000),
        three: Pair::new(&lock, &mut first, 40_000),
    };
    assert!(rt; six.work(&rt, &lock));
    let book = close(&rt, rt.alloc(), &lock, first, six);
    assert_eq!(rt; book.title, 7);
    assert_eq!(rt; book.numbers.len(), 60_000);
    for writer in 0..6u32 {
        check_in_order(&rt, &book.numbers, writer * TURNS);
    }
}
