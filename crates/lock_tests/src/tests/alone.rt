//! One thread with several seats.

ghost use Rattle.std.specs.Prelude.{◌≡◌};
ghost use Rattle.lock_tests.specs.Book.{IsAtRest};

use super::*;
use std::sync::Wait;

// Returns whether the second seat can't take the lock while the first one holds it.
fn fails_meanwhile<R: Wait>(rt: &R, lock: &BookLock, one: &mut BookSeat, two: &mut BookSeat) -> bool
    requires one { IsAtRest lock.now one.old }
    requires two { IsAtRest lock.now two.old }
    ensures one { IsAtRest lock.now one.new }
    ensures two { IsAtRest lock.now two.new }
    ensures same { (one.new.me.0.maker ≡ one.old.me.0.maker) × (two.new.me.0.maker ≡ two.old.me.0.maker) }
{
    lock.lock(rt, one);
    let free = try_turn(lock, two);
    lock.unlock(one);
    !free
}

#[test]
fn one_seat_at_a_time_has_the_lock(rt: HostRuntime) {
    let (lock, mut first) = new_lock(&rt, rt.alloc());
    let mut other = lock.issue(&mut first);
    let mut guest = lock.guest();
    assert!(rt; fails_meanwhile(&rt, &lock, &mut first, &mut other));
    assert!(rt; fails_meanwhile(&rt, &lock, &mut guest, &mut first));
    assert!(rt; try_turn(&lock, &mut other));
    assert!(rt; write(&rt, &lock, &mut other, 5));
    assert!(rt; write(&rt, &lock, &mut first, 6));
    assert!(rt; write(&rt, &lock, &mut other, 7));
    let blank = Book {
        title: 8,
        numbers: Vec::new(rt.alloc()),
    };
    let book = take_out(&rt, &lock, &mut guest, blank);
    assert_eq!(rt; book.title, 7);
    assert_eq!(rt; book.numbers.as_slice(), [5, 6, 7].as_slice());
}
