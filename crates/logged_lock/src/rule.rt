//! The rule of a lock, and the steps that may be taken at it.

use crate::views::{Head, Logged, View};
use atomic_table::{Join, Play, Seat, Split, TableRule};
use std::marker::PhantomData;

/// The rule that every step keeps.
pub struct LockRule;

impl<D, E, S: Logged<D, E>> TableRule<S, View<D, E>, D> for LockRule {
    ghost use Rattle.logged_lock.specs.Log.{start_of};
    ghost use Rattle.logged_lock.specs.Rule.{IsLock, newcomer};

    ghost holds = { λ d s. IsLock S.log S.fits d s.words s.homes s.views };

    ghost first = { λ d. newcomer (start_of d) };
}

/// The entry with which the lock is released. Each call chooses it.
pub trait NextEntry<E> {
    ghost entry: { E };
}

/// The step that takes the lock if its word is the expected word of a free lock.
pub struct Takes;

impl<D, E, S: Logged<D, E>> Play<S, View<D, E>> for Takes {
    ghost use Rattle.std.specs.Prelude.{◌≡◌, ◌==◌, MatchBool};
    ghost use Rattle.logged_lock.specs.Rule.{IsTaken};

    ghost then = { λ s before found after. MatchBool (found == s.first) (IsTaken S.log S.fits before after) (after ≡ before) };
}

/// The step that marks a taken lock, to show that a thread waits for it.
pub struct Marks;

impl<S, D, E> Play<S, View<D, E>> for Marks {
    ghost use Rattle.std.specs.Prelude.{◌≡◌};

    ghost then = { λ _ before _ after. after ≡ before };
}

/// The step that releases the lock without an entry.
pub struct Leaves;

impl<S, D, E> Play<S, View<D, E>> for Leaves {
    ghost use Rattle.std.specs.Prelude.{◌≡◌, []};
    ghost use Rattle.logged_lock.specs.Rule.{unlocked};

    ghost then = { λ _ before _ after. after ≡ (unlocked before.0, []) };
}

/// The step that releases the lock with an entry.
pub struct LeavesWith<P> {
    marker: PhantomData<P>,
}

impl<S, D, E, P: NextEntry<E>> Play<S, View<D, E>> for LeavesWith<P> {
    ghost use Rattle.std.specs.Prelude.{◌≡◌, []};
    ghost use Rattle.logged_lock.specs.Rule.{unlocked_with};

    ghost then = { λ _ before _ after. after ≡ (unlocked_with P.entry before.0, []) };
}

/// The step that creates a seat from which no entry can be made. The log that this seat has seen has the head that the
/// table was created with.
pub struct Sits;

impl<S, D, E> Play<S, View<D, E>> for Sits {
    ghost use Rattle.std.specs.Prelude.{◌≡◌, []};
    ghost use Rattle.logged_lock.specs.Rule.{guest};

    ghost then = { λ _ before _ after. (after ≡ (guest after.0.own.seen, [])) × (after.0.own.seen.head ≡ before.0.own.seen.head) };
}

/// The step by which the first seat accounts for the entries of the log.
pub struct Accounts;

impl<S, D, E> Play<S, View<D, E>> for Accounts {
    ghost use Rattle.std.specs.Prelude.{◌≡◌};
    ghost use Rattle.logged_lock.specs.Rule.{IsAccountedFor};

    ghost then = { λ _ before _ after. (after ≡ before) × IsAccountedFor before.0 };
}

/// The step that issues a new seat. The new seat has seen the part of the log that the issuing seat has seen.
pub struct Issues;

impl<D, E> Split<View<D, E>> for Issues {
    ghost use Rattle.logged_lock.specs.Rule.{newcomer, issued_one};

    ghost left = { issued_one };

    ghost right = { λ v. newcomer v.own.seen };
}

/// The step by which another seat reports to the first one. The other seat is consumed.
pub struct Reports;

impl<D: Head, E> Join<View<D, E>> for Reports {
    ghost use Rattle.logged_lock.specs.Rule.{reported_of, gone};

    ghost both = { reported_of };

    ghost spent = { gone D.blank };
}

/// A seat at a lock. It needs no memory.
pub type LockSeat<S, D, E> = Seat<S, View<D, E>>;
