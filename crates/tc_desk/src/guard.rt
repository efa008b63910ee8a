//! A desk whose owner has its lock.

ghost use Rattle.std.specs.Prelude.{◌≡◌, ◌≤◌, [], ◌∷◌, ◌↔◌, min, length, ◌^◌, ◌-◌, IfOk, IfErr, IsTrue, List};
ghost use Rattle.logged_lock.specs.Log.{IsBeginning, total_made, IsMergeOf, AreBehind};
ghost use Rattle.tc_desk.specs.Log.{Own, reported_at};
ghost use Rattle.tc_desk.specs.Closing.{CanClose};

use crate::locked::{DeskLock, DeskOperator, DeskOwner, DeskSeat, LockedDesk, answer_at};
use crate::operation::Counting;
use crate::slot::DeskSlot;
use std::marker::Model;
use std::snapshot::Snapshot;
use tc_channel::{ChannelWith, Journal};

/// A desk whose owner has its lock. It isn't `Send`.
#[derive(Drop)]
pub(crate) struct DeskGuard<J: Journal> {
    lock: DeskLock<J>,
    first: DeskSeat<J>,
    events: u64,
    issued: u128,
    owner: Snapshot<DeskOwner>,
}

impl<J: Journal> Model for DeskGuard<J> {
    ghost use Rattle.std.specs.Prelude.{◌≡◌, [], min, length, ◌^◌, ◌-◌, IsSome};
    ghost use Rattle.crossbeam_utils.specs.Padded.{padded_value};
    ghost use Rattle.logged_lock.specs.Rule.{HasLock};
    ghost use Rattle.tc_desk.specs.Log.{AtHand, desk_log, issued_count};

    ghost Value = { AtHand };

    ghost view = { λ h. record { desk = h.lock; owner = h.owner.value; now = h.first.me.0.own.seen; reported = h.first.me.0.reported } };

    ghost invariant = { λ h. (h.first.table_id ≡ h.lock.id) × (h.owner.value.lock ≡ h.lock.id) × (h.first.id ≡ 0)
        × (h.first.me.0.own.seen.head ≡ h.owner.value.own.seen.head)
        × (h.events ≡ min (length h.first.me.0.own.seen.entries) (2 ^ 64 - 1))
        × (h.issued ≡ issued_count h.owner.value.own) × (h.first.me.0.own.issued ≡ h.owner.value.own.issued) × (h.first.me.0.own.made ≡ [])
        × HasLock (λ k. desk_log (padded_value k.desk)) (λ k. IsSome (padded_value k.desk)) h.first.me h.first.me.0.own.seen };
}

impl<J: Journal> DeskGuard<J> {
    /// Takes the lock if it is free. Otherwise returns the desk and its owner.
    pub(crate) fn hold(
        desk: LockedDesk<J>,
        owner: DeskOwner,
    ) -> Result<DeskGuard<J>, (LockedDesk<J>, DeskOwner)>
        requires { owner.lock ≡ desk.id }
        ensures desk { IfOk result (λ guard. guard.desk ≡ desk) }
        ensures owner { IfOk result (λ guard. guard.owner ≡ owner) }
        ensures reported { IfOk result (λ guard. guard.reported ≡ []) }
        ensures later { IfOk result (λ guard. IsBeginning guard.owner.own.seen guard.now) }
        ensures refused { IfErr result (λ left. (left.0 ≡ desk) × (left.1 ≡ owner)) }
    {
        let LockedDesk { lock } = desk;
        let snapshot = Snapshot::of(&owner);
        let (badge, issued) = owner.into_parts();
        let mut first: DeskSeat<J> = badge.into_seat();
        if !lock.try_lock(&mut first) {
            return Err((
                LockedDesk { lock },
                DeskOwner::of(first.into_badge(), issued),
            ));
        }
        let events = answer_at(&lock, &mut first, &Counting);
        Ok(DeskGuard {
            lock,
            first,
            events,
            issued,
            owner: snapshot,
        })
    }

    /// Unlocks the desk, and returns it with its owner.
    pub(crate) fn leave(self) -> (LockedDesk<J>, DeskOwner)
        requires { self.reported ≡ [] }
        ensures desk { result.0 ≡ self.desk }
        ensures own { result.1.lock ≡ self.desk.id }
        ensures lock { result.1.lock ≡ self.owner.lock }
        ensures head { result.1.own.seen.head ≡ self.owner.own.seen.head }
        ensures issued { result.1.own.issued ≡ self.owner.own.issued }
    {
        let DeskGuard {
            lock,
            mut first,
            events: _,
            issued,
            owner: _,
        } = self;
        lock.unlock(&mut first);
        (
            LockedDesk { lock },
            DeskOwner::of(first.into_badge(), issued),
        )
    }

    /// Returns whether `operators` operators, which have made `count` events in all, can close the desk. They can if no
    /// more operators than these were issued, or if the journal has `count` events. A count of 2^64 - 1 stands for that
    /// number or more, and the result is then false.
    pub(crate) fn can_close(&self, operators: usize, count: u64) -> bool
        ensures { (makers : List Own) → operators ≡ length makers → count ≡ min (total_made makers) (2 ^ 64 - 1)
            → (IsTrue result ↔ CanClose self.now.owner.own.issued makers self.now.now.entries) }
    {
        count != u64::MAX && (self.issued <= operators as u128 || self.events == count)
    }

    /// Reports to the owner which events an operator has seen and made.
    pub(crate) fn report(&mut self, operator: DeskOperator)
        requires { operator.lock ≡ self.old.owner.lock }
        ensures { self.new ≡ reported_at self.old (operator.own ∷ []) }
    {
        self.lock
            .report(&mut self.first, operator.into_badge().into_seat());
    }

    /// Takes the channel out of the desk.
    pub(crate) fn take_out(self) -> ChannelWith<J>
        ensures settings { result.settings ≡ self.owner.own.seen.head.settings }
        ensures journal { result.journal ≡ self.now.entries }
        ensures seen { AreBehind self.reported self.now }
        ensures merge { total_made self.reported ≡ length self.now.entries → IsMergeOf result.journal self.reported }
        ensures whole { self.owner.own.issued ≤ length self.reported → total_made self.reported ≡ length self.now.entries }
    {
        let DeskGuard {
            lock,
            mut first,
            events: _,
            issued: _,
            owner: _,
        } = self;
        lock.account(&mut first);
        let kept = lock.replace(&mut first, DeskSlot::new(None));
        kept.into_channel()
    }
}
