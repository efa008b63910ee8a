//! A desk that threads share, with the owner of its lock.

ghost use Rattle.std.specs.Prelude.{◌≡◌, [], IfOk, MatchResult};
ghost use Rattle.tc_queues.specs.Settings.{IsAllowed, IsRefusal};
ghost use Rattle.tc_desk.specs.Log.{with_one_issued};

use crate::locked::{DeskOperator, DeskOwner, LockedDesk};
use std::alloc::Global;
use std::marker::Model;
use tc_channel::{Journal, Settings, SettingsFault};

/// A desk behind its lock, with its owner. Threads may share it, since the owner can be reached only by `&mut` or by
/// value.
#[derive(Drop)]
pub struct OwnedDesk<J: Journal> {
    pub(crate) desk: LockedDesk<J>,
    pub(crate) owner: DeskOwner,
}

impl<J: Journal> Model for OwnedDesk<J> {
    ghost use Rattle.std.specs.Prelude.{◌≡◌};
    ghost use Rattle.tc_desk.specs.Log.{AtLock};

    ghost Value = { AtLock };

    ghost view = { λ p. p.owner };

    ghost invariant = { λ p. (p.owner.lock ≡ p.desk.id) × (p.owner.own.seen.head ≡ p.desk.head) };
}

impl<J: Journal> OwnedDesk<J> {
    /// Creates a desk behind a lock that is free. The call requests the memory of the desk and of the lock. If the
    /// settings aren't allowed, it returns their first fault. If memory runs out, it returns
    /// [`SettingsFault::NoMemory`].
    pub fn new(alloc: Global, settings: Settings) -> Result<OwnedDesk<J>, SettingsFault>
        ensures settings { IfOk result (λ owned_desk. owned_desk.own.seen.head.settings ≡ settings) }
        ensures journal { IfOk result (λ owned_desk. owned_desk.own.seen.entries ≡ []) }
        ensures issued { IfOk result (λ owned_desk. owned_desk.own.issued ≡ 0) }
        ensures fault { MatchResult result (λ _. IsAllowed settings) (IsRefusal settings) }
    {
        let (desk, owner) = LockedDesk::new(alloc, settings)?;
        Ok(OwnedDesk { desk, owner })
    }

    /// Lends the desk, for the calls of operators.
    pub fn desk(&self) -> &LockedDesk<J>
        ensures lock { result.now.id ≡ self.now.lock }
        ensures head { result.now.head ≡ self.now.own.seen.head }
    {
        &self.desk
    }

    /// Creates an operator of the desk, which has made no event, and has seen the moment that the owner has seen.
    pub fn operator(&mut self) -> DeskOperator
        ensures issued { self.new ≡ with_one_issued self.old }
        ensures lock { result.lock ≡ self.old.lock }
        ensures seen { result.own.seen ≡ self.old.own.seen }
        ensures new { result.own.made ≡ [] }
        ensures none { result.own.issued ≡ 0 }
    {
        self.owner.operator(&self.desk)
    }
}
