//! The lock of a desk, and its operators.

ghost use Rattle.crossbeam_utils.specs.Padded.{padded_value};
ghost use Rattle.std.specs.Prelude.{◌≡◌, ◌+◌, ◌-◌, ◌^◌, ◌∷◌, [], true, min, IfOk, MatchResult, IsSome};
ghost use Rattle.logged_lock.specs.Rule.{HasLock};
ghost use Rattle.tc_queues.specs.Settings.{IsAllowed, IsRefusal};
ghost use Rattle.logged_lock.specs.Rule as rule;
ghost use Rattle.tc_desk.specs.Log.{Moment, IsResting, desk_log, at_lock, view_in, count_of, issued_count, with_one_issued};
ghost use Rattle.tc_desk.specs.Call.{HasMet, HasSeenNoMore, IsMoment, IsAsked, IsCall, IsMeeting, IsMetCall};

use crate::operation::{Makes, Occasion, Operation, Question, run_met};
use crate::resident::ResidentBadge;
use crate::slot::{DeskHead, DeskSlot};
use atomic_table::Badge;
use crossbeam_utils::CachePadded;
use logged_lock::{LockSeat, LoggedLock, View};
use std::alloc::Global;
use std::marker::{Brand, Model};
use std::mem;
use std::sync::Wait;
use tc_channel::{Event, Journal, Settings, SettingsFault};
use tc_status::{DeskOf, Watcher};

pub(crate) type DeskLock<J> = LoggedLock<DeskSlot<J>, DeskHead, Event>;

pub(crate) type DeskSeat<J> = LockSeat<DeskSlot<J>, DeskHead, Event>;

pub(crate) type DeskBadge = Badge<View<DeskHead, Event>>;

/// A desk behind a lock, which threads share. A contract sees the identity of the lock, and the parts of the desk that
/// never change.
#[derive(Drop)]
pub struct LockedDesk<J: Journal> {
    pub(crate) lock: DeskLock<J>,
}

impl<J: Journal> Model for LockedDesk<J> {
    ghost use Rattle.logged_lock.specs.Rule.{LockAt};
    ghost use Rattle.tc_desk.specs.Log.{Identity};

    ghost Value = { LockAt Identity };

    ghost view = { λ d. d.lock };
}

/// An operator of a desk, through which a thread runs operations behind the desk's lock.
#[derive(Drop)]
pub struct DeskOperator {
    badge: DeskBadge,
    // The count is on cache lines of its own, since another thread raises the next operator's count.
    count: CachePadded<u64>,
}

impl Model for DeskOperator {
    ghost use Rattle.std.specs.Prelude.{◌≡◌, true};
    ghost use Rattle.crossbeam_utils.specs.Padded.{padded_value};
    ghost use Rattle.tc_desk.specs.Log.{AtLock, at_lock, view_in, count_of, IsResting};

    ghost Value = { AtLock };

    ghost view = { λ o. at_lock o.badge.table_id o.badge.views };

    ghost invariant = { λ o. IsResting o.badge.views × ((view_in o.badge.views).maker ≡ true)
        × (padded_value o.count ≡ count_of (view_in o.badge.views).own) };
}

/// The owner of a lock, through which operators are created and the channel is taken out. The number of operators is
/// kept here, and no event is made through an owner. Threads may share an owner, since nothing can be done with a `&`
/// to it.
#[derive(Drop)]
pub struct DeskOwner {
    badge: ResidentBadge<View<DeskHead, Event>>,
    // The number has 128 bits, so that no list is as long as its largest value.
    issued: u128,
}

impl Model for DeskOwner {
    ghost use Rattle.std.specs.Prelude.{◌≡◌, []};
    ghost use Rattle.tc_desk.specs.Log.{AtLock, at_lock, view_in, issued_count, IsResting};

    ghost Value = { AtLock };

    ghost view = { λ k. at_lock k.badge.badge.table_id k.badge.badge.views };

    ghost invariant = { λ k. IsResting k.badge.badge.views × ((view_in k.badge.badge.views).reported ≡ []) × (k.badge.badge.id ≡ 0)
        × ((view_in k.badge.badge.views).own.made ≡ []) × (k.issued ≡ issued_count (view_in k.badge.badge.views).own) };
}

// Takes the lock, runs the operation, and unlocks. If the operation is answered, its event is logged with the unlock.
// The answer is returned without a match, since a match would copy the answer.
fn operate_by<P: Occasion, J: Journal, O: Operation<J>, R: Wait>(
    lock: &DeskLock<J>,
    rt: &R,
    badge: &mut DeskBadge,
    operation: &O,
) -> Result<O::Answer, O::Fault>
    requires event { P.event ≡ O.event operation.now }
    requires own { badge.old.table_id ≡ lock.now.id }
    requires resting { IsResting badge.old.views }
    requires maker { (view_in badge.old.views).maker ≡ true }
    ensures resting { IsResting badge.new.views }
    ensures maker { (view_in badge.new.views).maker ≡ true }
    ensures call { IsCall (O.event operation.now) (O.answers operation.now) (O.refuses operation.now)
        (at_lock badge.old.table_id badge.old.views) result (at_lock badge.new.table_id badge.new.views) }
{
    let mut seat: DeskSeat<J> = mem::replace(badge, Badge::blank()).into_seat();
    lock.lock(rt, &mut seat);
    let kept = seat.slot_mut(lock.table(), 0);
    let desk: &mut Option<DeskOf<J>> = &mut kept.desk;
    let Some(desk) = desk else { unreachable!() };
    let answer = operation.run(desk);
    if answer.is_ok() {
        lock.unlock_with::<Makes<P>>(&mut seat);
    } else {
        lock.unlock(&mut seat);
    }
    *badge = seat.into_badge();
    answer
}

// Runs the operation as `operate_by` does, and lets a watcher of the desk's board see the channel before and after it.
fn operate_met_by<P: Occasion, J: Journal, O: Operation<J>, R: Wait>(
    lock: &DeskLock<J>,
    rt: &R,
    badge: &mut DeskBadge,
    watcher: &mut Watcher,
    operation: &O,
) -> Result<O::Answer, O::Fault>
    requires event { P.event ≡ O.event operation.now }
    requires own { badge.old.table_id ≡ lock.now.id }
    requires resting { IsResting badge.old.views }
    requires maker { (view_in badge.old.views).maker ≡ true }
    requires board { watcher.old.board ≡ (view_in badge.old.views).own.seen.head.board }
    ensures resting { IsResting badge.new.views }
    ensures maker { (view_in badge.new.views).maker ≡ true }
    ensures call { IsMetCall (O.event operation.now) (O.answers operation.now) (O.refuses operation.now) watcher.old
        (at_lock badge.old.table_id badge.old.views) result watcher.new (at_lock badge.new.table_id badge.new.views) }
{
    let mut guard: DeskSeat<J> = mem::replace(badge, Badge::blank()).into_seat();
    lock.lock(rt, &mut guard);
    let kept = guard.slot_mut(lock.table(), 0);
    let desk: &mut Option<DeskOf<J>> = &mut kept.desk;
    let Some(desk) = desk else { unreachable!() };
    let answer = run_met(desk, watcher, operation);
    if answer.is_ok() {
        lock.unlock_with::<Makes<P>>(&mut guard);
    } else {
        lock.unlock(&mut guard);
    }
    *badge = guard.into_badge();
    answer
}

// Returns the desk's answer to the question, through the seat that has the lock.
pub(crate) fn answer_at<J: Journal, Q: Question<J>>(
    lock: &DeskLock<J>,
    seat: &mut DeskSeat<J>,
    question: &Q,
) -> Q::Answer
    requires own { seat.old.table_id ≡ lock.now.id }
    requires locks { HasLock (λ k. desk_log (padded_value k.desk)) (λ k. IsSome (padded_value k.desk)) seat.old.me seat.old.me.0.own.seen }
    ensures same { (seat.new.table_id ≡ seat.old.table_id) × (seat.new.id ≡ seat.old.id) × (seat.new.me.0 ≡ seat.old.me.0) }
    ensures asked { (after : Moment) × HasLock (λ k. desk_log (padded_value k.desk)) (λ k. IsSome (padded_value k.desk)) seat.new.me after
        × IsAsked (Q.answers question.now) seat.old.me.0.own.seen result after }
{
    let kept = seat.slot_mut(lock.table(), 0);
    kept.answer(question)
}

// Takes the lock, lets the watcher see the whole journal of the channel, and unlocks.
fn meet_by<J: Journal, R: Wait>(
    lock: &DeskLock<J>,
    rt: &R,
    badge: DeskBadge,
    watcher: &mut Watcher,
) -> DeskBadge
    requires own { badge.table_id ≡ lock.now.id }
    requires resting { IsResting badge.views }
    requires board { watcher.old.board ≡ (view_in badge.views).own.seen.head.board }
    ensures resting { IsResting result.views }
    ensures made { (view_in result.views).own.made ≡ (view_in badge.views).own.made }
    ensures maker { (view_in result.views).maker ≡ (view_in badge.views).maker }
    ensures meeting { IsMeeting watcher.old (at_lock badge.table_id badge.views) watcher.new (at_lock result.table_id result.views) }
{
    let mut seat: DeskSeat<J> = badge.into_seat();
    lock.lock(rt, &mut seat);
    let kept = seat.slot_mut(lock.table(), 0);
    kept.meet(watcher);
    lock.unlock(&mut seat);
    seat.into_badge()
}

// Counts one more event. At 2^64 - 1 the count stays as it is.
fn raise(count: &mut CachePadded<u64>)
    ensures count { padded_value count.new ≡ min (padded_value count.old + 1) (2 ^ 64 - 1) }
{
    let count: &mut u64 = count;
    *count = count.saturating_add(1);
}

// Issues a new seat from the first one.
fn issue_from<J: Journal>(lock: &DeskLock<J>, owner: DeskBadge) -> (DeskBadge, DeskBadge)
    requires own { owner.table_id ≡ lock.now.id }
    requires first { owner.id ≡ 0 }
    requires resting { IsResting owner.views }
    ensures owner { (result.0.table_id ≡ owner.table_id) × (result.0.id ≡ owner.id) }
    ensures issued { result.0.views ≡ rule.issued_one (view_in owner.views) ∷ [] }
    ensures own { result.1.table_id ≡ owner.table_id }
    ensures new { result.1.views ≡ rule.newcomer (view_in owner.views).own.seen ∷ [] }
{
    let mut first: DeskSeat<J> = owner.into_seat();
    let other = lock.issue(&mut first);
    (first.into_badge(), other.into_badge())
}

impl DeskOwner {
    /// Creates an operator, which has made no event, and has seen the moment that the owner has seen.
    pub fn operator<J: Journal>(&mut self, desk: &LockedDesk<J>) -> DeskOperator
        requires ours { self.old.lock ≡ desk.now.id }
        ensures issued { self.new ≡ with_one_issued self.old }
        ensures lock { result.lock ≡ self.old.lock }
        ensures seen { result.own.seen ≡ self.old.own.seen }
        ensures new { result.own.made ≡ [] }
        ensures none { result.own.issued ≡ 0 }
    {
        let owner = mem::replace(&mut self.badge, ResidentBadge::new(Badge::blank()));
        let (owner, badge) = issue_from(&desk.lock, owner.into_badge());
        self.badge = ResidentBadge::new(owner);
        self.issued = self.issued.saturating_add(1);
        let count = CachePadded::new(0);
        DeskOperator { badge, count }
    }

    // Creates the owner of this first seat, to which nothing was reported, and from which `issued` seats were issued.
    pub(crate) fn of(badge: DeskBadge, issued: u128) -> DeskOwner
        requires first { badge.id ≡ 0 }
        requires resting { IsResting badge.views }
        requires reported { (view_in badge.views).reported ≡ [] }
        requires made { (view_in badge.views).own.made ≡ [] }
        requires issued { issued ≡ issued_count (view_in badge.views).own }
        ensures { result ≡ at_lock badge.table_id badge.views }
    {
        let badge = ResidentBadge::new(badge);
        DeskOwner { badge, issued }
    }

    // Returns the first seat, and the number of seats that were issued from it.
    pub(crate) fn into_parts(self) -> (DeskBadge, u128)
        ensures first { result.0.id ≡ 0 }
        ensures resting { IsResting result.0.views }
        ensures reported { (view_in result.0.views).reported ≡ [] }
        ensures made { (view_in result.0.views).own.made ≡ [] }
        ensures own { at_lock result.0.table_id result.0.views ≡ self }
        ensures issued { result.1 ≡ issued_count self.own }
    {
        let DeskOwner { badge, issued } = self;
        (badge.into_badge(), issued)
    }
}

impl DeskOperator {
    /// Returns the number of events that the operator has made, or 2^64 - 1 if there are more.
    pub fn count(&self) -> u64
        ensures { result ≡ count_of self.now.own }
    {
        *self.count
    }

    // Returns the seat of an operator that makes no more events.
    pub(crate) fn into_badge(self) -> DeskBadge
        ensures resting { IsResting result.views }
        ensures maker { (view_in result.views).maker ≡ true }
        ensures own { at_lock result.table_id result.views ≡ self }
    {
        let DeskOperator { badge, count: _ } = self;
        badge
    }

    /// Runs the operation on the desk under the lock. An answered operation is counted for this operator. The call
    /// allocates no more than the operation itself does.
    pub fn operate<J: Journal, O: Operation<J>, R: Wait>(
        &mut self,
        desk: &LockedDesk<J>,
        rt: &R,
        operation: &O,
    ) -> Result<O::Answer, O::Fault>
        requires ours { self.old.lock ≡ desk.now.id }
        ensures call { IsCall (O.event operation.now) (O.answers operation.now) (O.refuses operation.now) self.old result self.new }
    {
        let answer = operate_by::<Brand, J, O, R>(&desk.lock, rt, &mut self.badge, operation);
        if answer.is_ok() {
            raise(&mut self.count);
        }
        answer
    }

    /// Runs the operation as [`operate`](DeskOperator::operate) does, and lets a watcher of the desk's board see the
    /// channel before and after it, without unlocking in between. The history that the watcher had seen is a beginning
    /// of the journal before the operation. Afterwards the watcher has seen all that the operator has seen.
    pub fn operate_met<J: Journal, O: Operation<J>, R: Wait>(
        &mut self,
        desk: &LockedDesk<J>,
        rt: &R,
        watcher: &mut Watcher,
        operation: &O,
    ) -> Result<O::Answer, O::Fault>
        requires ours { self.old.lock ≡ desk.now.id }
        requires board { watcher.old.board ≡ self.old.own.seen.head.board }
        ensures call { IsMetCall (O.event operation.now) (O.answers operation.now)
            (O.refuses operation.now) watcher.old self.old result watcher.new self.new }
    {
        let answer = operate_met_by::<Brand, J, O, R>(
            &desk.lock,
            rt,
            &mut self.badge,
            watcher,
            operation,
        );
        if answer.is_ok() {
            raise(&mut self.count);
        }
        answer
    }

    /// Lets a watcher of the desk's board see the channel under the lock. The history that the watcher had seen is a
    /// beginning of the journal at that moment. Afterwards the watcher has seen all that the operator has seen. Nothing
    /// is allocated.
    pub fn meet<J: Journal, R: Wait>(&mut self, desk: &LockedDesk<J>, rt: &R, watcher: &mut Watcher)
        requires ours { self.old.lock ≡ desk.now.id }
        requires board { watcher.old.board ≡ self.old.own.seen.head.board }
        ensures meeting { IsMeeting watcher.old self.old watcher.new self.new }
    {
        let badge = mem::replace(&mut self.badge, Badge::blank());
        self.badge = meet_by(&desk.lock, rt, badge, watcher);
    }
}

impl<J: Journal> LockedDesk<J> {
    /// Creates a desk with a new channel behind a lock that is free, and its owner. The call requests the memory of the
    /// desk and of the lock. If the settings aren't allowed, it returns their first fault. If memory runs out, it
    /// returns [`SettingsFault::NoMemory`].
    pub fn new(
        alloc: Global,
        settings: Settings,
    ) -> Result<(LockedDesk<J>, DeskOwner), SettingsFault>
        ensures owner { IfOk result (λ made. made.1.lock ≡ made.0.id) }
        ensures head { IfOk result (λ made. made.1.own.seen.head ≡ made.0.head) }
        ensures settings { IfOk result (λ made. made.1.own.seen.head.settings ≡ settings) }
        ensures journal { IfOk result (λ made. made.1.own.seen.entries ≡ []) }
        ensures new { IfOk result (λ made. made.1.own.made ≡ []) }
        ensures issued { IfOk result (λ made. made.1.own.issued ≡ 0) }
        ensures fault { MatchResult result (λ _. IsAllowed settings) (IsRefusal settings) }
    {
        let desk = DeskOf::new(alloc, settings)?;
        let head = DeskHead::of(&desk);
        let kept = DeskSlot::new(Some(desk));
        let Ok((lock, first)) = DeskLock::new(alloc, kept, &head) else {
            return Err(SettingsFault::NoMemory);
        };
        Ok((LockedDesk { lock }, DeskOwner::of(first.into_badge(), 0)))
    }

    /// Returns the desk's answer to the question at a moment under the lock, for a thread that has no operator. The
    /// contract states only that this moment has the parts of the desk that never change, and that its journal is
    /// lawful.
    pub fn ask_as_guest<Q: Question<J>, R: Wait>(&self, rt: &R, question: &Q) -> Q::Answer
        ensures { (now : Moment) × IsMoment now × (now.head ≡ self.now.head) × Q.answers question.now now result }
    {
        let mut seat = self.lock.guest();
        self.lock.lock(rt, &mut seat);
        let answer = answer_at(&self.lock, &mut seat, question);
        self.lock.unlock(&mut seat);
        answer
    }
}
