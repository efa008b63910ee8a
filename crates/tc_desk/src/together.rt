//! Closing a list of desks.

ghost use Rattle.std.specs.Prelude.{◌≡◌, ◌≢◌, ◌<◌, ◌≤◌, ◌+◌, ◌-◌, ◌^◌, ◌++◌, [], All, true, min, length, map, reverse, IfOk, IfErr, MatchBool, vec_len, vec_capacity};
ghost use Rattle.logged_lock.specs.Log.{total_made};
ghost use Rattle.tc_desk.specs.Log.{accounts_of};
ghost use Rattle.tc_desk.specs.Together.{AreOurs, AreClosed, AreMoments, AreOut, AreSame, CanCloseEach, CannotCloseOne, HasCause, IsFresh, IsClosingRefusal, column, owners_of, locks_of, settings_of_desks, reported_row, reported_rows};

use crate::guard::DeskGuard;
use crate::locked::DeskOperator;
use crate::owned_desk::OwnedDesk;
use std::alloc::{AllocError, Global};
use tc_channel::{ChannelWith, Journal};

/// A list of operators, one at each desk of a list.
pub trait OperatorList: Drop {
    ghost use Rattle.std.specs.Prelude.{◌≡◌, List};
    ghost use Rattle.tc_desk.specs.Log.{AtLock};

    // the operators, in the order of the desks
    ghost at_desks: { Self → List AtLock };

    /// Returns the operators, in the order of the desks.
    fn operators(&self) -> &[DeskOperator]
        ensures { result.now ≡ at_desks self.now };

    /// Returns the operators by value, in the order of the desks. They make no more events.
    fn into_operators(self) -> Vec<DeskOperator>
        ensures { result.items ≡ at_desks self };
}

impl OperatorList for Vec<DeskOperator> {
    ghost at_desks = { λ v. v.items };

    fn operators(&self) -> &[DeskOperator] {
        self.as_slice()
    }

    fn into_operators(self) -> Vec<DeskOperator> {
        self
    }
}

/// The reason why desks weren't taken out of their locks.
#[derive(Clone, Copy, Debug, PartialEq, Eq)]
pub enum Refusal {
    /// Memory ran out.
    NoMemory,
    /// A lock isn't free. No call of this crate returns with a lock taken, so the owner of the desks never sees this
    /// refusal.
    InUse,
    /// The operators at one of the desks don't account for its journal. Either there are fewer of them than were
    /// issued, and they haven't made as many events as the journal has, or they have made 2^64 - 1 events or more.
    Unbalanced,
}

/// Desks that weren't closed. They are returned with the operators, and work can go on.
#[derive(Drop)]
pub struct LeftOpen<J: Journal, C: Drop> {
    pub owned_desks: Vec<OwnedDesk<J>>,
    pub operator_lists: Vec<C>,
    pub refusal: Refusal,
}

// Creates empty lists with room for `count` channels and `count` guards.
fn rooms<J: Journal>(
    alloc: Global,
    count: usize,
) -> Result<(Vec<ChannelWith<J>>, Vec<DeskGuard<J>>), AllocError>
    ensures empty { IfOk result (λ both. (both.0.items ≡ []) × (both.1.items ≡ [])) }
    ensures room { IfOk result (λ both. (count ≤ vec_capacity both.0) × (count ≤ vec_capacity both.1)) }
{
    let room = Vec::with_capacity(alloc, count)?;
    let hands = Vec::with_capacity(alloc, count)?;
    Ok((room, hands))
}

// Takes the lock of this desk if it is free.
fn hold<J: Journal>(owned_desk: OwnedDesk<J>) -> Result<DeskGuard<J>, OwnedDesk<J>>
    ensures owner { IfOk result (λ guard. guard.owner ≡ owned_desk) }
    ensures fresh { IfOk result IsFresh }
    ensures refused { IfErr result (λ left. left ≡ owned_desk) }
{
    let OwnedDesk { desk, owner } = owned_desk;
    match DeskGuard::hold(desk, owner) {
        Ok(guard) => Ok(guard),
        Err((desk, owner)) => Err(OwnedDesk { desk, owner }),
    }
}

// Unlocks the desk.
fn leave<J: Journal>(guard: DeskGuard<J>) -> OwnedDesk<J>
    requires { IsFresh guard }
    ensures lock { result.lock ≡ guard.owner.lock }
    ensures head { result.own.seen.head ≡ guard.owner.own.seen.head }
    ensures issued { result.own.issued ≡ guard.owner.own.issued }
{
    let (desk, owner) = guard.leave();
    OwnedDesk { desk, owner }
}

// Takes the locks, beginning with the lock of the last desk, as long as they are free. The guards come in the order in
// which the locks are taken. Returns whether all locks were taken.
fn hold_all<J: Journal>(owned_desks: &mut Vec<OwnedDesk<J>>, guards: &mut Vec<DeskGuard<J>>) -> bool
    requires empty { guards.old.items ≡ [] }
    requires room { vec_len owned_desks.old ≤ vec_capacity guards.old }
    ensures all { owned_desks.new.items ++ reverse (owners_of guards.new.items) ≡ owned_desks.old.items }
    ensures done { result ≡ true → owned_desks.new.items ≡ [] }
    ensures fresh { All IsFresh guards.new.items }
    ensures room { vec_len owned_desks.new + vec_len guards.new ≤ vec_capacity owned_desks.new }
{
    while let Some(owned_desk) = owned_desks.pop() {
        let desk = match hold(owned_desk) {
            Ok(desk) => desk,
            Err(owned_desk) => {
                owned_desks.push_reserved(owned_desk);
                return false;
            }
        };
        guards.push_reserved(desk);
    }
    true
}

// Unlocks the desks, beginning with the one whose lock was taken last.
fn leave_all<J: Journal>(owned_desks: &mut Vec<OwnedDesk<J>>, mut guards: Vec<DeskGuard<J>>)
    requires fresh { All IsFresh guards.items }
    requires room { vec_len owned_desks.old + vec_len guards ≤ vec_capacity owned_desks.old }
    ensures { AreSame (owned_desks.old.items ++ reverse (owners_of guards.items)) owned_desks.new.items }
{
    while let Some(desk) = guards.pop() {
        owned_desks.push_reserved(leave(desk));
    }
}

// Returns the number of events that the operators at the desk at this place have made in all, or 2^64 - 1 if there are
// more.
fn count_at<C: OperatorList>(operator_lists: &[C], place: usize) -> u64
    requires { All (λ operator_list. place < length (C.at_desks operator_list)) operator_lists.now }
    ensures { result ≡ min (total_made (accounts_of (column place (map C.at_desks operator_lists.now)))) (2 ^ 64 - 1) }
{
    let mut total = 0u64;
    for operator_list in operator_lists {
        total = total.saturating_add(operator_list.operators()[place].count());
    }
    total
}

// Returns whether the operators at each of these desks can close it.
fn can_close_each<J: Journal, C: OperatorList>(
    guards: &[DeskGuard<J>],
    operator_lists: &[C],
) -> bool
    requires { AreOurs (owners_of guards.now) (map C.at_desks operator_lists.now) }
    ensures { MatchBool result (CanCloseEach guards.now (map C.at_desks operator_lists.now))
        (CannotCloseOne guards.now (map C.at_desks operator_lists.now)) }
{
    for (place, desk) in guards.iter().enumerate() {
        if !desk.can_close(operator_lists.len(), count_at(operator_lists, place)) {
            return false;
        }
    }
    true
}

// Reports to the owner of each desk which events the operator there has seen and made.
fn report_row<J: Journal>(guards: &mut [DeskGuard<J>], mut operators: Vec<DeskOperator>)
    requires { locks_of operators.items ≡ locks_of (owners_of guards.old) }
    ensures { guards.new ≡ reported_row guards.old operators.items }
{
    while let Some(operator) = operators.pop() {
        guards[operators.len()].report(operator);
    }
}

// Reports to the owners of the desks which events the operators of all lists have seen and made, list by list.
fn report_rows<J: Journal, C: OperatorList>(guards: &mut [DeskGuard<J>], operator_lists: Vec<C>)
    requires { AreOurs (owners_of guards.old) (map C.at_desks operator_lists.items) }
    ensures { guards.new ≡ reported_rows guards.old (map C.at_desks operator_lists.items) }
{
    for operator_list in operator_lists {
        report_row(guards, operator_list.into_operators());
    }
}

// Takes the channels out, into a list with room for them.
fn take_all_out<J: Journal>(
    guards: Vec<DeskGuard<J>>,
    mut room: Vec<ChannelWith<J>>,
) -> Vec<ChannelWith<J>>
    requires empty { room.items ≡ [] }
    requires room { vec_len guards ≤ vec_capacity room }
    ensures { AreOut guards.items result.items }
{
    for desk in guards {
        room.push_reserved(desk.take_out());
    }
    room
}

// Takes all locks, and returns the guards in the order of the desks. If one of the locks isn't free, the locks that
// were taken are released, and all desks are returned.
fn take_locks<J: Journal>(
    mut owned_desks: Vec<OwnedDesk<J>>,
    mut guards: Vec<DeskGuard<J>>,
) -> Result<(Vec<OwnedDesk<J>>, Vec<DeskGuard<J>>), Vec<OwnedDesk<J>>>
    requires empty { guards.items ≡ [] }
    requires room { vec_len owned_desks ≤ vec_capacity guards }
    ensures guard { IfOk result (λ both. AreMoments owned_desks.items both.1.items) }
    ensures empty { IfOk result (λ both. both.0.items ≡ []) }
    ensures room { IfOk result (λ both. vec_len both.1 ≤ vec_capacity both.0) }
    ensures kept { IfErr result (λ left. AreSame owned_desks.items left.items) }
{
    if !hold_all(&mut owned_desks, &mut guards) {
        leave_all(&mut owned_desks, guards);
        return Err(owned_desks);
    }
    guards.reverse();
    Ok((owned_desks, guards))
}

// Unlocks all desks, whose guards come in the order of the desks.
fn give_back<J: Journal>(
    mut owned_desks: Vec<OwnedDesk<J>>,
    mut guards: Vec<DeskGuard<J>>,
) -> Vec<OwnedDesk<J>>
    requires fresh { All IsFresh guards.items }
    requires empty { owned_desks.items ≡ [] }
    requires room { vec_len guards ≤ vec_capacity owned_desks }
    ensures { AreSame (owners_of guards.items) result.items }
{
    guards.reverse();
    leave_all(&mut owned_desks, guards);
    owned_desks
}

// Returns the desks and the operators that weren't closed, with the refusal.
fn left_open<J: Journal, C: Drop>(
    owned_desks: Vec<OwnedDesk<J>>,
    operator_lists: Vec<C>,
    refusal: Refusal,
) -> LeftOpen<J, C>
    ensures { (result.owned_desks ≡ owned_desks) × (result.operator_lists ≡ operator_lists) × (result.refusal ≡ refusal) }
{
    LeftOpen {
        owned_desks,
        operator_lists,
        refusal,
    }
}

/// Takes the channels out of their locks, in the order of the desks, if all events of each journal were made by the
/// operators of that desk. This is so if the lists have all operators that were issued. Otherwise the desks and the
/// operators are returned. The call refuses a desk whose operators have made 2^64 - 1 events or more, because they
/// aren't counted any further. Two lists are allocated before any lock is taken. All locks are taken, and all counts
/// are compared, before any channel is taken out.
pub fn close_together<J: Journal, C: OperatorList>(
    alloc: Global,
    owned_desks: Vec<OwnedDesk<J>>,
    operator_lists: Vec<C>,
) -> Result<Vec<ChannelWith<J>>, LeftOpen<J, C>>
    requires ours { AreOurs owned_desks.items (map C.at_desks operator_lists.items) }
    ensures closed { IfOk result (λ channels. AreClosed owned_desks.items (map C.at_desks operator_lists.items) channels.items) }
    ensures kept { IfErr result (λ left. AreSame owned_desks.items left.owned_desks.items × (left.operator_lists.items ≡ operator_lists.items)) }
    ensures refusal { IfErr result (λ left. IsClosingRefusal owned_desks.items (map C.at_desks operator_lists.items) left.refusal) }
    ensures cause { IfErr result (λ left. left.refusal ≡ Refusal.Unbalanced → HasCause owned_desks.items (map C.at_desks operator_lists.items)) }
{
    let Ok((room, hands)) = rooms(alloc, owned_desks.len()) else {
        return Err(left_open(owned_desks, operator_lists, Refusal::NoMemory));
    };
    let (owned_desks, mut guards) = match take_locks(owned_desks, hands) {
        Ok(both) => both,
        Err(owned_desks) => return Err(left_open(owned_desks, operator_lists, Refusal::InUse)),
    };
    let can_close = can_close_each(&guards, &operator_lists);
    if !can_close {
        return Err(left_open(
            give_back(owned_desks, guards),
            operator_lists,
            Refusal::Unbalanced,
        ));
    }
    report_rows(&mut guards, operator_lists);
    Ok(take_all_out(guards, room))
}

/// Takes the channels out of their locks, in the order of the desks, without a look at the operators. The contract
/// promises nothing about operators. Two lists are allocated before any lock is taken. The refusal is `NoMemory` or
/// `InUse`, and all desks are returned with it.
pub fn take_out_together<J: Journal>(
    alloc: Global,
    owned_desks: Vec<OwnedDesk<J>>,
) -> Result<Vec<ChannelWith<J>>, (Vec<OwnedDesk<J>>, Refusal)>
    ensures channels { IfOk result (λ channels. map (λ c. c.settings) channels.items ≡ settings_of_desks owned_desks.items) }
    ensures kept { IfErr result (λ left. AreSame owned_desks.items left.0.items) }
    ensures refusal { IfErr result (λ left. left.1 ≢ Refusal.Unbalanced) }
{
    let Ok((room, hands)) = rooms(alloc, owned_desks.len()) else {
        return Err((owned_desks, Refusal::NoMemory));
    };
    match take_locks(owned_desks, hands) {
        Ok(both) => Ok(take_all_out(both.1, room)),
        Err(owned_desks) => Err((owned_desks, Refusal::InUse)),
    }
}
