//! Workers, each of which carries out a list of jobs, in a thread of its own if another thread can be started.

ghost use Rattle.std.specs.Prelude.{◌≡◌, ◌<◌, ℕ, All, Option, None, Some, length, map, slice_index_or, OnOk, OnErr, MatchResult};
ghost use Rattle.std.specs.Thread.{IsSend, IsSync};
ghost use Rattle.tc_station.specs.Tally.{AtStation, HasGoneOnAtEach, IsOurs, KnowsTheSame, tally};
ghost use Rattle.tc_station.specs.Lowest.{lower};

use crate::faults::{BringFault, ReleaseRefused, TakeRefused, TakeUnitRefused, WorkFault};
use crate::operator::Operator;
use crate::station::StationOf;
use std::sync::Wait;
use std::thread::{Threads, join_mut};
use tc_channel::{Items, Journal, NoMemory, Octets};

/// A gate that each worker passes once, before its first job. The lock of the channel of the worker's list is held
/// meanwhile, if the station has this channel.
pub trait Gate {
    fn pass(&self, vcid: u8);
}

/// A gate that is open to all.
#[derive(Clone, Copy, Debug, PartialEq, Eq)]
pub struct FreeGate;

impl Gate for FreeGate {
    fn pass(&self, _vcid: u8) {}
}

/// An operation that a worker is to run.
#[derive(Debug, Drop, PartialEq, Eq)]
pub enum Order {
    /// The order to bring these octets to the channel that their frame names.
    Bring(Octets),
    /// The order to release the oldest data field of the list's channel.
    Release,
    /// The order to take the oldest packet of the list's channel with this APID.
    Take(u16),
    /// The order to take the oldest unit of this chosen MAP of the list's channel.
    TakeUnit(u8),
}

/// An order, and the line of the script that contains it.
#[derive(Debug, Drop, PartialEq, Eq)]
pub struct Job {
    pub line: u32,
    pub order: Order,
}

/// The jobs of one worker, in their order.
#[derive(Debug, Drop, PartialEq, Eq)]
pub struct WorkList {
    /// The virtual channel id of the list's channel.
    pub vcid: u8,
    pub jobs: Items<Job>,
}

// The bounds are needed because the locks pass the journals and their entries from thread to thread.
impl<J: Journal + Send> StationOf<J>
where
    J::Entry: Send,
{
    ghost use Rattle.tc_station.specs.Tried.{IsListMade, IsJobMade, HasMadeTheSame};
    ghost use Rattle.tc_station.specs.Work.{IsDone, MayWantMemory, IsWorked, AreStaffed, AreWorked, IsTallyOf, NoCountFalls, IsRaised, line_of_fault};

    /// Carries out each list of jobs in a thread of its own, with the operator at the list's place. A job that is
    /// refused because memory ran out ends its own list, but no other list. The lowest line of such a job is reported.
    /// Any other refusal is passed over. If no further thread starts, the running thread carries out the remaining
    /// lists, one by one. Only the operations themselves request memory.
    pub fn work<G: Gate + Sync, R: Threads + Wait + Sync>(
        &self,
        rt: &R,
        gate: &G,
        operators: &mut Vec<Operator>,
        lists: &[WorkList],
    ) -> Result<(), WorkFault>
        requires as_many { length operators.old.items ≡ length lists.now }
        requires ours { All (IsOurs self.now) operators.old.items }
        ensures worked { (line : Option ℕ) × AreWorked self.now lists.now line operators.old.items operators.new.items
            × MatchResult result (λ _. line ≡ None) (λ fault. line ≡ Some (line_of_fault fault)) }
        ensures kept { map (λ o. o.vcids) operators.new.items ≡ map (λ o. o.vcids) operators.old.items }
        ensures ours { All (IsOurs self.now) operators.new.items }
        ensures knows { (k : ℕ) (o : AtStation) → k < length lists.now
            → KnowsTheSame (slice_index_or operators.old.items k o) (slice_index_or operators.new.items k o) }
        ensures later { (k : ℕ) (o : AtStation) → k < length lists.now
            → HasGoneOnAtEach (slice_index_or operators.old.items k o) (slice_index_or operators.new.items k o) }
        ensures risen { (k : ℕ) (o : AtStation) → k < length lists.now
            → NoCountFalls (tally (slice_index_or operators.old.items k o)) (tally (slice_index_or operators.new.items k o)) }
        ensures raised { OnOk result ((k : ℕ) (l : WorkList) (o : AtStation) → k < length lists.now →
            IsRaised self.now (slice_index_or lists.now k l) (tally (slice_index_or operators.old.items k o))
            (tally (slice_index_or operators.new.items k o))) }
    {
        match self.work_all(rt, gate, lists, operators.as_mut_slice()) {
            None => Ok(()),
            Some(line) => Err(WorkFault::NoMemory { line }),
        }
    }

    // Carries out the lists, and returns the lowest line whose job was refused because memory ran out, or `None` if
    // memory didn't run out.
    #[cycle(work)]
    fn work_all<G: Gate + Sync, R: Threads + Wait + Sync>(
        &self,
        rt: &R,
        gate: &G,
        lists: &[WorkList],
        operators: &mut [Operator],
    ) -> Option<u32>
        requires { AreStaffed self.now lists.now operators.old }
        ensures { AreWorked self.now lists.now result operators.old operators.new }
    {
        if lists.len() < 2 {
            return self.work_one(rt, gate, lists, operators);
        }
        let half = lists.len() / 2;
        let (front_lists, back_lists) = lists.split_at(half);
        let (front, back) = operators.split_at_mut(half);
        self.work_halves(rt, gate, front_lists, back_lists, front, back)
    }

    // Carries out both halves of the lists, in two threads if another one can be started. Returns the lowest line whose
    // job was refused because memory ran out, or `None` if memory didn't run out.
    #[cycle(work)]
    fn work_halves<G: Gate + Sync, R: Threads + Wait + Sync>(
        &self,
        rt: &R,
        gate: &G,
        front_lists: &[WorkList],
        back_lists: &[WorkList],
        front: &mut [Operator],
        back: &mut [Operator],
    ) -> Option<u32>
        requires front_some { 0 < length front_lists.now }
        requires back_some { 0 < length back_lists.now }
        requires front_staffed { AreStaffed self.now front_lists.now front.old }
        requires back_staffed { AreStaffed self.now back_lists.now back.old }
        ensures { (a : Option ℕ) × (b : Option ℕ) × (result ≡ lower a b)
            × AreWorked self.now front_lists.now a front.old front.new × AreWorked self.now back_lists.now b back.old back.new }
    {
        let mut first = || -> Option<u32>
            requires { IsSend J.row × IsSend J.Entry.row × IsSync R.row × IsSync G.row × AreStaffed self.now front_lists.now front.now }
            ensures { AreWorked self.entry.now front_lists.entry.now result front.entry.now front.exit.now }
        { self.work_all(rt, gate, front_lists, front) };
        let mut second = || -> Option<u32>
            requires { IsSend J.row × IsSend J.Entry.row × IsSync R.row × IsSync G.row × AreStaffed self.now back_lists.now back.now }
            ensures { AreWorked self.entry.now back_lists.entry.now result back.entry.now back.exit.now }
        { self.work_all(rt, gate, back_lists, back) };
        let (a, b) = join_mut(rt, &mut first, &mut second);
        lower_line(a, b)
    }

    // Carries out the list, if there is one, and returns the line of the job that was refused because memory ran out,
    // if there is such a job.
    fn work_one<G: Gate, R: Wait>(
        &self,
        rt: &R,
        gate: &G,
        lists: &[WorkList],
        operators: &mut [Operator],
    ) -> Option<u32>
        requires one { length lists.now < 2 }
        requires staffed { AreStaffed self.now lists.now operators.old }
        ensures { AreWorked self.now lists.now result operators.old operators.new }
    {
        if lists.is_empty() {
            return None;
        }
        self.do_list(rt, gate, &lists[0], &mut operators[0])
    }

    // Passes the gate, and carries out the jobs of a list in order, up to the first that is refused because memory ran
    // out. Returns the line of this job, or `None` if all jobs were carried out.
    fn do_list<G: Gate, R: Wait>(
        &self,
        rt: &R,
        gate: &G,
        list: &WorkList,
        operator: &mut Operator,
    ) -> Option<u32>
        requires ours { IsOurs self.now operator.old }
        ensures tally { IsTallyOf self.now (tally operator.old) }
        ensures ours { IsOurs self.now operator.new }
        ensures knows { KnowsTheSame operator.old operator.new }
        ensures later { HasGoneOnAtEach operator.old operator.new }
        ensures worked { IsWorked self.now list.now result (tally operator.old) (tally operator.new) }
        ensures made { IsListMade self.now list.now result operator.old operator.new }
    {
        self.pass(rt, gate, list.vcid);
        operator.has_a_count_for_each_channel();
        for job in list.jobs.as_slice() {
            let Ok(()) = self.do_job(rt, list.vcid, &job.order, operator) else {
                return Some(job.line);
            };
        }
        None
    }

    // Carries out a job, and returns an error only if memory ran out. Any other refusal is passed over.
    fn do_job<R: Wait>(
        &self,
        rt: &R,
        vcid: u8,
        order: &Order,
        operator: &mut Operator,
    ) -> Result<(), NoMemory>
        requires ours { IsOurs self.now operator.old }
        ensures ours { IsOurs self.now operator.new }
        ensures knows { KnowsTheSame operator.old operator.new }
        ensures later { HasGoneOnAtEach operator.old operator.new }
        ensures done { OnOk result (IsDone self.now vcid order.now (tally operator.old) (tally operator.new)) }
        ensures refused { OnErr result (tally operator.new ≡ tally operator.old) }
        ensures wanting { OnErr result (MayWantMemory self.now vcid order.now) }
        ensures made { OnOk result (IsJobMade self.now vcid order.now operator.old operator.new) }
        ensures kept { OnErr result (HasMadeTheSame operator.old operator.new) }
    {
        match order {
            Order::Bring(octets) => match self.bring(rt, operator, octets) {
                Ok(_) => Ok(()),
                Err(BringFault::Locate(_)) => Ok(()),
                Err(BringFault::NoMemory) => Err(NoMemory),
            },
            Order::Release => match self.release(rt, operator, vcid) {
                Err(ReleaseRefused::NoMemory) => Err(NoMemory),
                _ => Ok(()),
            },
            Order::Take(apid) => match self.take(rt, operator, vcid, *apid) {
                Err(TakeRefused::NoMemory) => Err(NoMemory),
                _ => Ok(()),
            },
            Order::TakeUnit(map) => match self.take_unit(rt, operator, vcid, *map) {
                Err(TakeUnitRefused::NoMemory) => Err(NoMemory),
                _ => Ok(()),
            },
        }
    }
}

// Returns the lower of two lines, or the only line if one is missing.
fn lower_line(a: Option<u32>, b: Option<u32>) -> Option<u32>
    ensures { result ≡ lower a b }
{
    match (a, b) {
        (None, b) => b,
        (Some(a), None) => Some(a),
        (Some(a), Some(b)) => Some(a.min(b)),
    }
}
