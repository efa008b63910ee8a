//! The lock, with the calls that take it, release it and account for its log.

ghost use Rattle.std.specs.Prelude.{◌≡◌, ◌<◌, ◌≤◌, [], ◌∷◌, length, IfOk, MatchBool, true};
ghost use Rattle.logged_lock.specs.Log.{start_of, with_entry, total_made, IsMergeOf, AreBehind};
ghost use Rattle.logged_lock.specs.Word.{is_open, asking, given_back};
ghost use Rattle.logged_lock.specs.Rule.{newcomer, guest, issued_one, unlocked, unlocked_with, reported_of, IsIdle, HasLock, IsTaken, IsAccountedFor};

use crate::rule::{
    Accounts, Issues, Leaves, LeavesWith, LockRule, LockSeat, Marks, NextEntry, Reports, Sits,
    Takes,
};
use crate::views::{Head, Logged, View};
use atomic_table::{Shared, Table};
use std::alloc::{AllocError, Global};
use std::hint::spin_loop;
use std::marker::Model;
use std::sync::Wait;

// The words of a free lock. At `FREE` any thread may take the lock, and at `LEFT` only a thread that has slept.
const FREE: u64 = 0;

const LEFT: u64 = 1;

// The words of a taken lock. `TAKEN` means only that the lock is taken. `SLEEPERS` also means that a thread may sleep.
// `ASKED` also means that a thread has requested the lock for threads that have slept. While the lock is taken, its
// word only rises.
const TAKEN: u64 = 2;

const SLEEPERS: u64 = 3;

const ASKED: u64 = 4;

// The lock's word is the middle one of these words. The others are never used. They keep other data on the heap away
// from the pair of cache lines with the lock's word, which processors fetch together.
const WORDS: [u64; 33] = [FREE; 33];

const WORD: usize = 16;

// The number of times that a thread looks at the word of a taken lock before it sleeps, and the number of pauses after
// its first look. After each further look it makes twice as many pauses as after the look before. A look takes the
// word's cache line from the thread that has the lock.
const LOOKS: u32 = 6;

const PAUSES: u32 = 32;

// The number of times that a thread sleeps before it requests the lock for threads that have slept. The request makes
// starvation rare, but there is no bound on a thread's wait.
const LOST_WAKES: u64 = 2;

// Returns whether a thread that has slept `sleeps` times may take a lock with this word.
fn is_open(word: u64, sleeps: u64) -> bool
    ensures open { result ≡ is_open word sleeps }
    ensures free { result ≡ true → word < 2 }
{
    word == FREE || (word == LEFT && sleeps != 0)
}

// Returns the word with which a thread that has slept `sleeps` times marks a taken lock, to show that it waits.
fn asking(sleeps: u64) -> u64
    ensures asked { result ≡ asking sleeps }
    ensures taken { (2 ≤ result) × (result ≤ 4) }
{
    if sleeps < LOST_WAKES { SLEEPERS } else { ASKED }
}

// Returns the word that replaces `word` when the lock is released.
fn given_back(word: u64) -> u64
    ensures given_back { result ≡ given_back word }
    ensures free { result < 2 }
{
    if word == ASKED { LEFT } else { FREE }
}

/// A lock. The thread that has the lock also has the protected data. In contracts, the value of the lock is its
/// identity and the head of the log, which never changes.
#[derive(Drop)]
pub struct LoggedLock<S: Logged<D, E>, D, E> {
    table: Table<S, View<D, E>, D, LockRule, Global>,
}

impl<S: Logged<D, E>, D, E> Model for LoggedLock<S, D, E> {
    ghost use Rattle.std.specs.Prelude.{◌≡◌};
    ghost use Rattle.logged_lock.specs.Rule.{LockAt};

    ghost Value = { LockAt D };

    ghost view = { λ l. record { id = l.table.shared.table_id; head = l.table.shared.key } };

    ghost invariant = { λ l. (l.table.shared.table_id.words ≡ 33) × (l.table.shared.table_id.slots ≡ 1) };
}

impl<S: Logged<D, E>, D: Head, E> LoggedLock<S, D, E> {
    /// Creates a lock that is free, and its first seat. The log of `kept`, the protected data, must have the head
    /// `head` and no entry. The call fails if memory runs out.
    pub fn new(
        alloc: Global,
        kept: S,
        head: &D,
    ) -> Result<(LoggedLock<S, D, E>, LockSeat<S, D, E>), AllocError>
        requires fits { S.fits kept }
        requires fresh { S.log kept ≡ start_of head.now }
        ensures own { IfOk result (λ made. made.1.table_id ≡ made.0.id) }
        ensures head { IfOk result (λ made. made.0.head ≡ head.now) }
        ensures first { IfOk result (λ made. made.1.id ≡ 0) }
        ensures seat { IfOk result (λ made. made.1.me ≡ (newcomer (start_of head.now), [])) }
    {
        let mut slots = Vec::with_capacity(alloc, 1)?;
        slots.push_reserved(kept);
        let Ok((table, seat)) = Table::new(alloc, &WORDS, slots, head) else {
            return Err(AllocError);
        };
        Ok((LoggedLock { table }, seat))
    }

    // Takes the lock if its word is `current`, a word of a free lock, and changes the word to `next`. Returns whether
    // the word was `current`.
    fn take(&self, seat: &mut LockSeat<S, D, E>, current: u64, next: u64) -> bool
        requires free { current < 2 }
        requires taken { 2 ≤ next }
        requires own { seat.old.table_id ≡ self.now.id }
        requires idle { IsIdle seat.old.me }
        ensures same { (seat.new.table_id ≡ seat.old.table_id) × (seat.new.id ≡ seat.old.id) }
        ensures taken { MatchBool result (IsTaken S.log S.fits seat.old.me seat.new.me) (seat.new.me ≡ seat.old.me) }
    {
        self.table
            .shared
            .compare_exchange::<Takes>(seat, WORD, current, next)
            == current
    }

    // Raises the word of a taken lock from `current` to `next`, and returns whether the word was `current`.
    fn mark(&self, seat: &mut LockSeat<S, D, E>, current: u64, next: u64) -> bool
        requires taken { (2 ≤ current) × (2 ≤ next) }
        requires own { seat.old.table_id ≡ self.now.id }
        ensures same { (seat.new.table_id ≡ seat.old.table_id) × (seat.new.id ≡ seat.old.id) × (seat.new.me ≡ seat.old.me) }
    {
        self.table
            .shared
            .compare_exchange::<Marks>(seat, WORD, current, next)
            == current
    }

    // Returns the word at this moment.
    fn look(&self) -> u64
        ensures { result ≤ 4 }
    {
        self.table.shared.peek(WORD).min(ASKED)
    }

    // Looks at the word for a while, as long as the lock is taken and no thread sleeps. Returns the last word that the
    // thread saw.
    fn spin(&self) -> u64
        ensures { result ≤ 4 }
    {
        let mut pauses = PAUSES;
        for _ in 0..LOOKS {
            let word = self.look();
            if word != TAKEN {
                return word;
            }
            for _ in 0..pauses {
                spin_loop();
            }
            pauses = pauses.saturating_mul(2);
        }
        TAKEN
    }

    // Raises the word of a taken lock to the mark of this thread (`asking`), sleeps while the word stays the same,
    // and returns the last word that the thread saw. The word isn't raised if the lock is free, or if the word is
    // already that high. If the word changes before it is raised, the thread doesn't sleep.
    fn sleep<R: Wait>(&self, rt: &R, seat: &mut LockSeat<S, D, E>, word: u64, sleeps: u64) -> u64
        requires small { word ≤ 4 }
        requires own { seat.old.table_id ≡ self.now.id }
        ensures same { (seat.new.table_id ≡ seat.old.table_id) × (seat.new.id ≡ seat.old.id) × (seat.new.me ≡ seat.old.me) }
        ensures small { result ≤ 4 }
    {
        let wanted = asking(sleeps);
        let mut expected = word;
        if TAKEN <= word && word < wanted {
            if !self.mark(seat, word, wanted) {
                return self.look();
            }
            expected = wanted;
        }
        self.table.shared.park(rt, WORD, expected as u32);
        self.spin()
    }

    /// Takes the lock if it is free and isn't left to threads that have slept. Returns whether the lock was taken.
    pub fn try_lock(&self, seat: &mut LockSeat<S, D, E>) -> bool
        requires own { seat.old.table_id ≡ self.now.id }
        requires idle { IsIdle seat.old.me }
        ensures same { (seat.new.table_id ≡ seat.old.table_id) × (seat.new.id ≡ seat.old.id) }
        ensures taken { MatchBool result (IsTaken S.log S.fits seat.old.me seat.new.me) (seat.new.me ≡ seat.old.me) }
    {
        self.take(seat, FREE, TAKEN)
    }

    // Takes the lock once it is free. The thread looks at the word for a while, and then sleeps until the lock is
    // released.
    #[cold]
    #[inline(never)]
    fn wait<R: Wait>(&self, rt: &R, seat: &mut LockSeat<S, D, E>)
        requires own { seat.old.table_id ≡ self.now.id }
        requires idle { IsIdle seat.old.me }
        ensures same { (seat.new.table_id ≡ seat.old.table_id) × (seat.new.id ≡ seat.old.id) }
        ensures taken { IsTaken S.log S.fits seat.old.me seat.new.me }
    {
        let mut word = self.spin();
        if word == FREE && self.try_lock(seat) {
            return;
        }
        let mut sleeps = 0u64;
        for _ in rt.forever() {
            if is_open(word, sleeps) {
                if self.take(seat, word, SLEEPERS) {
                    return;
                }
                word = self.look();
            } else {
                word = self.sleep(rt, seat, word, sleeps);
                sleeps = sleeps.saturating_add(1);
            }
        }
        unreachable!()
    }

    /// Takes the lock once it is free. A thread that waits looks at the lock for a while, and then sleeps until the lock
    /// is released.
    pub fn lock<R: Wait>(&self, rt: &R, seat: &mut LockSeat<S, D, E>)
        requires own { seat.old.table_id ≡ self.now.id }
        requires idle { IsIdle seat.old.me }
        ensures same { (seat.new.table_id ≡ seat.old.table_id) × (seat.new.id ≡ seat.old.id) }
        ensures taken { IsTaken S.log S.fits seat.old.me seat.new.me }
    {
        if !self.try_lock(seat) {
            self.wait(rt, seat);
        }
    }

    // Wakes a thread if `word`, which was the lock's word before its release, shows that a thread may sleep.
    fn wake(&self, word: u64) {
        if TAKEN < word {
            self.table.shared.wake_one(WORD);
        }
    }

    /// Releases the lock without an entry. The log must be as it was when the lock was taken.
    pub fn unlock(&self, seat: &mut LockSeat<S, D, E>)
        requires own { seat.old.table_id ≡ self.now.id }
        requires unchanged { HasLock S.log S.fits seat.old.me seat.old.me.0.own.seen }
        ensures same { (seat.new.table_id ≡ seat.old.table_id) × (seat.new.id ≡ seat.old.id) }
        ensures unlocked { seat.new.me ≡ (unlocked seat.old.me.0, []) }
    {
        let next = given_back(self.look());
        let word = self.table.shared.swap::<Leaves>(seat, WORD, next);
        self.wake(word);
    }

    /// Releases the lock with an entry, which belongs to the seat from then on. The log must have this entry at its
    /// end, after the entries that it had when the lock was taken.
    pub fn unlock_with<P: NextEntry<E>>(&self, seat: &mut LockSeat<S, D, E>)
        requires own { seat.old.table_id ≡ self.now.id }
        requires maker { seat.old.me.0.maker ≡ true }
        requires longer { HasLock S.log S.fits seat.old.me (with_entry seat.old.me.0.own.seen P.entry) }
        ensures same { (seat.new.table_id ≡ seat.old.table_id) × (seat.new.id ≡ seat.old.id) }
        ensures unlocked { seat.new.me ≡ (unlocked_with P.entry seat.old.me.0, []) }
    {
        let next = given_back(self.look());
        let word = self.table.shared.swap::<LeavesWith<P>>(seat, WORD, next);
        self.wake(word);
    }

    /// Creates a seat from which no entry can be made, for a thread without a seat.
    pub fn guest(&self) -> LockSeat<S, D, E>
        ensures own { result.table_id ≡ self.now.id }
        ensures head { result.me.0.own.seen.head ≡ self.now.head }
        ensures seat { result.me ≡ (guest result.me.0.own.seen, []) }
    {
        self.table.shared.load_new_seat::<Sits>(WORD).1
    }

    /// Creates a seat without entries. The new seat has seen the part of the log that the first seat has seen.
    pub fn issue(&self, first: &mut LockSeat<S, D, E>) -> LockSeat<S, D, E>
        requires own { first.old.table_id ≡ self.now.id }
        requires first { first.old.id ≡ 0 }
        requires live { first.old.me.0.live ≡ true }
        ensures same { (first.new.table_id ≡ first.old.table_id) × (first.new.id ≡ first.old.id) }
        ensures issued { first.new.me ≡ (issued_one first.old.me.0, first.old.me.1) }
        ensures own { result.table_id ≡ first.old.table_id }
        ensures seat { result.me ≡ (newcomer first.old.me.0.own.seen, []) }
    {
        self.table.shared.split_seat::<Issues>(first)
    }

    /// Reports to the first seat the part of the log that another seat has seen, and the entries that it has made. The
    /// other seat is consumed.
    pub fn report(&self, first: &mut LockSeat<S, D, E>, other: LockSeat<S, D, E>)
        requires own { (first.old.table_id ≡ self.now.id) × (other.table_id ≡ self.now.id) }
        requires first { first.old.id ≡ 0 }
        requires live { first.old.me.0.live ≡ true }
        requires idle { IsIdle other.me }
        requires maker { other.me.0.maker ≡ true }
        ensures same { (first.new.table_id ≡ first.old.table_id) × (first.new.id ≡ first.old.id) }
        ensures reported { first.new.me ≡ (reported_of first.old.me.0 other.me.0, first.old.me.1) }
    {
        self.table.shared.join_seat::<Reports>(first, other);
    }

    /// Accounts for the entries of the log, through the first seat, which must have the lock. If the seats that
    /// reported to the first one have made as many entries as the log has, the log is a merge of their entries. The
    /// numbers are equal if all seats that the first one issued have reported, and the first one has made no entry
    /// itself.
    pub fn account(&self, first: &mut LockSeat<S, D, E>)
        requires own { first.old.table_id ≡ self.now.id }
        requires first { first.old.id ≡ 0 }
        requires locks { first.old.me.0.locks ≡ true }
        ensures same { (first.new.table_id ≡ first.old.table_id) × (first.new.id ≡ first.old.id) × (first.new.me ≡ first.old.me) }
        ensures accounted { IsAccountedFor first.old.me.0 }
        ensures behind { AreBehind first.old.me.0.reported first.old.me.0.own.seen }
        ensures whole { first.old.me.0.own.made ≡ [] → first.old.me.0.own.issued ≤ length first.old.me.0.reported
            → total_made first.old.me.0.reported ≡ length first.old.me.0.own.seen.entries }
        ensures merge { total_made first.old.me.0.reported ≡ length first.old.me.0.own.seen.entries
            → IsMergeOf first.old.me.0.own.seen.entries first.old.me.0.reported }
    {
        self.table.shared.load::<Accounts>(first, WORD);
    }

    /// Returns the table that the `slot_mut` of a seat needs. If the seat has the lock, `slot_mut` lends the protected
    /// data, which is in slot 0.
    pub fn table(&self) -> &Shared<S, View<D, E>, D, LockRule>
        ensures { result.now.table_id ≡ self.now.id }
    {
        &self.table.shared
    }

    /// Replaces the protected data with `kept`, and returns the old data. The seat must have the lock.
    pub fn replace(&self, seat: &mut LockSeat<S, D, E>, kept: S) -> S
        requires own { seat.old.table_id ≡ self.now.id }
        requires locks { (old : S) × (seat.old.me.1 ≡ (0, old) ∷ []) }
        ensures same { (seat.new.table_id ≡ seat.old.table_id) × (seat.new.id ≡ seat.old.id) × (seat.new.me.0 ≡ seat.old.me.0) }
        ensures old { seat.old.me.1 ≡ (0, result) ∷ [] }
        ensures kept { seat.new.me.1 ≡ (0, kept) ∷ [] }
    {
        self.table.shared.exchange(seat, 0, kept)
    }
}
