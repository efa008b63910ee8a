//! The board: one word, its rule, and the steps that may be taken at it.

use atomic_table::{Join, Play, Seat, Split, Table, TableRule};
use std::alloc::Global;
use std::marker::{Brand, PhantomData};
use tc_channel::Past;

/// The histories that are known at a seat. No value of this type is ever created. In a contract each `Past` is the
/// settings and the journal of a channel.
pub struct View {
    /// False for a seat that was joined to another one, and true for any other.
    pub live: bool,
    /// The history that was published from this seat, or seen from it.
    pub seen: Past,
    /// The history that was seen from the seat that was last joined to this one, until the publisher's next load or
    /// store. At any other time it is the history in `seen`.
    pub reported: Past,
}

/// The rule that every step at a board keeps.
pub struct BoardRule;

impl TableRule<(), View, Past> for BoardRule {
    ghost use Rattle.tc_status.specs.Board.{IsBoard, view};

    ghost holds = { λ _ s. IsBoard s.words s.views };

    ghost first = { view };
}

/// The history that a store publishes. Each call chooses it.
pub trait Publication {
    ghost use Rattle.tc_channel.specs.Journal.{History};

    ghost next: { History };
}

impl Publication for Brand {
    ghost use Rattle.tc_status.specs.Board.{no_history};

    ghost next = { no_history };
}

/// The publisher's store, which publishes a history.
pub struct Publishes<P> {
    marker: PhantomData<P>,
}

impl<P: Publication> Play<(), View> for Publishes<P> {
    ghost use Rattle.std.specs.Prelude.{◌≡◌};
    ghost use Rattle.tc_status.specs.Board.{view};

    ghost then = { λ _ before _ after. after ≡ (view P.next, before.1) };
}

/// A watcher's load, after which the watcher has seen the published history.
pub struct Reads;

impl Play<(), View> for Reads {
    ghost use Rattle.tc_status.specs.Board.{IsRead};

    ghost then = { λ _ before found after. IsRead before found after };
}

/// The publisher's load, which shows that the history reported to the publisher is a beginning of the published one.
pub struct Compares;

impl Play<(), View> for Compares {
    ghost use Rattle.tc_status.specs.Board.{IsCompared};

    ghost then = { λ _ before _ after. IsCompared before after };
}

/// The step that creates a second seat with the view of the first one. The first seat keeps its view.
pub struct Doubles;

impl Split<View> for Doubles {
    ghost left = { λ v. v };

    ghost right = { λ v. v };
}

/// The step that reports to the publisher the history that a watcher had seen. The watcher's seat is consumed.
pub struct Reports;

impl Join<View> for Reports {
    ghost use Rattle.tc_status.specs.Board.{with_reported, spent};

    ghost both = { with_reported };

    ghost spent = { spent };
}

/// A table of one word, which lies on the heap in a block of its own.
pub type WordTable = Table<(), View, Past, BoardRule, Global>;

/// A seat at a board. It takes no memory.
pub type BoardSeat = Seat<(), View>;

/// The word's table, between two arrays that nothing uses. The table has the address of the word, which lies in a block
/// of its own. Each read loads this address, and would be slower if stores to a word took away the cache lines that the
/// address is in. The array before the table keeps the table off the cache lines with its own word. The array after the
/// table keeps it off the cache lines with the next channel's word. Each array has 128 bytes, a pair of cache lines,
/// because processors fetch cache lines in pairs.
#[derive(Drop)]
pub struct Board {
    pub before: [u64; 16],
    pub table: WordTable,
    pub after: [u64; 16],
}
