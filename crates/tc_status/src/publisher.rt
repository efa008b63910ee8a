//! The publishing end of a board. A board has exactly one, which can be moved but not copied.

ghost use Rattle.std.specs.Prelude.{◌≡◌, [], IfOk};
ghost use Rattle.std.specs.Arc.{arc_value};
ghost use Rattle.tc_status.specs.Board.{IsEarlier, IsSeated, view};

use crate::board::{Board, BoardSeat, Doubles, Publication, Publishes, WordTable};
use crate::watcher::Watcher;
use std::alloc::Global;
use std::marker::{Brand, Model};
use std::sync::Arc;
use tc_channel::{ChannelWith, Journal, NoMemory};
use tc_link::Link;

const NO_FLAG: Link = Link {
    no_rf: false,
    no_bit_lock: false,
};

/// The publisher of one channel's status.
#[derive(Drop)]
pub struct Publisher {
    pub(crate) board: Arc<Board>,
    pub(crate) seat: BoardSeat,
}

impl Model for Publisher {
    ghost use Rattle.std.specs.Prelude.{◌≡◌};
    ghost use Rattle.std.specs.Arc.{arc_value};
    ghost use Rattle.tc_status.specs.Board.{Publishing, IsSeated};

    ghost Value = { Publishing };

    ghost view = { λ p. record { board = p.seat.table_id; published = p.seat.me.0.seen } };

    ghost invariant = { λ p. IsSeated (arc_value p.board).table.shared.table_id p.seat.table_id p.seat.me × (p.seat.id ≡ 0) };
}

impl Publisher {
    /// Creates the board of a channel, and publishes the channel's journal so far. The call makes two allocations, one
    /// for the board and one for its word.
    pub fn new<J: Journal>(alloc: Global, channel: &ChannelWith<J>) -> Result<Publisher, NoMemory>
        ensures { IfOk result (λ publisher. publisher.published ≡ channel.now) }
    {
        let word = u64::from(channel.clcw(NO_FLAG));
        let Ok((table, seat)) = WordTable::of_words(alloc, &[word], &channel.past()) else {
            return Err(NoMemory);
        };
        let board = Board {
            before: [0; 16],
            table,
            after: [0; 16],
        };
        let Ok(board) = Arc::new(alloc, board) else {
            return Err(NoMemory);
        };
        Ok(Publisher { board, seat })
    }

    /// Publishes the channel's journal, by one store. The channel must have the settings that were published last, and
    /// its journal must begin with the journal that was published last.
    pub fn publish<J: Journal>(&mut self, channel: &ChannelWith<J>)
        requires { IsEarlier self.old.published channel.now }
        ensures board { self.new.board ≡ self.old.board }
        ensures published { self.new.published ≡ channel.now }
    {
        store::<Brand, J>(&self.board, &mut self.seat, channel);
    }

    /// Creates a watcher of this board, which has seen the published history. The call fails only if the board can
    /// count no more owners.
    pub fn watcher(&mut self) -> Result<Watcher, NoMemory>
        ensures board { IfOk result (λ watcher. watcher.board ≡ self.old.board) }
        ensures seen { IfOk result (λ watcher. watcher.seen ≡ self.old.published) }
        ensures unchanged { self.new ≡ self.old }
    {
        let Ok(board) = Arc::try_clone(&self.board) else {
            return Err(NoMemory);
        };
        let seat = board.table.shared.split_seat::<Doubles>(&mut self.seat);
        Ok(Watcher { board, seat })
    }
}

// Stores the word of a publication.
fn store<P: Publication, J: Journal>(
    board: &Arc<Board>,
    seat: &mut BoardSeat,
    channel: &ChannelWith<J>,
)
    requires publication { P.next ≡ channel.now }
    requires seated { IsSeated (arc_value board.now).table.shared.table_id seat.old.table_id seat.old.me }
    requires first { seat.old.id ≡ 0 }
    requires later { IsEarlier seat.old.me.0.seen channel.now }
    ensures same { (seat.new.table_id ≡ seat.old.table_id) × (seat.new.id ≡ seat.old.id) }
    ensures published { seat.new.me ≡ (view channel.now, []) }
{
    let word = u64::from(channel.clcw(NO_FLAG));
    board.table.shared.store::<Publishes<P>>(seat, 0, word);
}
