//! The watching ends of a board.

ghost use Rattle.std.specs.Prelude.{◌≡◌};
ghost use Rattle.tc_queues.specs.Settings.{IsAllowed};
ghost use Rattle.tc_channel.specs.Run.{IsLawful};
ghost use Rattle.tc_status.specs.Board.{IsEarlier, status_word};

use crate::board::{Board, BoardSeat, Compares, Doubles, Reads, Reports};
use crate::publisher::Publisher;
use std::marker::Model;
use std::mem;
use std::sync::Arc;
use tc_channel::each_clcw_fits_its_word;

/// A reader of one channel's status, for any thread.
#[derive(Drop)]
pub struct Watcher {
    pub(crate) board: Arc<Board>,
    pub(crate) seat: BoardSeat,
}

impl Model for Watcher {
    ghost use Rattle.std.specs.Arc.{arc_value};
    ghost use Rattle.tc_status.specs.Board.{Watching, IsSeated};

    ghost Value = { Watching };

    ghost view = { λ w. record { board = w.seat.table_id; seen = w.seat.me.0.seen } };

    ghost invariant = { λ w. IsSeated (arc_value w.board).table.shared.table_id w.seat.table_id w.seat.me };
}

impl Watcher {
    /// Returns the CLCW of a moment of the channel, with both link flags 0. The call takes one load, and waits for no
    /// other thread.
    ///
    /// The moment is no earlier than that of the previous read. It is the moment that was published last, but no
    /// contract states this.
    pub fn read(&mut self) -> u32
        ensures board { self.new.board ≡ self.old.board }
        ensures later { IsEarlier self.old.seen self.new.seen }
        ensures word { result ≡ status_word self.new.seen }
        ensures allowed { IsAllowed self.new.seen.settings }
        ensures lawful { IsLawful self.new.seen.settings self.new.seen.journal }
    {
        each_clcw_fits_its_word();
        self.board.table.shared.load::<Reads>(&mut self.seat, 0) as u32
    }
}

/// Lets a watcher see the history that its publisher has published. Each later read of the watcher then shows this
/// moment or a later one.
pub fn meet(publisher: &mut Publisher, watcher: &mut Watcher)
    requires { watcher.old.board ≡ publisher.old.board }
    ensures publisher { publisher.new ≡ publisher.old }
    ensures board { watcher.new.board ≡ watcher.old.board }
    ensures seen { watcher.new.seen ≡ publisher.old.published }
    ensures later { IsEarlier watcher.old.seen publisher.old.published }
{
    let shared = &publisher.board.table.shared;
    let fresh = shared.split_seat::<Doubles>(&mut publisher.seat);
    let old = mem::replace(&mut watcher.seat, fresh);
    shared.join_seat::<Reports>(&mut publisher.seat, old);
    shared.load::<Compares>(&mut publisher.seat, 0);
}
