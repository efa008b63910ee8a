//! The data under a desk's lock: a slot for the desk. This module also has the parts of a desk that never change.

ghost use Rattle.std.specs.Prelude.{◌≡◌, Some, IsSome};
ghost use Rattle.crossbeam_utils.specs.Padded.{padded_value};
ghost use Rattle.tc_desk.specs.{TableId};
ghost use Rattle.tc_desk.specs.Log.{identity_of, desk_log};
ghost use Rattle.tc_desk.specs.Call.{HasMet, HasSeenNoMore, IsAsked, IsMoment};

use crate::operation::Question;
use crossbeam_utils::CachePadded;
use logged_lock::{Head, Logged};
use std::marker::Model;
use std::snapshot::Snapshot;
use tc_channel::{ChannelWith, Event, Journal};
use tc_status::{DeskOf, Publisher, Watcher};

/// The parts of a desk that never change, as contracts see them. They take no memory, and no program can read them.
#[derive(Drop)]
pub struct DeskHead {
    publisher: Snapshot<Publisher>,
}

impl Model for DeskHead {
    ghost use Rattle.tc_desk.specs.Log.{Identity};

    ghost Value = { Identity };

    ghost view = { λ h. record { settings = h.publisher.value.published.settings; board = h.publisher.value.board } };
}

impl Head for DeskHead {
    ghost use Rattle.tc_desk.specs.Log.{nowhere};

    ghost blank = { nowhere };
}

impl DeskHead {
    /// Returns the parts of this desk that never change.
    pub(crate) fn of<J: Journal>(desk: &DeskOf<J>) -> DeskHead
        ensures { result ≡ identity_of desk.now }
    {
        DeskHead {
            publisher: Snapshot::of(desk.publisher()),
        }
    }
}

/// A place for a desk, which is empty once the desk was taken out. Nothing else lies on its cache lines, so that
/// threads at other desks don't slow this one down.
#[derive(Drop)]
pub struct DeskSlot<J: Journal> {
    pub(crate) desk: CachePadded<Option<DeskOf<J>>>,
}

impl<J: Journal> Logged<DeskHead, Event> for DeskSlot<J> {
    ghost use Rattle.std.specs.Prelude.{IsSome};
    ghost use Rattle.crossbeam_utils.specs.Padded.{padded_value};
    ghost use Rattle.tc_desk.specs.Log.{desk_log};

    ghost log = { λ k. desk_log (padded_value k.desk) };

    ghost fits = { λ k. IsSome (padded_value k.desk) };
}

impl<J: Journal> DeskSlot<J> {
    /// Creates a slot with this desk in it, or an empty slot for `None`.
    pub(crate) fn new(desk: Option<DeskOf<J>>) -> DeskSlot<J>
        ensures { padded_value result.desk ≡ desk }
    {
        DeskSlot {
            desk: CachePadded::new(desk),
        }
    }

    // Takes the channel out of the desk.
    pub(crate) fn into_channel(self) -> ChannelWith<J>
        requires { IsSome (padded_value self.desk) }
        ensures { (board : TableId) × (padded_value self.desk ≡ Some (record { channel = result; board = board })) }
    {
        let DeskSlot { desk } = self;
        let Some(desk) = desk.into_inner() else {
            unreachable!()
        };
        desk.into_channel()
    }

    // Returns the desk's answer to the question.
    pub(crate) fn answer<Q: Question<J>>(&mut self, question: &Q) -> Q::Answer
        requires { IsSome (padded_value self.old.desk) }
        ensures there { IsSome (padded_value self.new.desk) }
        ensures asked { IsAsked (Q.answers question.now) (desk_log (padded_value self.old.desk)) result (desk_log (padded_value self.new.desk)) }
    {
        let desk: &mut Option<DeskOf<J>> = &mut self.desk;
        let Some(desk) = desk else { unreachable!() };
        question.ask(desk)
    }

    // Lets the watcher see the whole journal of the channel.
    pub(crate) fn meet(&mut self, watcher: &mut Watcher)
        requires there { IsSome (padded_value self.old.desk) }
        requires board { watcher.old.board ≡ (desk_log (padded_value self.old.desk)).head.board }
        ensures there { IsSome (padded_value self.new.desk) }
        ensures same { desk_log (padded_value self.new.desk) ≡ desk_log (padded_value self.old.desk) }
        ensures moment { IsMoment (desk_log (padded_value self.old.desk)) }
        ensures before { HasSeenNoMore watcher.old (desk_log (padded_value self.old.desk)) }
        ensures met { HasMet (desk_log (padded_value self.old.desk)) watcher.new }
    {
        let desk: &mut Option<DeskOf<J>> = &mut self.desk;
        let Some(desk) = desk else { unreachable!() };
        // The contract of this call states that the settings are allowed and the journal is lawful. The proof needs
        // both.
        let _ = desk.channel().settings();
        desk.meet(watcher);
    }
}
