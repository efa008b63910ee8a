//! The part of a channel that contracts see. It takes no memory.

use crate::unrecorded::EventsSeen;
use std::marker::Model;
use std::snapshot::Snapshot;
use tc_queues::Settings;

/// The settings of a channel and its journal at one moment, as contracts see them. They take no memory, and no program
/// can read them.
#[derive(Drop)]
pub struct Past {
    pub(crate) settings: Snapshot<Settings>,
    pub(crate) journal: EventsSeen,
}

impl Model for Past {
    ghost use Rattle.tc_channel.specs.Journal.{History};

    ghost Value = { History };

    ghost view = { λ p. record { settings = p.settings.value; journal = p.journal.events } };
}
