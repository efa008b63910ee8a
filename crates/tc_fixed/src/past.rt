//! A channel as contracts see it, in a value that takes no memory.

use crate::limits::Limits;
use std::marker::Model;
use std::snapshot::Snapshot;
use tc_channel::{EventsSeen, Settings};

/// The settings of a channel, its limits and its journal at one moment, as contracts see them. They take no memory, and
/// no program can read them.
#[derive(Drop)]
pub struct Past {
    pub(crate) settings: Snapshot<Settings>,
    pub(crate) limits: Snapshot<Limits>,
    pub(crate) journal: EventsSeen,
}

impl Model for Past {
    ghost use Rattle.tc_fixed.specs.History.{LimitedHistory};

    ghost Value = { LimitedHistory };

    ghost view = { λ p. record { settings = p.settings.value; limits = p.limits.value; journal = p.journal.events } };
}
