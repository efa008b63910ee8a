//! The progress of a script: its channels are set up first, and then its lines operate on them.

ghost use Rattle.std.specs.Prelude.{◌≡◌, ◌⊎◌, IfErr, OnOk, OnErr};
ghost use Rattle.tc_rack.specs.Phase.{Does, IsBad};
ghost use Rattle.tc_rack.specs.Stage.{phase_of};

use crate::configuration::Configuration;
use crate::instruction::{Addition, Instruction};
use std::alloc::Global;
use tc_channel::Settings;
use tc_text::Reason;

/// The progress of a script. The channels are created at the first operation, from the set-up so far.
#[derive(Drop)]
pub enum Stage<O> {
    /// The channels that are set up so far.
    SettingUp(Configuration),
    /// The channels in operation, from the first operation on.
    Operating(O),
}

impl<O: Drop> Stage<O> {
    /// Sets up the channel of a channel line. If the line is refused, the call returns the reason, which is `TooLate`
    /// from the first operation on, and the stage stays as it was.
    pub fn add_channel(&mut self, settings: Settings) -> Result<(), Reason>
        ensures done { OnOk result (Does (phase_of self.old) (Instruction.Channel settings) (phase_of self.new)) }
        ensures reason { IfErr result (λ reason. (reason ≡ Reason.NoMemory) ⊎ IsBad (phase_of self.old) (Instruction.Channel settings) reason) }
        ensures refused { OnErr result (self.new ≡ self.old) }
    {
        match self {
            Stage::SettingUp(list) => list.add_channel(settings),
            Stage::Operating(_) => Err(Reason::TooLate),
        }
    }

    /// Adds the queue of a queue line or the chosen MAP of a map line to a channel. If the line is refused, the call
    /// returns the reason, which is `TooLate` from the first operation on, and the stage stays as it was.
    pub fn add_to_channel(
        &mut self,
        alloc: Global,
        vcid: u8,
        addition: Addition,
    ) -> Result<(), Reason>
        ensures done { OnOk result (Does (phase_of self.old) (Instruction.Add vcid addition) (phase_of self.new)) }
        ensures reason { IfErr result (λ reason. (reason ≡ Reason.NoMemory) ⊎ IsBad (phase_of self.old) (Instruction.Add vcid addition) reason) }
        ensures refused { OnErr result (self.new ≡ self.old) }
    {
        match self {
            Stage::SettingUp(list) => list.add_to_channel(alloc, vcid, addition),
            Stage::Operating(_) => Err(Reason::TooLate),
        }
    }
}
