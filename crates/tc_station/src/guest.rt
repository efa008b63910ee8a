//! Questions that a station puts to its desks for a thread without an operator.

ghost use Rattle.std.specs.Prelude.{⊤};

use crate::work::Gate;
use tc_channel::Journal;
use tc_desk::Question;
use tc_status::DeskOf;

/// A question without an answer, which passes the gate once while the desk's lock is held.
#[derive(Drop)]
pub(crate) struct Passing<'a, G> {
    pub(crate) gate: &'a G,
    pub(crate) vcid: u8,
}

impl<J: Journal, G: Gate> Question<J> for Passing<'_, G> {
    type Answer = ();

    ghost answers = { λ _ _ _. ⊤ };

    fn ask(&self, desk: &mut DeskOf<J>) {
        self.gate.pass(self.vcid);
        // This call is made for its contract, which states that the journal is lawful.
        let _ = desk.channel().settings();
    }
}
