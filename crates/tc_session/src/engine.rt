//! The engine of a session, which answers its lines.

ghost use Rattle.std.specs.Prelude.{◌≡◌, IfOk, IfSome, OnOk, false};
ghost use Rattle.tc_lines.specs.Answering.{IsAnswered, Writes};
ghost use Rattle.tc_live.specs.Receiver.{new_receiver};
ghost use Rattle.tc_live.specs.declared.check.FrameCheck.TheVariants.{Nothing};
ghost use Rattle.tc_make.specs.Making.{new_maker};
ghost use Rattle.tc_session.specs.Session.{IsEngineSaid, IsScriptLineSaid, has_ended};

use std::alloc::Global;
use std::io;
use std::io::Write;
use tc_lines::LineAnswerer;
use tc_live::{FrameCheck, MAX_LINE as LONGEST_LIVE_LINE, Receiver};
use tc_make::{Ending, MAX_LINE as LONGEST_MAKER_LINE, Maker};
use tc_text::{ScriptFault, SpacecraftId};

/// The engine of a session: the receiver or the maker that answers its lines, in its state after the lines so far.
#[derive(Drop)]
pub enum Engine {
    /// A receiver that answers as `tclive` does.
    Live(Receiver),
    /// A receiver that carries out a script as `tcrx run` does, and the number of lines so far.
    Script { receiver: Receiver, lines: u32 },
    /// A maker that answers as `tcmake` does.
    Make(Maker),
    /// The state after the lines have ended, in which no more lines are answered.
    Ended,
}

/// Creates the engine that answers as `tclive` does, from a receiver for which nothing is set up.
pub fn live_engine(alloc: Global, spacecraft: SpacecraftId, check: FrameCheck) -> Engine
    ensures { result ≡ Engine.Live (new_receiver check spacecraft.number) }
{
    Engine::Live(Receiver::new(alloc, spacecraft, check))
}

/// Creates the engine that carries out a script as `tcrx run` does, before its first line.
pub fn script_engine(alloc: Global, spacecraft: SpacecraftId) -> Engine
    ensures { result ≡ Engine.Script (new_receiver Nothing spacecraft.number) 0 }
{
    Engine::Script {
        receiver: Receiver::new(alloc, spacecraft, FrameCheck::Nothing),
        lines: 0,
    }
}

/// Creates the engine that answers as `tcmake` does, from a maker that has made nothing. Returns `None` if memory runs
/// out.
pub fn maker_engine(alloc: Global, ending: Ending) -> Option<Engine>
    ensures { IfSome result (λ engine. engine ≡ Engine.Make (new_maker ending)) }
{
    match Maker::new(alloc, ending) {
        Ok(maker) => Some(Engine::Make(maker)),
        Err(_) => None,
    }
}

impl Engine {
    /// Returns whether the lines have ended.
    pub(crate) fn has_ended(&self) -> bool
        ensures { result ≡ has_ended self.now }
    {
        match self {
            Engine::Live(_) => false,
            Engine::Script {
                receiver: _,
                lines: _,
            } => false,
            Engine::Make(_) => false,
            Engine::Ended => true,
        }
    }

    /// Carries out a line, which is given without its line feed, and writes its answer. If a script ends at the line,
    /// the answer is the reason, and the call returns false.
    pub(crate) fn answer<W: Write>(
        &mut self,
        alloc: Global,
        line: &[u8],
        writer: &mut W,
    ) -> io::Result<bool>
        requires { has_ended self.old ≡ false }
        ensures { IfOk result (λ good. Writes (W.contents writer.old) (W.contents writer.new) (IsEngineSaid good self.old line.now self.new)) }
    {
        match self {
            Engine::Live(receiver) => {
                answer_within(alloc, LONGEST_LIVE_LINE, receiver, line, writer)?;
                Ok(true)
            }
            Engine::Script { receiver, lines } => {
                *lines = lines.saturating_add(1);
                answer_in_script(alloc, receiver, *lines, line, writer)
            }
            Engine::Make(maker) => {
                answer_within(alloc, LONGEST_MAKER_LINE - 1, maker, line, writer)?;
                Ok(true)
            }
            Engine::Ended => unreachable!(),
        }
    }
}

// Answers a line, which may have at most `limit` octets.
fn answer_within<A: LineAnswerer, W: Write>(
    alloc: Global,
    limit: usize,
    answerer: &mut A,
    line: &[u8],
    writer: &mut W,
) -> io::Result<()>
    ensures { OnOk result (Writes (W.contents writer.old) (W.contents writer.new) (IsAnswered limit A.answers answerer.old line.now answerer.new)) }
{
    if line.len() > limit {
        return writeln!(writer, "bad too long");
    }
    answerer.answer_line(alloc, line, writer)
}

// Carries out the line of a script with this number, and writes its answer. If the script ends at the line, the answer
// is the reason, and the call returns false.
fn answer_in_script<W: Write>(
    alloc: Global,
    receiver: &mut Receiver,
    number: u32,
    line: &[u8],
    writer: &mut W,
) -> io::Result<bool>
    ensures { IfOk result (λ good. Writes (W.contents writer.old) (W.contents writer.new)
        (IsScriptLineSaid good number receiver.old line.now receiver.new)) }
{
    match receiver.do_script_line(alloc, line) {
        Ok(answer) => {
            write!(writer, "{answer}")?;
            Ok(true)
        }
        Err(reason) => {
            let fault = ScriptFault::Line {
                line: number,
                reason,
            };
            writeln!(writer, "{fault}")?;
            Ok(false)
        }
    }
}
