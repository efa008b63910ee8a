//! A session, which keeps the text of its last answer.

ghost use Rattle.std.specs.Prelude.{◌≡◌, ◌≢◌, ◌⊎◌, [], None};
ghost use Rattle.tc_session.specs.Session.{IsClosed, IsEnded, IsSaid, closing_text, ends_of, script_fault};
ghost use Rattle.tc_session.specs.declared.session.Said.TheVariants as said;

use crate::engine::Engine;
use std::alloc::Global;
use std::io::Write;
use std::mem::replace;
use tc_live::{FrameEnds, Receiver, ServingFault};
use tc_text::{Reason, ScriptFault};

// The number of bytes that are reserved for a text before its line is carried out. The text of an answer requests more
// memory only if it is longer.
const ROOM: usize = 147_456;

/// The outcome of a line, or of the end of the lines.
#[derive(Clone, Copy, Debug, PartialEq, Eq)]
pub enum Said {
    /// The line was carried out, and the text is its answer. At the end, the text is the final report.
    Done,
    /// A script ends at the line, and the text is the reason. At the end, the text is the reason why there is no report.
    Bad,
    /// Memory ran out before anything was done.
    NoMemory,
    /// Memory ran out at the answer, which is lost. No more lines are answered.
    Lost,
    /// The lines had already ended, so nothing was done.
    Over,
}

/// A session, which answers lines one at a time, and keeps the text of the last answer.
#[derive(Drop)]
pub struct Session {
    pub engine: Engine,
    pub text: Vec<u8>,
    /// The outcome that the text belongs to, if a caller still has to fetch the text because its buffer was too short.
    pub waits: Option<Said>,
    /// The record of whether the receiver's frames ended with a frame error control field, kept once the lines have
    /// ended.
    pub ends: FrameEnds,
}

impl Session {
    /// Creates a session that has answered nothing.
    pub fn new(alloc: Global, engine: Engine) -> Session
        ensures engine { result.engine ≡ engine }
        ensures text { result.text.items ≡ [] }
        ensures waits { result.waits ≡ None }
    {
        Session {
            engine,
            text: Vec::new(alloc),
            waits: None,
            ends: FrameEnds::NoFrame,
        }
    }

    /// Carries out a line, which is given without its line feed, and keeps the text of its answer.
    pub fn answer(&mut self, alloc: Global, line: &[u8]) -> Said
        ensures said { IsSaid result self.old.engine line.now self.new.engine self.new.text.items }
        ensures waits { self.new.waits ≡ self.old.waits }
    {
        self.text.clear();
        if self.engine.has_ended() {
            return Said::Over;
        }
        if self.text.reserve(ROOM).is_err() {
            return Said::NoMemory;
        }
        match self.engine.answer(alloc, line, &mut self.text) {
            Ok(true) => Said::Done,
            Ok(false) => {
                self.engine = Engine::Ended;
                Said::Bad
            }
            Err(_) => {
                self.engine = Engine::Ended;
                Said::Lost
            }
        }
    }

    /// Ends the lines, and keeps the text of the final report, or the reason why there is none. The report of a maker
    /// is empty.
    pub fn end(&mut self, alloc: Global) -> Said
        ensures ended { IsEnded result self.old.engine self.new.engine self.new.text.items }
        ensures ends { ends_of self.new ≡ ends_of self.old }
        ensures waits { self.new.waits ≡ self.old.waits }
    {
        self.text.clear();
        if self.engine.has_ended() {
            return Said::Over;
        }
        if self.text.reserve(ROOM).is_err() {
            return Said::NoMemory;
        }
        self.ends = self.ends();
        match replace(&mut self.engine, Engine::Ended) {
            Engine::Live(receiver) => self.close(alloc, receiver, None),
            Engine::Script { receiver, lines } => self.close(alloc, receiver, Some(lines)),
            Engine::Make(_) => Said::Done,
            Engine::Ended => unreachable!(),
        }
    }

    // Closes a receiver. `lines` is the number of lines of its script, or `None` if the receiver answered as `tclive`
    // does.
    fn close(&mut self, alloc: Global, receiver: Receiver, lines: Option<u32>) -> Said
        requires { self.old.text.items ≡ [] }
        ensures closed { IsClosed result receiver lines self.new.text.items }
        ensures kept { (self.new.engine ≡ self.old.engine) × (self.new.waits ≡ self.old.waits) × (self.new.ends ≡ self.old.ends) }
    {
        match receiver.close(alloc, &mut self.text) {
            Ok(()) => Said::Done,
            Err(ServingFault::Write) => Said::Lost,
            Err(fault) => self.say(fault, lines),
        }
    }

    // Keeps the reason why there is no final report, in the words of `tcrx run` or of `tclive`.
    fn say(&mut self, fault: ServingFault, lines: Option<u32>) -> Said
        requires { self.old.text.items ≡ [] }
        ensures said { (result ≡ said.Lost) ⊎ ((result ≡ said.Bad) × (self.new.text.items ≡ closing_text lines fault)) }
        ensures kept { (self.new.engine ≡ self.old.engine) × (self.new.waits ≡ self.old.waits) × (self.new.ends ≡ self.old.ends) }
    {
        let written = match lines {
            None => writeln!(self.text, "{fault}"),
            Some(line) => {
                let fault = script_fault(fault, line);
                writeln!(self.text, "{fault}")
            }
        };
        match written {
            Ok(()) => Said::Bad,
            Err(_) => Said::Lost,
        }
    }

    /// Returns the record of whether the frames of all lines so far ended with a frame error control field. It is kept
    /// only if frames aren't checked.
    pub fn ends(&self) -> FrameEnds
        ensures { result ≡ ends_of self.now }
    {
        match &self.engine {
            Engine::Live(receiver) => receiver.ends(),
            Engine::Script { receiver, lines: _ } => receiver.ends(),
            Engine::Make(_) => FrameEnds::NoFrame,
            Engine::Ended => self.ends,
        }
    }
}

// Returns the fault that a script of `line` lines reports for a fault at its end.
fn script_fault(fault: ServingFault, line: u32) -> ScriptFault
    ensures { result ≡ script_fault line fault }
{
    match fault {
        ServingFault::Unbalanced => ScriptFault::Unbalanced,
        ServingFault::Read | ServingFault::Write | ServingFault::NoMemory => ScriptFault::Line {
            line,
            reason: Reason::NoMemory,
        },
    }
}
