//! The state of `tcmake`.

use crate::decoders::Decoders;
use crate::ending::Ending;
use std::alloc::{AllocError, Global};
use tc_edges::tm::Counts;

/// The state that the answers to lines depend on: the ending of frames, the counts of telemetry frames, and the
/// decoders of streams.
#[derive(Drop)]
pub struct Maker {
    pub ending: Ending,
    pub counts: Counts,
    pub decoders: Decoders,
}

impl Maker {
    ghost use Rattle.std.specs.Prelude.{◌≡◌, IfOk};
    ghost use Rattle.tc_make.specs.Making.{new_maker};

    /// Creates the state in which no telemetry frame was made and no stream has a decoder. The call requests memory.
    pub fn new(alloc: Global, ending: Ending) -> Result<Maker, AllocError>
        ensures { IfOk result (λ maker. maker ≡ new_maker ending) }
    {
        let counts = Counts::new(alloc)?;
        let decoders = Decoders::new(alloc)?;
        Ok(Maker {
            ending,
            counts,
            decoders,
        })
    }
}
