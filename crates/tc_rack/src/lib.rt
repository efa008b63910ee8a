//! The channels of one spacecraft for one thread, which needs no lock. The crate also has operations, their answers and
//! the final report, which are also used for channels that threads share.
//!
//! [`Instruction::of`] returns the instruction of a script's line. A [`Configuration`] has the settings of the channels
//! that lines have set up so far. Each of these settings is allowed, and no two have the same id. So once there is at
//! least one channel, a rack or a station can be created from them. A [`Stage`] is the progress of a script: the set-up
//! at first, and later the channels in operation.
//!
//! A contract sees each channel of a [`Rack`] with its journal and the flags of its link. The contract of an operation
//! therefore determines the answer, which is the reply that the channel of the operation gives after its journal.
#![tactic(auto)]

mod answer;
mod apids;
mod configuration;
mod copying;
mod delivery;
mod growing;
mod instruction;
mod linked;
mod operation;
mod performing;
mod queue;
mod rack;
mod report;
mod stage;

pub use answer::{Answer, Refusal};
pub use configuration::Configuration;
pub use growing::append;
pub use instruction::{Addition, Instruction};
pub use operation::Operation;
pub use performing::{Backend, RackBackend, begin, perform, start};
pub use rack::Rack;
pub use report::write_report;
pub use stage::Stage;
