//! One virtual channel of a telecommand receiver that requests memory when it is created, and never afterwards.
//!
//! A contract sees a [`FixedChannel`] as its settings, its journal, and its [`Limits`] on the length of each MAP's
//! units. Everything else in the channel is the run of its journal within these limits, so each law of tc_channel about
//! runs also holds for this channel. Unlike a channel of tc_channel, it keeps its data in rooms of tc_queues that are
//! created at the start: one for each data field, packet, unit and open run that the settings allow.
//!
//! Only [`FixedChannelWith::new`] and [`FixedChannelWith::with_limits`] receive an allocator, and no other call reports
//! that memory ran out.
#![tactic(auto)]

mod channel;
mod faults;
mod laws;
mod limits;
mod memory;
mod noted;
mod past;

pub use channel::{FixedChannel, FixedChannelWith};
pub use faults::{NoUnitTaken, NothingReleased, NothingTaken};
pub use laws::{
    a_listed_map_has_its_own_limit, limits_are_refused_so, storage_is_counted_so,
    without_limits_each_unit_is_left,
};
pub use limits::{LentLimits, Limits, LimitsFault, MapLimit};
pub use memory::{storage, storage_of_lent, storage_with_lent, storage_with_limits};
pub use noted::Noted;
pub use past::Past;
