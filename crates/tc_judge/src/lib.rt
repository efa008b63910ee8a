//! A judge of receivers, which are units that somebody else built and that must answer frames as FARM-1 does.
//!
//! A test bench notes each frame that it sends to a unit and each CLCW that it hears. For each CLCW, [`Judge::heard`]
//! returns whether a history of a right unit explains it, together with everything that was noted before. For an
//! impossible CLCW, [`Judge::possible`] finds the components that would have been possible. [`is_possible`] judges a
//! whole account. [`read_sent`] and [`read_heard`] read the items of an account from octets. [`Shown`] is the type of
//! the components that a CLCW shows, and [`ShownSet`] is a set of them.
//!
//! Laws over the definitions stand as contracts of functions with empty bodies:
//! [`a_frame_that_is_sent_is_on_its_way`], [`only_a_release_changes_a_unit_to_which_nothing_is_on_its_way`],
//! [`a_clcw_shows_the_state`], [`a_clcw_can_show_the_components_of_a_farm`], [`a_clcw_reads_as_the_components`],
//! [`milder_rules_explain_more`], [`items_are_read_so`].
#![tactic(auto)]

mod account;
mod judge;
mod laws;
mod layer;
mod reading;
mod shown;
mod step;
mod walk;

pub use account::{Item, Rules, SentFrame};
pub use judge::{Judge, Verdict, is_possible};
pub use laws::{
    a_clcw_can_show_the_components_of_a_farm, a_clcw_reads_as_the_components,
    a_clcw_shows_the_state, a_frame_that_is_sent_is_on_its_way, items_are_read_so,
    milder_rules_explain_more, only_a_release_changes_a_unit_to_which_nothing_is_on_its_way,
};
pub use layer::COMPONENTS;
pub use reading::{read_heard, read_sent};
pub use shown::{Shown, ShownSet};
