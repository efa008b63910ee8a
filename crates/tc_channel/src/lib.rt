//! One virtual channel of a telecommand receiver, with the journal of its events.
//!
//! A contract sees a [`Channel`] as its settings and its journal. It sees a [`CountingChannel`] in the same way,
//! although the journal of that channel takes no memory. Everything else in the channel is the run of that journal:
//! FARM-1's components, the buffered data fields, the open runs of reassembly, the packet queues and the unit queues.
//! The laws about these definitions are the contracts of [`allowed_settings_have_no_fault`], [`wait_means_no_room`],
//! [`each_frame_has_a_step`], [`each_journal_has_an_era`], [`accepted_frames_count_up`],
//! [`a_clcw_reports_how_many_were_accepted`], [`unlock_and_set_v_r_open_a_channel`],
//! [`a_unit_takes_steps_by_its_octets`], [`a_sender_s_frames_may_come_so`],
//! [`what_was_sent_is_accepted_once_and_in_order`], [`what_was_sent_is_given_in_order`],
//! [`queues_are_those_of_the_settings`], [`queues_keep_to_their_capacity`], [`short_journals_are_answered_so`],
//! [`further_journals_are_answered_so`], [`journals_within_limits_are_answered_so`], [`a_journal_comes_to_this`],
//! [`passed_fields_make_so`], [`memory_is_counted_so`], [`settings_are_refused_so`],
//! [`each_passed_field_is_accounted_for`], [`chosen_maps_stay`], [`a_unit_is_delivered_whole_or_by_packets`],
//! [`a_unit_is_kept_where_its_queue_has_room`], [`a_unit_beyond_the_limit_of_its_map_is_none`],
//! [`buffer_keeps_to_its_size`], [`each_packet_is_queued_or_dropped`], [`no_more_items_wait_than_memory_counts`],
//! [`what_waits_is_within_the_bound_of_memory`], [`each_clcw_fits_its_word`], [`a_longer_run_goes_on`],
//! [`what_was_accepted_is_passed_on_in_order`], [`what_was_passed_on_is_admitted_in_order`],
//! [`what_was_admitted_is_given_in_order`], [`nothing_is_lost_that_no_reply_reports`] and
//! [`a_plain_channel_takes_each_field_as_a_unit`].
#![tactic(auto)]

mod answered;
mod channel;
mod channel_core;
mod event;
mod flow;
mod holding;
mod journal;
mod laws;
mod lent;
mod memory;
mod past;
mod recorded;
mod unrecorded;

pub use answered::{
    a_journal_comes_to_this, further_journals_are_answered_so,
    journals_within_limits_are_answered_so, memory_is_counted_so, settings_are_refused_so,
    short_journals_are_answered_so,
};
pub use channel::{Channel, ChannelWith, CountingChannel, FlightChannel};
pub use channel_core::ChannelCore;
pub use event::Event;
pub use flow::{
    a_clcw_reports_how_many_were_accepted, each_passed_field_is_accounted_for,
    nothing_is_lost_that_no_reply_reports, passed_fields_make_so,
    what_was_accepted_is_passed_on_in_order, what_was_admitted_is_given_in_order,
    what_was_passed_on_is_admitted_in_order, what_was_sent_is_given_in_order,
};
pub use holding::{Holding, MapHolding, QueueHolding, holding_in};
pub use journal::Journal;
pub use laws::{
    a_longer_run_goes_on, a_plain_channel_takes_each_field_as_a_unit,
    a_sender_s_frames_may_come_so, a_unit_beyond_the_limit_of_its_map_is_none,
    a_unit_is_delivered_whole_or_by_packets, a_unit_is_kept_where_its_queue_has_room,
    a_unit_takes_steps_by_its_octets, accepted_frames_count_up, allowed_settings_have_no_fault,
    buffer_keeps_to_its_size, chosen_maps_stay, each_clcw_fits_its_word, each_frame_has_a_step,
    each_journal_has_an_era, each_packet_is_queued_or_dropped, queues_are_those_of_the_settings,
    queues_keep_to_their_capacity, unlock_and_set_v_r_open_a_channel, wait_means_no_room,
    what_was_sent_is_accepted_once_and_in_order,
};
pub use lent::LentEvent;
pub use memory::{no_more_items_wait_than_memory_counts, what_waits_is_within_the_bound_of_memory};
pub use past::Past;
pub use recorded::Recorded;
pub use tc_queues::{
    Delivery, FrameReply, Items, LARGEST_FIELD, LentSettings, MapSetting, NoMemory, NotCopied,
    Octets, QUEUE_WORDS, QueueSetting, ROOM_WORDS, RUN_WORDS, ReleaseFault, Settings,
    SettingsFault, Steps, TakeFault, TakeUnitFault, Tick,
};
pub use unrecorded::{EventsSeen, Unrecorded};
