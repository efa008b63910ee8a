//! The results that the definitions give after short journals.
#![tactic(auto, unfolding(crate::specs::Run::run_within, crate::specs::Run::passed_on, crate::specs::Run::IsLawfulWithin, tc_queues::specs::ChannelState::no_limits, crate::specs::Reply::frame_reply_within, crate::specs::Reply::release_reply_within, crate::specs::Reply::waiting_packets_within, crate::specs::Reply::waiting_units_within, crate::specs::Reply::buffered_fields_within, crate::specs::Reply::clcw_within, tc_queues::specs::Memory::memory_bound, tc_link::specs::Window::some_of_first))]

ghost use Rattle.std.specs.Prelude.{◌≡◌, true, false, [], ◌∷◌, Some, None};
ghost use Rattle.tc_channel.specs.declared.event.Event.TheVariants.{Frame, Release, Take, TakeUnit};
ghost use Rattle.tc_channel.specs.Reply.{frame_reply, release_reply, release_reply_within, take_reply, unit_reply, unit_reply_within, waiting_packets, waiting_units, buffered_fields, clcw};
ghost use Rattle.tc_channel.specs.Run.{IsLawful};
ghost use Rattle.tc_queues.specs.Memory.{memory_bound};
ghost use Rattle.tc_channel.specs.Holding.{holding_of};
ghost use Rattle.tc_queues.specs.Settings.{IsAllowed, IsFault};
ghost use Rattle.tc_queues.specs.declared.settings.SettingsFault.TheVariants as faults;
ghost use Rattle.tc_link.specs.declared.State.TheVariants.{S1};
ghost use Rattle.tc_channel.specs.Examples as example;

/// States the results that the definitions give after short journals, worked out by hand from the standard. Each clause
/// is about one journal and the result of the next call after it.
pub fn short_journals_are_answered_so()
    ensures accepted { clcw (example.buffer_of 1) (example.one_packet 0 ∷ []) example.link_up ≡ 0x01040001 }
    ensures one_queued_one_dropped { release_reply (example.buffer_of 1) (example.two_packets ∷ [])
        ≡ record { queued = 1; dropped = 1; rest = false } }
    ensures rest { release_reply (example.buffer_of 1) (example.packet_and_rest ∷ []) ≡ record { queued = 1; dropped = 0; rest = true } }
    ensures telemetry_and_idle { release_reply (example.buffer_of 1) (example.telemetry_and_idle ∷ [])
        ≡ record { queued = 0; dropped = 2; rest = false } }
    ensures two_segments { release_reply (example.buffer_of 2) (example.first_segment ∷ example.last_segment ∷ Release ∷ [])
        ≡ record { queued = 1; dropped = 0; rest = false } }
    ensures taken { take_reply (example.buffer_of 2) (example.first_segment ∷ example.last_segment ∷ Release ∷ Release ∷ []) 5
        ≡ Some (0x10 ∷ 0x05 ∷ 0xc0 ∷ 0x01 ∷ 0x00 ∷ 0x01 ∷ 0xaa ∷ 0xbb ∷ []) }
    ensures no_first_segment { release_reply (example.buffer_of 1) (example.lone_last_segment ∷ [])
        ≡ record { queued = 0; dropped = 0; rest = false } }
    ensures services_apart { frame_reply (example.buffer_of 1) (example.first_segment ∷ Release ∷ []) example.bypass_last_segment
        ≡ record { act = record { event = 6; accepted = true }; delivery = record { queued = 0; dropped = 0; rest = false } } }
    ensures plain { release_reply example.plain (example.plain_packet ∷ []) ≡ record { queued = 1; dropped = 0; rest = false } }
    ensures plain_keeps_the_first_octet { release_reply example.plain (example.one_packet 0 ∷ []) ≡ record { queued = 0; dropped = 0; rest = true } }
    ensures unit { unit_reply example.map_3_chosen (example.map_3_octets ∷ Release ∷ []) 3 ≡ Some (0xaa ∷ 0xbb ∷ 0xcc ∷ []) }
    ensures unit_queued { release_reply example.map_3_chosen (example.map_3_octets ∷ []) ≡ record { queued = 1; dropped = 0; rest = false } }
    ensures unit_dropped { frame_reply example.map_3_chosen (example.map_3_octets ∷ Release ∷ []) example.bypass_map_3_octets
        ≡ record { act = record { event = 6; accepted = true }; delivery = record { queued = 0; dropped = 1; rest = false } } }
    ensures empty_unit { unit_reply example.map_3_chosen (example.bypass_map_3_empty ∷ []) 3 ≡ Some [] }
    ensures wait { clcw (example.buffer_of 1) (example.one_packet 0 ∷ example.one_packet 1 ∷ []) example.link_up ≡ 0x01041801 }
{}

/// States the results after further journals, worked out by hand. The journals cover CLCWs, the buffer, the queues, and
/// each row of FARM-1's table that a frame can lead to.
pub fn further_journals_are_answered_so()
    ensures expected { frame_reply (example.buffer_of 1) [] (example.packet_octets 0)
        ≡ record { act = record { event = 1; accepted = true }; delivery = record { queued = 0; dropped = 0; rest = false } } }
    ensures no_room { frame_reply (example.buffer_of 1) (example.one_packet 0 ∷ []) (example.packet_octets 1)
        ≡ record { act = record { event = 2; accepted = false }; delivery = record { queued = 0; dropped = 0; rest = false } } }
    ensures ahead { frame_reply (example.buffer_of 1) [] (example.packet_octets 4)
        ≡ record { act = record { event = 3; accepted = false }; delivery = record { queued = 0; dropped = 0; rest = false } } }
    ensures behind { frame_reply (example.buffer_of 1) [] (example.packet_octets 251)
        ≡ record { act = record { event = 4; accepted = false }; delivery = record { queued = 0; dropped = 0; rest = false } } }
    ensures outside { frame_reply (example.buffer_of 1) [] (example.packet_octets 5)
        ≡ record { act = record { event = 5; accepted = false }; delivery = record { queued = 0; dropped = 0; rest = false } } }
    ensures bypassed { frame_reply (example.buffer_of 1) [] example.bypass_packet
        ≡ record { act = record { event = 6; accepted = true }; delivery = record { queued = 1; dropped = 0; rest = false } } }
    ensures unlocked { frame_reply (example.buffer_of 1) [] example.unlock
        ≡ record { act = record { event = 7; accepted = false }; delivery = record { queued = 0; dropped = 0; rest = false } } }
    ensures set_v_r { frame_reply (example.buffer_of 1) [] example.set_v_r_to_9
        ≡ record { act = record { event = 8; accepted = false }; delivery = record { queued = 0; dropped = 0; rest = false } } }
    ensures reserved_type { frame_reply (example.buffer_of 1) [] example.reserved
        ≡ record { act = record { event = 9; accepted = false }; delivery = record { queued = 0; dropped = 0; rest = false } } }
    ensures unlock_counted { clcw (example.buffer_of 1) (Frame example.unlock ∷ []) example.link_up ≡ 0x01040200 }
    ensures number_set { clcw (example.buffer_of 1) (Frame example.set_v_r_to_9 ∷ []) example.link_up ≡ 0x01040209 }
    ensures retransmit { clcw (example.buffer_of 1) (example.one_packet 4 ∷ []) example.link_up ≡ 0x01040800 }
    ensures lockout { clcw (example.buffer_of 1) (example.one_packet 5 ∷ []) example.link_up ≡ 0x01042000 }
    ensures room_again { clcw (example.buffer_of 1) (example.one_packet 0 ∷ example.one_packet 1 ∷ Release ∷ []) example.link_up ≡ 0x01040801 }
    ensures buffered { buffered_fields (example.buffer_of 1) (example.first_segment ∷ []) ≡ (0x40 ∷ 0x10 ∷ 0x05 ∷ 0xc0 ∷ []) ∷ [] }
    ensures discarded { buffered_fields (example.buffer_of 1) (example.one_packet 1 ∷ []) ≡ [] }
    ensures released { buffered_fields (example.buffer_of 1) (example.first_segment ∷ Release ∷ []) ≡ [] }
    ensures none_waits { waiting_packets (example.buffer_of 1) [] 5 ≡ Some [] }
    ensures no_queue { waiting_packets (example.buffer_of 1) [] 6 ≡ None }
    ensures taken_once { waiting_packets (example.buffer_of 1) (example.one_packet 0 ∷ Release ∷ Take 5 ∷ []) 5 ≡ Some [] }
    ensures unit_taken_once { waiting_units example.map_3_chosen (example.map_3_octets ∷ Release ∷ TakeUnit 3 ∷ []) 3 ≡ Some [] }
    ensures not_chosen { waiting_units example.map_3_chosen [] 4 ≡ None }
    ensures queue_is_full { release_reply (example.buffer_of 1) (example.one_packet 0 ∷ Release ∷ example.one_packet 1 ∷ [])
        ≡ record { queued = 0; dropped = 1; rest = false } }
    ensures queue_has_room_again { release_reply (example.buffer_of 1)
        (example.one_packet 0 ∷ Release ∷ Take 5 ∷ example.one_packet 1 ∷ []) ≡ record { queued = 1; dropped = 0; rest = false } }
    ensures other_application { release_reply (example.buffer_of 1) (example.packet_of_another ∷ [])
        ≡ record { queued = 0; dropped = 1; rest = false } }
    ensures expected_in_lockout { frame_reply (example.buffer_of 1) (example.one_packet 5 ∷ []) (example.packet_octets 0)
        ≡ record { act = record { event = 1; accepted = false }; delivery = record { queued = 0; dropped = 0; rest = false } } }
    ensures bypassed_in_lockout { frame_reply (example.buffer_of 1) (example.one_packet 5 ∷ []) example.bypass_packet
        ≡ record { act = record { event = 6; accepted = true }; delivery = record { queued = 1; dropped = 0; rest = false } } }
    ensures expected_after_unlock { frame_reply (example.buffer_of 1) (example.one_packet 5 ∷ Frame example.unlock ∷ [])
        (example.packet_octets 0) ≡ record {
          act = record { event = 1; accepted = true };
          delivery = record { queued = 0; dropped = 0; rest = false };
        } }
    ensures not_buffered_in_lockout { buffered_fields (example.buffer_of 1) (example.one_packet 5 ∷ example.one_packet 0 ∷ []) ≡ [] }
    ensures oldest_leaves_first { buffered_fields (example.buffer_of 2)
        (example.first_segment ∷ example.last_segment ∷ Release ∷ []) ≡ (0x80 ∷ 0x01 ∷ 0x00 ∷ 0x01 ∷ 0xaa ∷ 0xbb ∷ []) ∷ [] }
    ensures two_applications { release_reply (example.two_queues true) (example.two_applications ∷ [])
        ≡ record { queued = 2; dropped = 0; rest = false } }
    ensures second_application { waiting_packets (example.two_queues true) (example.two_applications ∷ Release ∷ []) 6
        ≡ Some ((0x10 ∷ 0x06 ∷ 0xc0 ∷ 0x00 ∷ 0x00 ∷ 0x00 ∷ 0xbb ∷ []) ∷ []) }
    ensures nothing_to_release { IsLawful (example.buffer_of 1) (Release ∷ []) → ⊥ }
    ensures map_that_is_cut { release_reply example.map_3_chosen (example.one_packet 0 ∷ []) ≡ record { queued = 1; dropped = 0; rest = false } }
{}

/// States the results after journals of channels with limits by MAP, worked out by hand. The examples are a packet of 7
/// octets on MAP 0, a packet of 8 octets in two segments on MAP 0, a unit of 3 octets on MAP 3, and an empty unit on
/// MAP 3.
pub fn journals_within_limits_are_answered_so()
    ensures of_the_limit { release_reply_within (example.limited 0 7) (example.buffer_of 1) (example.one_packet 0 ∷ [])
        ≡ record { queued = 1; dropped = 0; rest = false } }
    ensures over_the_limit { release_reply_within (example.limited 0 6) (example.buffer_of 1) (example.one_packet 0 ∷ [])
        ≡ record { queued = 0; dropped = 0; rest = false } }
    ensures limit_of_another_map { release_reply_within (example.limited 3 6) (example.buffer_of 1) (example.one_packet 0 ∷ [])
        ≡ record { queued = 1; dropped = 0; rest = false } }
    ensures run_of_the_limit { release_reply_within (example.limited 0 8) (example.buffer_of 2)
        (example.first_segment ∷ example.last_segment ∷ Release ∷ []) ≡ record { queued = 1; dropped = 0; rest = false } }
    ensures run_over_the_limit { release_reply_within (example.limited 0 7) (example.buffer_of 2)
        (example.first_segment ∷ example.last_segment ∷ Release ∷ []) ≡ record { queued = 0; dropped = 0; rest = false } }
    ensures unit_of_the_limit { unit_reply_within (example.limited 3 3) example.map_3_chosen
        (example.map_3_octets ∷ Release ∷ []) 3 ≡ Some (0xaa ∷ 0xbb ∷ 0xcc ∷ []) }
    ensures unit_over_the_limit { unit_reply_within (example.limited 3 2) example.map_3_chosen (example.map_3_octets ∷ Release ∷ []) 3 ≡ None }
    ensures empty_unit { unit_reply_within (example.limited 3 0) example.map_3_chosen (example.bypass_map_3_empty ∷ []) 3 ≡ Some [] }
{}

/// States the bound of memory for three settings, worked out by hand.
pub fn memory_is_counted_so()
    ensures plain { memory_bound (example.two_queues false) ≡ 12740 }
    ensures segmented { memory_bound (example.two_queues true) ≡ 17312279 }
    ensures many { memory_bound example.many_queues ≡ 1192075848 }
{}

/// States the state of the channel after one journal, worked out by hand. A packet of application 5 and a unit of MAP 3
/// came by Type-BD and wait, and the first Type-AD frame fills the buffer.
pub fn a_journal_comes_to_this()
    ensures { holding_of example.map_3_chosen (Frame example.bypass_packet ∷ Frame example.bypass_map_3_octets ∷ example.one_packet 0 ∷ [])
        ≡ record {
          report = record { state = S1; vr = 1; lockout = false; wait = false; retransmit = false; farm_b = 2 };
          buffered = 1;
          queues = record { apid = 5; packets = 1 } ∷ [];
          maps = record { map = 3; units = 1 } ∷ [];
        } }
{}

/// States the first fault of settings, worked out by hand. The settings of the first clause have every fault that
/// settings can have. Each later clause, up to the one with allowed settings, repairs the fault of the clause before
/// it. A number that is too large becomes the greatest one that is allowed. The settings of `least` have the least
/// numbers that are allowed. Each clause after it changes one of them to a number that isn't allowed.
pub fn settings_are_refused_so()
    ensures vcid { IsFault (example.channel_of false 64 255 65 (example.two_apids 2047 2047 257) (example.two_maps 64 64 257)) faults.BadVcid }
    ensures window { IsFault (example.channel_of false 63 255 65 (example.two_apids 2047 2047 257) (example.two_maps 64 64 257)) faults.BadWindow }
    ensures buffer { IsFault (example.channel_of false 63 254 65 (example.two_apids 2047 2047 257) (example.two_maps 64 64 257)) faults.BadBuffer }
    ensures apid { IsFault (example.channel_of false 63 254 64 (example.two_apids 2047 2047 257) (example.two_maps 64 64 257)) faults.BadApid }
    ensures double_apid { IsFault (example.channel_of false 63 254 64 (example.two_apids 2046 2046 257)
        (example.two_maps 64 64 257)) faults.DoubleApid }
    ensures capacity { IsFault (example.channel_of false 63 254 64 (example.two_apids 2046 0 257) (example.two_maps 64 64 257)) faults.BadCapacity }
    ensures map { IsFault (example.channel_of false 63 254 64 (example.two_apids 2046 0 256) (example.two_maps 64 64 257)) faults.BadMap }
    ensures double_map { IsFault (example.channel_of false 63 254 64 (example.two_apids 2046 0 256) (example.two_maps 63 63 257)) faults.DoubleMap }
    ensures units { IsFault (example.channel_of false 63 254 64 (example.two_apids 2046 0 256) (example.two_maps 63 0 257)) faults.BadUnits }
    ensures plain_map { IsFault (example.channel_of false 63 254 64 (example.two_apids 2046 0 256) (example.two_maps 63 0 256)) faults.PlainMap }
    ensures largest { IsAllowed (example.channel_of true 63 254 64 (example.two_apids 2046 0 256) (example.two_maps 63 0 256)) }
    ensures least { IsAllowed (example.channel_of true 0 2 1 (example.two_apids 0 2046 1) (example.two_maps 0 63 1)) }
    ensures odd_window { IsFault (example.channel_of true 0 3 1 (example.two_apids 0 2046 1) (example.two_maps 0 63 1)) faults.BadWindow }
    ensures no_buffer { IsFault (example.channel_of true 0 2 0 (example.two_apids 0 2046 1) (example.two_maps 0 63 1)) faults.BadBuffer }
    ensures no_packet { IsFault (example.channel_of true 0 2 1 (example.two_apids 0 2046 0) (example.two_maps 0 63 1)) faults.BadCapacity }
    ensures no_unit { IsFault (example.channel_of true 0 2 1 (example.two_apids 0 2046 1) (example.two_maps 0 63 0)) faults.BadUnits }
{}
