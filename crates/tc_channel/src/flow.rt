//! Laws about the data that leaves a channel. This data is part of the data that came in, and leaves in the same order.
#![tactic(auto, using(crate::proofs::Closing::flow))]

ghost use Rattle.std.specs.Prelude.{◌≡◌, ◌≤◌, ◌∷◌, ◌+◌, ◌%◌, ℕ, true, List, [], Some, length, map, take};
ghost use Rattle.tc_link.specs.declared.Link.{Link};
ghost use Rattle.tc_link.specs.Clcw.{fields_of};
ghost use Rattle.tc_queues.specs.Settings.{IsAllowed};
ghost use Rattle.tc_packet.specs.declared.Service.{Service};
ghost use Rattle.tc_queues.specs.declared.settings.Settings.{Settings};
ghost use Rattle.tc_channel.specs.declared.event.Event.{Event};
ghost use Rattle.tc_queues.specs.ChannelState.{Accepted, Queue, first_state_within, no_limits, queue_of, waiting};
ghost use Rattle.tc_channel.specs.Examples as example;
ghost use Rattle.tc_channel.specs.Run.{run_within, IsLawfulWithin};
ghost use Rattle.tc_channel.specs.Reply.{clcw_within, take_reply_within, unit_reply_within};
ghost use Rattle.tc_channel.specs.Given.{oldest_in, packets_given, units_given, fields_passed};
ghost use Rattle.tc_channel.specs.Era.{IsEraWithin, ComesFromWithin, accepted_since_within};
ghost use Rattle.tc_channel.specs.Account.{Share, AccountFor};
ghost use Rattle.tc_channel.specs.Lossless.{DropsNone};
ghost use Rattle.tc_channel.specs.Through.{IsPartOf, packets_made, units_made, sent_from, passed_since, released_since};

use tc_link::a_written_clcw_reads_back;

/// After a lawful journal, the Type-AD data fields passed to reassembly are the ones that were accepted and released,
/// each once and in order.
pub fn what_was_accepted_is_passed_on_in_order()
    ensures { (limits : ℕ → ℕ) (s : Settings) (journal : List Event) → IsLawfulWithin limits s journal
        → fields_passed Service.Ad (run_within limits s journal).passed
        ≡ map (λ (a : Accepted). a.field) (take (run_within limits s journal).released (run_within limits s journal).accepted) }
{}

/// The packets taken for an application are, in order, the first ones that its queue ever admitted: each packet once,
/// and none left out. This also holds for the units of a chosen MAP. The reply to a take is the oldest item that waits.
#[tactic(auto, using(crate::proofs::Closing::flow), unfolding(crate::specs::Reply::waiting_packets_within, crate::specs::Reply::waiting_units_within))]
pub fn what_was_admitted_is_given_in_order()
    ensures packets { (limits : ℕ → ℕ) (s : Settings) (journal : List Event) (apid : ℕ) (q : Queue)
        → queue_of apid (run_within limits s journal).queues ≡ Some q
        → packets_given s apid (first_state_within limits s) journal ≡ take q.taken q.admitted }
    ensures units { (limits : ℕ → ℕ) (s : Settings) (journal : List Event) (map_id : ℕ) (q : Queue)
        → queue_of map_id (run_within limits s journal).units ≡ Some q
        → units_given s map_id (first_state_within limits s) journal ≡ take q.taken q.admitted }
    ensures packet { (limits : ℕ → ℕ) (s : Settings) (journal : List Event) (apid : ℕ)
        → take_reply_within limits s journal apid ≡ oldest_in apid (run_within limits s journal).queues }
    ensures unit { (limits : ℕ → ℕ) (s : Settings) (journal : List Event) (map_id : ℕ)
        → unit_reply_within limits s journal map_id ≡ oldest_in map_id (run_within limits s journal).units }
{}

/// All packets that a packet queue ever admitted are, in order, packets made from the data fields that were passed to
/// reassembly. Some may be left out. If the queue admitted as many packets as the fields make, none is left out. This
/// also holds for the units of a chosen MAP.
pub fn what_was_passed_on_is_admitted_in_order()
    ensures packets { (limits : ℕ → ℕ) (s : Settings) (journal : List Event) (apid : ℕ) (q : Queue)
        → queue_of apid (run_within limits s journal).queues ≡ Some q
        → IsPartOf q.admitted (packets_made limits s apid (run_within limits s journal).passed) }
    ensures units { (limits : ℕ → ℕ) (s : Settings) (journal : List Event) (map_id : ℕ) (q : Queue)
        → queue_of map_id (run_within limits s journal).units ≡ Some q
        → IsPartOf q.admitted (units_made limits s map_id (run_within limits s journal).passed) }
    ensures whole { (one other : List (List ℕ)) → IsPartOf one other → length other ≤ length one → one ≡ other }
{}

/// This law leads from the frames of a sender to the items that were taken. It is about an era in which every Type-AD
/// frame comes from one sender. The sender's frames have the data fields `sent`, and are numbered from the V(R) with
/// which the era starts. Frames may be lost, come several times and come out of order, but none comes 256 numbers or
/// more early or late. After any lawful journal, the AD fields of the era that were passed to reassembly are the first
/// fields that were sent. There are as many of them as fields of the era were released. If no Set V(R) was obeyed, the
/// era is the whole journal.
///
/// The packets ever taken for an application are, in order, packets made from the passed fields, for frames of any
/// sender. Some may be left out. This also holds for the units of a chosen MAP.
pub fn what_was_sent_is_given_in_order()
    ensures fields { (limits : ℕ → ℕ) (s : Settings) (journal before later : List Event) (x : ℕ) (sent : ℕ → List ℕ) → IsLawfulWithin limits s journal
        → IsEraWithin limits s journal before later x → ComesFromWithin limits s before later x sent
        → passed_since limits s before (run_within limits s journal).passed ≡ sent_from sent 0 (released_since limits s before journal) }
    ensures packets { (limits : ℕ → ℕ) (s : Settings) (journal : List Event) (apid : ℕ) (q : Queue)
        → queue_of apid (run_within limits s journal).queues ≡ Some q
        → IsPartOf (packets_given s apid (first_state_within limits s) journal) (packets_made limits s apid (run_within limits s journal).passed) }
    ensures units { (limits : ℕ → ℕ) (s : Settings) (journal : List Event) (map_id : ℕ) (q : Queue)
        → queue_of map_id (run_within limits s journal).units ≡ Some q
        → IsPartOf (units_given s map_id (first_state_within limits s) journal) (units_made limits s map_id (run_within limits s journal).passed) }
{}

/// No packet that the data fields make is lost unless a reply reports a drop. If settings are allowed and no reply of a
/// journal reports a drop, each packet queue admitted all packets for its application that the passed data fields make.
/// If nothing waits in the queue any more, exactly these packets were taken: each once, in order. This also holds for
/// the units of a chosen MAP.
pub fn nothing_is_lost_that_no_reply_reports()
    ensures packets_admitted { (limits : ℕ → ℕ) (s : Settings) (journal : List Event) (apid : ℕ) (q : Queue) → IsAllowed s
        → DropsNone s (first_state_within limits s) journal
        → queue_of apid (run_within limits s journal).queues ≡ Some q → q.admitted ≡ packets_made limits s apid (run_within limits s journal).passed }
    ensures packets_given { (limits : ℕ → ℕ) (s : Settings) (journal : List Event) (apid : ℕ) (q : Queue) → IsAllowed s
        → DropsNone s (first_state_within limits s) journal
        → queue_of apid (run_within limits s journal).queues ≡ Some q → waiting q ≡ []
        → packets_given s apid (first_state_within limits s) journal ≡ packets_made limits s apid (run_within limits s journal).passed }
    ensures units_admitted { (limits : ℕ → ℕ) (s : Settings) (journal : List Event) (map_id : ℕ) (q : Queue) → IsAllowed s
        → DropsNone s (first_state_within limits s) journal
        → queue_of map_id (run_within limits s journal).units ≡ Some q
        → q.admitted ≡ units_made limits s map_id (run_within limits s journal).passed }
    ensures units_given { (limits : ℕ → ℕ) (s : Settings) (journal : List Event) (map_id : ℕ) (q : Queue) → IsAllowed s
        → DropsNone s (first_state_within limits s) journal
        → queue_of map_id (run_within limits s journal).units ≡ Some q → waiting q ≡ []
        → units_given s map_id (first_state_within limits s) journal ≡ units_made limits s map_id (run_within limits s journal).passed }
{}

/// On a channel with segment headers, each data field that was passed to reassembly is accounted for. The fields of a
/// service and a MAP are split into shares, each field once and in order. A share is all segments of a unit that was
/// made, or the open run, or fields that are lost. Fields are lost if together they are over the limit of their MAP or
/// over 65,542 octets, if another unit began before theirs ended, or if no run was open for them. The units in the
/// shares are all units that these fields made, and the run in the shares is the run that they left open. On a plain
/// channel each field is a unit, or is over its limit
/// ([`a_plain_channel_takes_each_field_as_a_unit`](crate::a_plain_channel_takes_each_field_as_a_unit)).
pub fn each_passed_field_is_accounted_for()
    ensures { (limits : ℕ → ℕ) (s : Settings) (journal : List Event) (service : Service) (map_id : ℕ) → s.segmented ≡ true
        → (shares : List Share) × AccountFor limits s service map_id (run_within limits s journal).passed shares }
{}

/// States the items that data fields make, worked out by hand. Two segments make a packet, and only for the packet's
/// own application. They make no packet if they came by different services, or if their unit is over the limit of its
/// MAP. On a chosen MAP they make the whole unit, and no packet. A field without a segment header is a packet by
/// itself.
#[tactic(auto, unfolding(tc_queues::specs::ChannelState::no_limits))]
pub fn passed_fields_make_so()
    ensures two_segments { packets_made no_limits (example.buffer_of 2) 5 (example.in_two_segments Service.Ad Service.Ad)
        ≡ example.joined_packet ∷ [] }
    ensures other_application { packets_made no_limits (example.buffer_of 2) 6 (example.in_two_segments Service.Ad Service.Ad) ≡ [] }
    ensures services_apart { packets_made no_limits (example.buffer_of 2) 5 (example.in_two_segments Service.Ad Service.Bd) ≡ [] }
    ensures over_its_limit { packets_made (example.limited 3 7) (example.buffer_of 2) 5 (example.in_two_segments Service.Ad Service.Ad) ≡ [] }
    ensures whole_unit { units_made no_limits example.map_3_chosen 3 (example.in_two_segments Service.Bd Service.Bd) ≡ example.joined_packet ∷ [] }
    ensures not_cut { packets_made no_limits example.map_3_chosen 5 (example.in_two_segments Service.Ad Service.Ad) ≡ [] }
    ensures plain_field { packets_made no_limits example.plain 5
        (record { service = Service.Bd; field = example.joined_packet } ∷ []) ≡ example.joined_packet ∷ [] }
{}

/// The report value of a CLCW shows the sender how many Type-AD frames were accepted. In a lawful journal of allowed
/// settings it is the V(R) with which the era began, plus one for each Type-AD frame that was accepted since, modulo
/// 256.
pub fn a_clcw_reports_how_many_were_accepted()
    ensures { (limits : ℕ → ℕ) (s : Settings) (journal before later : List Event) (x : ℕ) (link : Link) → IsAllowed s
        → IsLawfulWithin limits s journal → IsEraWithin limits s journal before later x
        → (fields_of (clcw_within limits s journal link)).vr ≡ (x + length (accepted_since_within limits s before journal)) % 256 }
{
    a_written_clcw_reads_back();
}
