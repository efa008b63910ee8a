//! Laws about the definitions of this crate. A law about the run of a journal holds with any limit for each MAP
//! (`run_within`), and so it also holds without limits by MAP (`run`).
#![tactic(auto, using(crate::proofs::Closing::laws))]

ghost use Rattle.std.specs.Prelude.{List, ℕ, ◌≡◌, ◌≤◌, ◌<◌, ◌+◌, ◌*◌, ◌%◌, ◌^◌, ◌++◌, ◌↔◌, Option, Some, None, false, [], ◌∷◌, ◌≢◌, IsTrue, length, map, slice_get};
ghost use Rattle.tc_queues.specs.ChannelState.{ChannelState, Accepted, Queue, buffer};
ghost use Rattle.std.specs.List.{AllByRecursion, Contains};
ghost use Rattle.tc_link.specs.Frame.{IsWhole, header_of};
ghost use Rattle.tc_link.specs.Command.{kind_of};
ghost use Rattle.tc_link.specs.declared.State.TheVariants.{S1};
ghost use Rattle.tc_link.specs.declared.Kind.TheVariants as Kind;
ghost use Rattle.tc_link.specs.declared.Command.TheVariants as Command;
ghost use Rattle.tc_packet.specs.SpacePacket.{packets_of};
ghost use Rattle.tc_queues.specs.Steps.{delivery_steps, most_packets, packet_steps};
ghost use Rattle.tc_link.specs.declared.Link.{Link};
ghost use Rattle.tc_packet.specs.declared.Service.{Service};
ghost use Rattle.tc_packet.specs.Reassembly.{largest_unit, run_left, stream, unit_ended};
ghost use Rattle.tc_queues.specs.Admission.{map_of, is_chosen, is_for, is_of_map, packets_offered, units_offered, share_of, with_share};
ghost use Rattle.tc_channel.specs.Reply.{clcw_within, delivery_of};
ghost use Rattle.tc_queues.specs.declared.settings.Settings.{Settings};
ghost use Rattle.tc_channel.specs.declared.event.Event.{Event};
ghost use Rattle.tc_queues.specs.declared.settings.SettingsFault.{SettingsFault};
ghost use Rattle.tc_queues.specs.Settings.{IsAllowed, IsFault};
ghost use Rattle.tc_channel.specs.Run.{field_of, run, run_within, run_from, unit_of, passed_on, HasStep, IsLawfulWithin, AreSteps};
ghost use Rattle.tc_channel.specs.Laws.{IsSound, KeepsToItsCapacity, Grows, IsOfChosenMap, with_unit};
ghost use Rattle.tc_channel.specs.Examples as example;
ghost use Rattle.tc_channel.specs.Era.{IsSent, IsEraWithin, CountsUpInItsEraWithin, ComesFromWithin, accepted_since_within};
ghost use Rattle.tc_queues.specs.declared.settings.QueueSetting.{QueueSetting};
ghost use Rattle.tc_queues.specs.declared.settings.MapSetting.{MapSetting};

use tc_link::{each_arrival_has_an_entry, unlock_and_set_v_r_open_farm_1};
use tc_packet::a_plain_field_is_a_unit_by_itself;

/// Allowed settings have no fault.
pub fn allowed_settings_have_no_fault()
    ensures { (s : Settings) (fault : SettingsFault) → IsAllowed s → IsFault s fault → ⊥ }
{}

/// In S2 the Wait flag is set. If it is set, there is no room and the state isn't S1. The Lockout flag is set exactly
/// in S3.
pub fn wait_means_no_room()
    ensures { (limits : ℕ → ℕ) (s : Settings) (journal : List Event) → IsSound s (run_within limits s journal) }
{}

/// After any journal, FARM-1's table has an entry for each frame that may come next. The one case without an entry
/// never occurs: a frame that is expected and finds room in S2.
pub fn each_frame_has_a_step()
    ensures { (limits : ℕ → ℕ) (s : Settings) (journal : List Event) (octets : List ℕ) → IsWhole octets
        → HasStep s (run_within limits s journal) (Event.Frame octets) }
{
    each_arrival_has_an_entry();
}

/// Each journal can be split into its era and the events before it.
pub fn each_journal_has_an_era()
    ensures { (limits : ℕ → ℕ) (s : Settings) (journal : List Event)
        → (before : List Event) × (later : List Event) × (x : ℕ) × IsEraWithin limits s journal before later x }
{}

/// In a lawful journal of allowed settings, the Type-AD frames accepted in the era count up. The era begins after the
/// last Set V(R) that was obeyed, or at the start. The frames have consecutive numbers modulo 256, from the V(R) with
/// which the era begins, and V(R) is the next number.
pub fn accepted_frames_count_up()
    ensures { (limits : ℕ → ℕ) (s : Settings) (journal : List Event) → IsAllowed s → IsLawfulWithin limits s journal
        → CountsUpInItsEraWithin limits s journal }
{}

/// No queue ever holds more items than its capacity, and no more items are ever taken from it than it admitted.
pub fn queues_keep_to_their_capacity()
    ensures queues { (limits : ℕ → ℕ) (s : Settings) (journal : List Event) → AllByRecursion KeepsToItsCapacity (run_within limits s journal).queues }
    ensures units { (limits : ℕ → ℕ) (s : Settings) (journal : List Event) → AllByRecursion KeepsToItsCapacity (run_within limits s journal).units }
{}

/// The run of a longer journal continues the run of its beginning, and loses nothing from it. If the longer journal is
/// lawful, its beginning is lawful, and each later event can happen when it comes.
pub fn a_longer_run_goes_on()
    ensures run { (limits : ℕ → ℕ) (s : Settings) (past future : List Event)
        → run_within limits s (past ++ future) ≡ run_from s (run_within limits s past) future }
    ensures grows { (limits : ℕ → ℕ) (s : Settings) (past future : List Event)
        → Grows (run_within limits s past) (run_within limits s (past ++ future)) }
    ensures lawful_before { (limits : ℕ → ℕ) (s : Settings) (past future : List Event) → IsLawfulWithin limits s (past ++ future)
        → IsLawfulWithin limits s past }
    ensures lawful_after { (limits : ℕ → ℕ) (s : Settings) (past future : List Event) → IsLawfulWithin limits s (past ++ future)
        → AreSteps s (run_within limits s past) future }
{}

/// The buffer never holds more data fields than its size.
pub fn buffer_keeps_to_its_size()
    ensures { (limits : ℕ → ℕ) (s : Settings) (journal : List Event) → length (buffer (run_within limits s journal)) ≤ s.buffer }
{}

/// If settings are allowed, each packet that a unit is cut into is either queued or dropped, and the two counts add up
/// to the number of packets. A unit of a chosen MAP is queued whole or dropped whole. Two queues that are given equal
/// packets have the same APID, which is their key.
pub fn each_packet_is_queued_or_dropped()
    ensures count { (limits : ℕ → ℕ) (s : Settings) (journal : List Event) (field : List ℕ) (unit : Option (List ℕ)) → IsAllowed s
        → (delivery_of field unit (run_within limits s journal)).queued + (delivery_of field unit (run_within limits s journal)).dropped
        ≡ length (packets_offered unit (is_chosen (run_within limits s journal) field)) + length
        (units_offered unit (is_chosen (run_within limits s journal) field)) }
    ensures apid { (packets : List (List ℕ)) (one other : Queue) (packet : List ℕ) → Contains (share_of is_for packets one) packet
        → Contains (share_of is_for packets other) packet → one.key ≡ other.key }
{}

/// The CLCW of a lawful journal of allowed settings fits 32 bits.
pub fn each_clcw_fits_its_word()
    ensures { (limits : ℕ → ℕ) (s : Settings) (journal : List Event) (link : Link) → IsAllowed s → IsLawfulWithin limits s journal
        → clcw_within limits s journal link < 2 ^ 32 }
{}

/// No event makes a plain channel segmented or a segmented channel plain. On a plain channel each data field within the
/// limits is a unit by itself, and no run is ever open.
pub fn a_plain_channel_takes_each_field_as_a_unit()
    ensures stays { (limits : ℕ → ℕ) (s : Settings) (journal : List Event) → (run_within limits s journal).segmented ≡ s.segmented }
    ensures unit { (limits : ℕ → ℕ) (s : Settings) (journal : List Event) (service : Service) (field octets : List ℕ) → s.segmented ≡ false
        → (unit_of (run_within limits s journal) service field ≡ Some octets) ↔
        ((octets ≡ field) × (length field ≤ largest_unit) × (length field ≤ limits (map_of field))) }
    ensures run { (limits : ℕ → ℕ) (s : Settings) (journal : List Event) (service : Service) (map_id : ℕ) → s.segmented ≡ false
        → run_left (run_within limits s journal).segmented (stream service map_id (run_within limits s journal).passed) ≡ None }
{
    a_plain_field_is_a_unit_by_itself();
}

/// After any journal, the chosen MAPs are those of the settings.
pub fn chosen_maps_stay()
    ensures { (limits : ℕ → ℕ) (s : Settings) (journal : List Event) (field : List ℕ)
        → IsTrue (is_chosen (run_within limits s journal) field) ↔ IsOfChosenMap s field }
{}

/// A unit of a chosen MAP is appended whole to the queue of its MAP if that queue has room. Otherwise it is dropped.
/// The queues of other MAPs stay the same.
pub fn a_unit_is_kept_where_its_queue_has_room()
    ensures kept { (q : Queue) (unit : List ℕ) → with_share (is_of_map q.key) (unit ∷ []) q ≡ with_unit q unit }
    ensures others { (q : Queue) (map_id : ℕ) (unit : List ℕ) → q.key ≢ map_id → with_share (is_of_map map_id) (unit ∷ []) q ≡ q }
{}

/// A data field of a chosen MAP gives no packet to an application, and a data field of another MAP gives no unit to a
/// unit queue.
pub fn a_unit_is_delivered_whole_or_by_packets()
    ensures whole { (state : ChannelState) (service : Service) (field : List ℕ) → IsTrue (is_chosen state field)
        → (passed_on service field state).queues ≡ state.queues }
    ensures by_packets { (state : ChannelState) (service : Service) (field : List ℕ) → ¬ IsTrue (is_chosen state field)
        → (passed_on service field state).units ≡ state.units }
{}

/// This law is about an era in which every Type-AD frame comes from one sender, whose frames are numbered from `x` on
/// modulo 256. Frames may be lost, come several times, and come out of order, but none comes 256 frames or more too
/// early or too late. Then the accepted data fields are the fields that were sent: each once, in order, and none left
/// out.
pub fn what_was_sent_is_accepted_once_and_in_order()
    ensures { (limits : ℕ → ℕ) (s : Settings) (journal before later : List Event) (x : ℕ) (sent : ℕ → List ℕ)
        → IsEraWithin limits s journal before later x → ComesFromWithin limits s before later x sent
        → (i : ℕ) (a : Accepted) → slice_get (accepted_since_within limits s before journal) i ≡ Some a → a.field ≡ sent i }
{}

/// After any journal, the queues of a channel are those of its settings, in their order, each with its capacity.
pub fn queues_are_those_of_the_settings()
    ensures queues { (limits : ℕ → ℕ) (s : Settings) (journal : List Event)
        → map {B = ℕ × ℕ} (λ (q : Queue). (q.key, q.capacity)) (run_within limits s journal).queues
        ≡ map {B = ℕ × ℕ} (λ (q : QueueSetting). (q.apid, q.capacity)) s.queues }
    ensures units { (limits : ℕ → ℕ) (s : Settings) (journal : List Event)
        → map {B = ℕ × ℕ} (λ (q : Queue). (q.key, q.capacity)) (run_within limits s journal).units
        ≡ map {B = ℕ × ℕ} (λ (m : MapSetting). (m.map, m.capacity)) s.maps }
{}

/// No event changes the limits. A unit that reassembly makes is offered to the queues if and only if it is no longer
/// than the limit of its MAP. Without limits by MAP, each unit is offered to the queues, because none is longer than
/// the largest unit.
pub fn a_unit_beyond_the_limit_of_its_map_is_none()
    ensures stays { (limits : ℕ → ℕ) (s : Settings) (journal : List Event) → (run_within limits s journal).limit ≡ limits }
    ensures within { (limits : ℕ → ℕ) (s : Settings) (journal : List Event) (service : Service) (field octets : List ℕ)
        → (unit_of (run_within limits s journal) service field ≡ Some octets)
        ↔ ((unit_ended (run_within limits s journal).segmented (stream service (map_of field) (run_within limits s journal).passed) field ≡ Some octets) × (length octets ≤ limits (map_of field))) }
    ensures without { (s : Settings) (journal : List Event) (service : Service) (field : List ℕ)
        → unit_of (run s journal) service field ≡ unit_ended (run s journal).segmented (stream service (map_of field) (run s journal).passed) field }
{}

/// States examples, worked out by hand, of frames that may come from a sender that numbers its frames from 0 on. An
/// accepted frame may come again, even 255 frames late, and a frame may come after two others were lost. No frame may
/// come 256 frames late or early.
pub fn a_sender_s_frames_may_come_so()
    ensures repeated { IsSent 0 (λ i. field_of (example.packet_octets 0)) 1 (example.packet_octets 0) }
    ensures late { IsSent 0 (λ i. field_of (example.packet_octets 0)) 255 (example.packet_octets 0) }
    ensures behind_lost_ones { IsSent 0 (λ i. field_of (example.packet_octets 0)) 0 (example.packet_octets 2) }
    ensures too_late { IsSent 0 (example.sent_as 0 (field_of (example.packet_octets 0))) 256 (example.packet_octets 0) → ⊥ }
    ensures too_early { IsSent 0 (example.sent_as 256 (field_of (example.packet_octets 0))) 0 (example.packet_octets 0) → ⊥ }
{}

/// After any journal, an Unlock and then a Set V(R) to `x` lead a channel to S1, with V(R) at `x` and no flag set. The
/// FARM-B counter counts both commands.
pub fn unlock_and_set_v_r_open_a_channel()
    ensures { (limits : ℕ → ℕ) (s : Settings) (journal : List Event) (unlock set_v_r : List ℕ) (x : ℕ)
        → kind_of (header_of unlock) (field_of unlock) ≡ Kind.Bc Command.Unlock
        → kind_of (header_of set_v_r) (field_of set_v_r) ≡ Kind.Bc (Command.SetVr x)
        → (run_within limits s (journal ++ Event.Frame unlock ∷ Event.Frame set_v_r ∷ [])).report
        ≡ record {
          state = S1;
          vr = x;
          lockout = false;
          wait = false;
          retransmit = false;
          farm_b = (((run_within limits s journal).report.farm_b + 1) % 4 + 1) % 4;
        } }
{
    unlock_and_set_v_r_open_farm_1();
}

/// The number of octets of a unit bounds the steps that its delivery takes. A unit of n octets has at most n / 7
/// packets, and the largest unit, of 65,542 octets, has at most 9,363.
pub fn a_unit_takes_steps_by_its_octets()
    ensures packets { (unit : List ℕ) → 7 * length (packets_of unit) ≤ length unit }
    ensures steps { (unit : List ℕ) (packets queues units : ℕ) → length unit < 7 * (packets + 1)
        → delivery_steps (Some unit) queues units ≤ packet_steps packets queues units }
    ensures largest { (unit : List ℕ) (queues units : ℕ) → length unit ≤ largest_unit
        → delivery_steps (Some unit) queues units ≤ packet_steps most_packets queues units }
{}
