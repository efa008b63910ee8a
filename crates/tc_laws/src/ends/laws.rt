//! Laws about the way from the packets of a sender to the packets and units that are taken at a receiver.
#![tactic(auto, using(crate::proofs::EndsLemmas::Closing::laws))]

ghost use Rattle.std.specs.Prelude.{Bool, List, ℕ, [], ◌∷◌, ◌++◌, ◌≡◌, ◌≤◌, ◌<◌, ◌+◌, ◌%◌, length, map, slice_index_or, true, false, None, Some};
ghost use Rattle.std.specs.List.{AllByRecursion};
ghost use Rattle.tc_packet.specs.SpacePacket.{IsPacket, joined, packets_of, rest_of};
ghost use Rattle.tc_edges.specs.Write.Segments.{AreSegments};
ghost use Rattle.tc_packet.specs.Reassembly.{Passed, same_service};
ghost use Rattle.tc_packet.specs.declared.Service.{Service};
ghost use Rattle.tc_channel.specs.Through.{IsPartOf, all_made, packets_made, released_since, sent_from, units_made};
ghost use Rattle.tc_queues.specs.declared.settings.Settings.{Settings};
ghost use Rattle.tc_queues.specs.Settings.{HasMapsByHeaders};
ghost use Rattle.tc_link.specs.Frame.{IsWhole, header_of};
ghost use Rattle.tc_edges.specs.Cltu.Cltu.{cltu_fault_of, filled};
ghost use Rattle.tc_edges.specs.Cltu.CodeBlock.{decoded};
ghost use Rattle.tc_edges.specs.Cltu.Reception.{HasNoStart, Reception, Searching, is_start};
ghost use Rattle.tc_link.specs.declared.frame.Header.{Header};
ghost use Rattle.tc_channel.specs.declared.event.Event.{Event};
ghost use Rattle.tc_channel.specs.declared.event.Event.TheVariants.{Frame};
ghost use Rattle.tc_queues.specs.ChannelState.{Queue, first_state_within, no_limits, queue_of};
ghost use Rattle.tc_channel.specs.Account.{unit_on};
ghost use Rattle.tc_channel.specs.Era.{IsEraWithin, ComesFromWithin};
ghost use Rattle.tc_channel.specs.Given.{packets_given, units_given};
ghost use Rattle.tc_channel.specs.Lossless.{DropsNone};
ghost use Rattle.tc_channel.specs.Run.{IsLawfulWithin, field_of, run_within};
ghost use Rattle.tc_laws.specs.Loops.Loop.{Loop, Action, IsLoop, events, journal, receiver, sent};
ghost use Rattle.tc_laws.specs.Loops.Start.{Start, IsStart, era, era_session};
ghost use Rattle.tc_laws.specs.Ends.Arrivals.{AltersNothing, AreBrought, AreCarriedOrLost, AreEventsAt, AreEventsOf, CarriesWell, Coming, IsLost, IsNearCltu, LinkEnd, Octets, enclosed, events_of, state_behind};
ghost use Rattle.tc_laws.specs.Ends.Ends.{AreAllPackets, AreFrom, AreGivenOf, AreMerged, AreNumbered, AreWritten, CanBeSent, CarrySent, CarryUnits, EndAtLast, IsSendable, PacketsSent, SendsOnly, SendsPackets, Sent, UnitSent, all_joined, fields_in_order, is_chosen_map, is_same_stream, joined_on, on_map, packets_sent_on, packets_to, passed_before, passed_in, units_on};
ghost use Rattle.tc_laws.specs.Loops.Examples as start;
ghost use Rattle.tc_laws.specs.Ends.Examples as example;

use tc_edges::write::the_segments_of_a_unit_make_the_unit;

/// Whatever fields came before on their stream, the last segment of a unit ends this unit, and no segment before it
/// ends a unit.
pub fn the_segments_of_a_unit_end_it_once()
    ensures { (map size : ℕ) (unit : List ℕ) (before fields : List (List ℕ)) → 1 ≤ size → 1 ≤ length unit → length unit ≤ 65542
        → AreSegments map size unit fields → EndAtLast before fields unit }
{
    the_segments_of_a_unit_make_the_unit();
}

/// Packets that are joined are cut into exactly these packets, with no rest.
pub fn joined_packets_are_cut_into_them()
    ensures { (packets : List (List ℕ)) → AllByRecursion IsPacket packets
        → (packets_of (joined packets) ≡ packets) × (rest_of (joined packets) ≡ []) }
{}

/// Suppose that a sender sends packets in units, which are divided into segments, or which are whole on a channel
/// without segment headers, on which no MAP is chosen. Then the packets that the data fields make for an application
/// are exactly those that were sent for it on MAPs that aren't chosen. The packets of each stream keep their order,
/// whatever data fields came before, and however the streams are merged.
pub fn packets_that_are_sent_are_made()
    ensures { (limits : ℕ → ℕ) (s : Settings) (apid : ℕ) (sent : PacketsSent) (before passed : List Passed) → HasMapsByHeaders s
        → ((service : Service) (map_id : ℕ) → AreAllPackets (sent service map_id)) → CarrySent limits s.segmented (joined_on sent) passed
        → (merged : List (List ℕ)) × AreMerged merged (packets_sent_on s apid sent)
        × (packets_made limits s apid (before ++ passed) ≡ packets_made limits s apid before ++ merged) }
{
    the_segments_of_a_unit_make_the_unit();
}

/// If only one stream has packets, a merge consists of exactly these packets, in their order.
pub fn packets_of_one_stream_are_its_own()
    ensures { (packets : List (List ℕ)) (on : Service → ℕ → List (List ℕ)) (service : Service) (map_id : ℕ) → AreMerged packets on
        → ((other : Service) (id : ℕ) → is_same_stream service map_id other id ≡ false → on other id ≡ []) → packets ≡ on service map_id }
{}

/// If only one service brings units on a chosen MAP, the units that the data fields make on this MAP are exactly those
/// that the sender sends on it, in their order, whatever data fields came before.
pub fn units_that_are_sent_are_made()
    ensures { (limits : ℕ → ℕ) (s : Settings) (service : Service) (map_id : ℕ) (sent : Sent) (before passed : List Passed)
        → s.segmented ≡ true → is_chosen_map s map_id ≡ true → CarrySent limits true sent passed
        → ((other : Service) → same_service service other ≡ false → sent other map_id ≡ [])
        → units_made limits s map_id (before ++ passed) ≡ units_made limits s map_id before ++ sent service map_id }
{
    the_segments_of_a_unit_make_the_unit();
}

/// Suppose that each data field on a channel without segment headers consists of joined packets, and is no longer than
/// a unit may be. Then the packets that the data fields make for an application are exactly its own among these
/// packets.
pub fn packets_that_are_sent_plainly_are_made()
    ensures { (limits : ℕ → ℕ) (s : Settings) (apid : ℕ) (units : List (List (List ℕ))) (before passed : List Passed)
        → s.segmented ≡ false → s.maps ≡ [] → AreAllPackets units → fields_in_order passed ≡ all_joined units
        → AllByRecursion (IsSendable limits false 0) (fields_in_order passed)
        → packets_made limits s apid (before ++ passed) ≡ packets_made limits s apid before ++ packets_to apid units }
{}

/// The data fields of the frames that a sender writes for a unit carry its segments.
pub fn written_frames_carry_the_segments()
    ensures { (header : Header) (map_id size : ℕ) (unit : List ℕ) (frames : List (List ℕ)) → AreWritten header map_id size unit frames
        → AreSegments map_id size unit (map field_of frames) }
{}

/// This law leads from a sender's packets to the packets that are taken. Suppose that the first n data fields of a
/// sender carry units of packets in segments, for each MAP in order. On a channel without segment headers, each field
/// is a unit, and all units are one stream, on MAP 0. All packets that were ever taken for an application then come, in
/// order, first from the data fields before the era, and then from a merge. The merge consists of the packets that were
/// sent on each MAP that isn't chosen, and the packets that Type-BD data of the era make. If the era is the whole
/// journal, there are no data fields before it (`start`). Some packets may be left out, such as packets dropped at a
/// full queue (`given`).
pub fn packets_that_are_sent_are_given()
    ensures start { (limits : ℕ → ℕ) (s : Settings) (journal : List Event) → passed_before limits s [] journal ≡ [] }
    ensures given { (limits : ℕ → ℕ) (s : Settings) (journal before later : List Event) (x : ℕ) (sent : ℕ → List ℕ) (apid n : ℕ)
        (units : ℕ → List (List (List ℕ))) (q : Queue)
        → IsLawfulWithin limits s journal → IsEraWithin limits s journal before later x
        → ComesFromWithin limits s before later x sent → HasMapsByHeaders s → SendsPackets limits s.segmented sent n units
        → released_since limits s before journal ≤ n → queue_of apid (run_within limits s journal).queues ≡ Some q
        → AreGivenOf limits s apid before journal n units }
{
    the_segments_of_a_unit_make_the_unit();
}

/// The units of a chosen MAP that were taken are, in order, units that the data fields before the era made, and then
/// units that were sent on the MAP. Some may be left out. The condition is that no Type-BD data field of the era makes
/// a unit of this MAP.
pub fn units_that_are_sent_are_given()
    ensures { (limits : ℕ → ℕ) (s : Settings) (journal before later : List Event) (x : ℕ) (sent : ℕ → List ℕ) (n : ℕ)
        (units : List (List ℕ)) (map_id : ℕ) (q : Queue)
        → IsLawfulWithin limits s journal → IsEraWithin limits s journal before later x → ComesFromWithin limits s before later x sent
        → s.segmented ≡ true → is_chosen_map s map_id ≡ true
        → CarryUnits true map_id units (on_map true map_id (sent_from sent 0 n))
        → AllByRecursion (IsSendable limits true map_id) units
        → all_made (unit_on limits s Service.Bd map_id) (passed_before limits s before journal) (passed_in limits s before journal) ≡ []
        → released_since limits s before journal ≤ n → queue_of map_id (run_within limits s journal).units ≡ Some q
        → IsPartOf (units_given s map_id (first_state_within limits s) journal)
        (units_made limits s map_id (passed_before limits s before journal) ++ units) }
{
    the_segments_of_a_unit_make_the_unit();
}

/// Suppose that a sender writes its units one after the other, on any MAPs, and that N(S) counts on over all of them.
/// Then the sender sends the packets of each MAP in order (`sends`). If the frames are of Type-AD, the N(S) of each
/// frame is the first frame's N(S) plus the frame's place, modulo 256, as a loop requires (`numbers`).
pub fn numbered_frames_send_packets()
    ensures sends { (limits : ℕ → ℕ) (segmented : Bool) (header : Header) (units : List UnitSent) (frames : List (List ℕ))
        (sent : ℕ → List ℕ) → AllByRecursion (CanBeSent limits segmented) units → AreNumbered segmented header units frames
        → sent_from sent 0 (length frames) ≡ map field_of frames → SendsPackets limits segmented sent (length frames) (units_on units) }
    ensures numbers { (segmented : Bool) (header : Header) (units : List UnitSent) (frames : List (List ℕ))
        → header.bypass ≡ false → AreNumbered segmented header units frames
        → (k : ℕ) → k < length frames → (header_of (slice_index_or frames k [])).ns ≡ (header.ns + k) % 256 }
{}

/// This law leads from a ground system's packets to the packets that are taken, across the start of an era and over links
/// that lose, repeat and delay frames, but keep their order. The sender sends Set V(R) and then its packets, in units
/// on any MAPs. It numbers the frames, sends them by its window, and sends no others. It believes that Set V(R) was
/// obeyed only after it was obeyed. The packets that were taken are then those that [`packets_that_are_sent_are_given`]
/// promises.
pub fn packets_from_a_start_are_given()
    ensures { (s : Start) (header : Header) (units : List UnitSent) (frames : List (List ℕ)) (apid : ℕ) (q : Queue) → IsStart s
        → AllByRecursion (CanBeSent s.loop.limits s.loop.settings.segmented) units
        → AreNumbered s.loop.settings.segmented header units frames → AreFrom (era s).frames frames
        → SendsOnly (length frames) (era_session s)
        → queue_of apid (receiver s.loop s.session).queues ≡ Some q
        → AreGivenOf s.loop.limits s.loop.settings apid (era s).before (journal s.loop s.session) (length frames) (units_on units) }
{
    the_segments_of_a_unit_make_the_unit();
}

/// Suppose that a CLTU carries whole frames one after the other, each with its frame error control field if frames have
/// one. It carries only one frame if the receiver takes only one out of a CLTU. Suppose also that the start sequence is
/// recognised, that no code block has more wrong bits than the mode tolerates, and that the tail, as it is received, is
/// rejected as a code block. Then these frames arrive (`arrives`), and the receiver searches for a start sequence again
/// (`searches`). An input brings about only one list of events in each state of the decoder (`alone`).
pub fn a_cltu_with_few_wrong_bits_brings_its_frames()
    ensures arrives { (end : LinkEnd) (last : ℕ) (frames : List (List ℕ)) (octets : List ℕ) → CarriesWell end last frames octets
        → AreEventsAt end (Searching last) (Octets octets) (map Frame frames) }
    ensures searches { (end : LinkEnd) (last : ℕ) (frames : List (List ℕ)) (octets : List ℕ) → CarriesWell end last frames octets
        → state_behind end (Searching last) (Octets octets) ≡ Searching 0 }
    ensures alone { (end : LinkEnd) (state : Reception) (c : Coming) (one other : List Event) → AreEventsAt end state c one
        → AreEventsAt end state c other → one ≡ other }
{}

/// Octets bring nothing, and the receiver searches again after them, in three cases. Nothing in them counts as a start
/// sequence (`idle`). The first code block after a start sequence is rejected (`cut`). A CLTU carries octets that bring
/// nothing (`refused`), because they don't begin with a frame, or because the frame error control field is wrong.
pub fn a_link_may_lose_this()
    ensures idle { (end : LinkEnd) (last : ℕ) (octets : List ℕ) → HasNoStart end.mode last octets → (later : ℕ) × IsLost end last octets later }
    ensures cut { (end : LinkEnd) (last one two : ℕ) (block : List ℕ) (parity : ℕ) → is_start end.mode last one ≡ false
        → is_start end.mode one two ≡ true → length block ≡ 7
        → decoded end.mode (block ++ parity ∷ []) ≡ None → IsLost end last (one ∷ two ∷ (block ++ parity ∷ [])) 0 }
    ensures refused { (end : LinkEnd) (last : ℕ) (carried octets : List ℕ) → cltu_fault_of carried ≡ None → IsNearCltu end.mode last carried octets
        → AreBrought end.several end.field (filled carried ∷ []) [] → IsLost end last octets 0 }
{}

/// This law covers the whole way, from a ground system's packets to the packets that are taken. The sender sends as in
/// [`packets_from_a_start_are_given`]. Its frames come in CLTUs, as octets in which any bits may be flipped, over links
/// that keep order. Suppose that error detection lets no altered frame through. Detection uses the parity of the code
/// blocks, the frame's length and, if frames have one, the frame error control field. A frame that is refused is lost,
/// and the frames of a CLTU with few wrong bits arrive ([`a_cltu_with_few_wrong_bits_brings_its_frames`]). The packets
/// that were taken are then those that [`packets_that_are_sent_are_given`] promises.
/// [`a_link_that_idles_and_loses_alters_nothing`] discharges the premise about detection.
pub fn packets_in_cltus_are_given()
    ensures { (s : Start) (header : Header) (units : List UnitSent) (frames : List (List ℕ)) (apid : ℕ) (q : Queue)
        (end : LinkEnd) (state : Reception) (coming : List Coming) (came : List Event)
        → IsStart s → AllByRecursion (CanBeSent s.loop.limits s.loop.settings.segmented) units
        → AreNumbered s.loop.settings.segmented header units frames → AreFrom (era s).frames frames
        → SendsOnly (length frames) (era_session s)
        → AltersNothing end s.loop.frames state s.session coming → AreEventsOf end state coming came
        → queue_of apid (run_within s.loop.limits s.loop.settings (s.loop.before ++ came)).queues ≡ Some q
        → AreGivenOf s.loop.limits s.loop.settings apid (era s).before (s.loop.before ++ came) (length frames) (units_on units) }
{
    the_segments_of_a_unit_make_the_unit();
}

/// Suppose that each frame that arrives comes in a CLTU with few wrong bits. A CLTU may carry several frames if they
/// arrive one directly after the other. Suppose also that all other octets are lost ([`a_link_may_lose_this`]). Then
/// error detection lets no altered frame through (`unaltered`), and the events of the receiver are those of the session
/// (`events`).
pub fn a_link_that_idles_and_loses_alters_nothing()
    ensures unaltered { (end : LinkEnd) (frames : ℕ → List ℕ) (last : ℕ) (session : List Action) (coming : List Coming)
        → AreCarriedOrLost end frames last session coming
        → AltersNothing end frames (Searching last) session coming }
    ensures events { (end : LinkEnd) (frames : ℕ → List ℕ) (last : ℕ) (session : List Action) (coming : List Coming)
        → AreCarriedOrLost end frames last session coming
        → AreEventsOf end (Searching last) coming (events_of frames session) }
{}

/// A session that was worked out by hand meets all premises of [`packets_in_cltus_are_given`] and of
/// [`packets_from_a_start_are_given`]. It is the session `learnt_by_9` of `Loops`, with its frames in CLTUs. Three code
/// blocks have one wrong bit each, which the decoder corrects. Each frame has a frame error control field (`fields`).
/// One CLTU carries two frames, idle octets come first, and two CLTUs are refused. By the law's conclusion, the fields
/// make all packets that were sent (`whole`), and none is left out (`all`). The take returned the packet that was sent
/// (`given`). A unit may also hold two packets, and be sent on the last MAP in segments of one octet
/// (`can_be_in_small_segments`).
pub fn all_premises_are_met_at_once()
    ensures begins { IsStart start.learnt_by_9 }
    ensures can_be_sent { AllByRecursion (CanBeSent start.learnt_by_9.loop.limits true) example.one_unit }
    ensures can_be_in_small_segments { CanBeSent no_limits true example.in_small_segments }
    ensures fields { (enclosed true (start.around 9 0) ≡ 0x00 ∷ 0x00 ∷ 0x00 ∷ 0x07 ∷ 0x00 ∷ 0x00 ∷ 0x8b ∷ 0x80 ∷ [])
        × (enclosed true (start.around 9 1) ≡ 0x30 ∷ 0x2a ∷ 0x04 ∷ 0x09 ∷ 0x00 ∷ 0x82 ∷ 0x00 ∷ 0x09 ∷ 0x80 ∷ 0x94 ∷ [])
        × (enclosed true example.first_frame ≡ 0x00 ∷ 0x2a ∷ 0x04 ∷ 0x0e ∷ 0x09 ∷ 0xc0 ∷ 0x10 ∷ 0x05 ∷ 0xc0 ∷ 0x00 ∷ 0x00 ∷ 0x00
        ∷ 0xaa ∷ 0xa9 ∷ 0xb2 ∷ [])
        × (enclosed true start.by_bd ≡ 0x20 ∷ 0x2a ∷ 0x04 ∷ 0x08 ∷ 0x00 ∷ 0xc1 ∷ 0x00 ∷ 0x05 ∷ 0x92 ∷ []) }
    ensures numbered { AreNumbered true example.first_header example.one_unit (example.first_frame ∷ []) }
    ensures frames_sent { AreFrom (era start.learnt_by_9).frames (example.first_frame ∷ []) }
    ensures only { SendsOnly 1 (era_session start.learnt_by_9) }
    ensures carried { AreCarriedOrLost example.correcting start.learnt_by_9.loop.frames 0 start.learnt_by_9.session example.in_cltus }
    ensures unaltered { AltersNothing example.correcting start.learnt_by_9.loop.frames (Searching 0) start.learnt_by_9.session example.in_cltus }
    ensures brought { AreEventsOf example.correcting (Searching 0) example.in_cltus (events start.learnt_by_9.loop start.learnt_by_9.session) }
    ensures headers { start.learnt_by_9.loop.settings.segmented ≡ true }
    ensures queue { (q : Queue) × (queue_of 5 (receiver start.learnt_by_9.loop start.learnt_by_9.session).queues ≡ Some q) }
    ensures asked { packets_to 5 (units_on example.one_unit 0) ≡ example.packet ∷ [] }
    ensures drops_none { DropsNone start.learnt_by_9.loop.settings
        (first_state_within start.learnt_by_9.loop.limits start.learnt_by_9.loop.settings)
        (events start.learnt_by_9.loop start.learnt_by_9.session) }
    ensures whole { (g : AreGivenOf start.learnt_by_9.loop.limits start.learnt_by_9.loop.settings 5 (era start.learnt_by_9).before (journal start.learnt_by_9.loop start.learnt_by_9.session) 1 (units_on example.one_unit))
        → packets_made start.learnt_by_9.loop.limits start.learnt_by_9.loop.settings 5
        (receiver start.learnt_by_9.loop start.learnt_by_9.session).passed
        ≡ packets_made start.learnt_by_9.loop.limits start.learnt_by_9.loop.settings 5
        (passed_before start.learnt_by_9.loop.limits start.learnt_by_9.loop.settings (era start.learnt_by_9).before
        (journal start.learnt_by_9.loop start.learnt_by_9.session)) ++ g.merged }
    ensures all { (g : AreGivenOf start.learnt_by_9.loop.limits start.learnt_by_9.loop.settings 5 (era start.learnt_by_9).before (journal start.learnt_by_9.loop start.learnt_by_9.session) 1 (units_on example.one_unit))
        → packets_given start.learnt_by_9.loop.settings 5
        (first_state_within start.learnt_by_9.loop.limits start.learnt_by_9.loop.settings)
        (journal start.learnt_by_9.loop start.learnt_by_9.session)
        ≡ packets_made start.learnt_by_9.loop.limits start.learnt_by_9.loop.settings 5
        (passed_before start.learnt_by_9.loop.limits start.learnt_by_9.loop.settings (era start.learnt_by_9).before
        (journal start.learnt_by_9.loop start.learnt_by_9.session)) ++ g.merged }
    ensures given { packets_given start.learnt_by_9.loop.settings 5
        (first_state_within start.learnt_by_9.loop.limits start.learnt_by_9.loop.settings)
        (events start.learnt_by_9.loop start.learnt_by_9.session) ≡ example.packet ∷ [] }
{}
