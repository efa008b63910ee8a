//! Laws of a loop of a sender and a receiver. Its links may lose, repeat and delay frames and CLCWs, but keep their
//! order.
#![tactic(auto, using(crate::proofs::LoopsLemmas::Closing::laws))]

ghost use Rattle.std.specs.Prelude.{List, ℕ, Bool, [], ◌++◌, ◌≡◌, ◌≢◌, ◌≤◌, ◌<◌, ◌+◌, ◌/◌, ◌%◌, ◌↔◌, IsTrue, Some, length, slice_get, take, if◌then◌else◌};
ghost use Rattle.tc_link.specs.Frame.{header_of};
ghost use Rattle.tc_link.specs.Window.{place_of};
ghost use Rattle.tc_link.specs.declared.Link.{Link};
ghost use Rattle.tc_link.specs.declared.Place.TheVariants.{Outside};
ghost use Rattle.tc_link.specs.declared.State.TheVariants.{S3};
ghost use Rattle.tc_queues.specs.ChannelState.{Accepted};
ghost use Rattle.tc_channel.specs.Through.{passed_since, released_since, sent_from};
ghost use Rattle.tc_queues.specs.Settings.{IsAllowed};
ghost use Rattle.tc_queues.specs.declared.settings.Settings.{Settings};
ghost use Rattle.tc_channel.specs.Era.{ComesFromWithin, accepted_since_within};
ghost use Rattle.tc_laws.specs.Loops.Loop.{Loop, Action, Arrive, Hear, above, accepted, begun, heard, known, reported, IsLoop, IsKnownSo, KeepOrder, GoesOn, GoesOnBy, LocksOut, events, journal, last_of, new_loop, receiver, round, sent, smallest};
ghost use Rattle.tc_laws.specs.Loops.Start.{Start, IsObeyed, IsStart, NamesAnother, era, era_before, known_since, era_session, session_before};
ghost use Rattle.tc_laws.specs.Loops.Watched.{event_at, is_here_or_ahead, is_here_or_behind};
ghost use Rattle.tc_laws.specs.Loops.Examples as example;

/// In a loop no frame comes 256 numbers early or late, because links keep order and the sender keeps its window.
pub fn frames_of_a_loop_come_in_their_time()
    ensures { (l : Loop) (session : List Action) → IsLoop l session
        → ComesFromWithin l.limits l.settings l.before (events l session) l.first (sent l) }
{}

/// Data field i that a loop accepts is the data field of the sender's frame i. The loop thus accepts each data field at
/// most once, and in order, and leaves none out between those that it accepts.
pub fn a_loop_accepts_what_was_sent_once_and_in_order()
    ensures { (l : Loop) (session : List Action) → IsLoop l session
        → (i : ℕ) (a : Accepted) → slice_get (accepted_since_within l.limits l.settings l.before (journal l session)) i ≡ Some a
        → a.field ≡ sent l i }
{}

/// The data fields that a loop passes on to reassembly are the first that were sent, and their number is the number of
/// released fields. The law `what_was_sent_is_given_in_order` of tc_channel states, for any journal, which items the
/// takes return.
pub fn a_loop_passes_on_what_was_sent_in_order()
    ensures { (l : Loop) (session : List Action) → IsLoop l session
        → passed_since l.limits l.settings l.before (receiver l session).passed
        ≡ sent_from (sent l) 0 (released_since l.limits l.settings l.before (journal l session)) }
{}

/// At each moment, each frame that the sender of a loop takes for accepted is accepted. Each accepted frame was sent.
/// At most K frames were sent beyond those that the sender takes for accepted, where K is the width of its window.
pub fn a_sender_knows_what_is_accepted()
    ensures { (l : Loop) (session : List Action) (t : ℕ) → IsLoop l session → IsKnownSo l session t }
{}

/// If the sender's window is no wider than half the receiver's, no frame that arrives in a loop lies outside the
/// receiver's window. A receiver that isn't locked out at first is never locked out.
pub fn a_loop_is_never_locked_out()
    ensures place { (l : Loop) (session : List Action) (t i s : ℕ) → IsLoop l session → l.window ≤ l.settings.width / 2
        → slice_get session t ≡ Some (Arrive i s)
        → place_of l.settings.width (receiver l (take t session)).report.vr (header_of (l.frames i)).ns ≢ Outside }
    ensures state { (l : Loop) (session : List Action) (t : ℕ) → IsLoop l session → l.window ≤ l.settings.width / 2
        → (receiver l []).report.state ≢ S3 → (receiver l (take t session)).report.state ≢ S3 }
{}

/// The bound on the sender's window is sharp. If the window is wider by one, and all frames before the last one of the
/// window are lost, that frame alone locks out a new receiver.
pub fn a_wider_window_can_lock_out()
    ensures { (limits : ℕ → ℕ) (s : Settings) (links : ℕ → Link) → IsAllowed s
        → LocksOut (new_loop limits s links (s.width / 2 + 1)) (last_of (s.width / 2)) }
{}

/// If the sender's window is no wider than half the receiver's, a loop is never stuck. The window must be at least 1,
/// and the receiver must not be locked out at first. Whatever was lost before, one more frame is accepted after one
/// round without a loss, and the sender knows this (`round`). No command is needed. After `n` rounds, `n` more frames
/// are accepted (`any`).
pub fn a_loop_can_always_go_on()
    ensures round { (l : Loop) (session : List Action) → IsLoop l session → 1 ≤ l.window → l.window ≤ l.settings.width / 2
        → (receiver l []).report.state ≢ S3 → GoesOn l session (session ++ round l session) }
    ensures any { (l : Loop) (n : ℕ) (session : List Action) → IsLoop l session → 1 ≤ l.window → l.window ≤ l.settings.width / 2
        → (receiver l []).report.state ≢ S3 → GoesOnBy l n session }
{}

/// Each new receiver with allowed settings can be in a loop, with any sender's window below 256. A new receiver isn't
/// locked out.
pub fn each_receiver_can_be_in_a_loop()
    ensures begins { (limits : ℕ → ℕ) (s : Settings) (links : ℕ → Link) (window : ℕ) → IsAllowed s → window < 256
        → IsLoop (new_loop limits s links window) [] }
    ensures state { (limits : ℕ → ℕ) (s : Settings) (links : ℕ → Link) (window : ℕ)
        → (receiver (new_loop limits s links window) []).report.state ≢ S3 }
{}

/// The era that a sender's own Set V(R) starts is a loop, too, even if earlier frames and CLCWs are still on their way.
/// The premise is that Set V(R) was obeyed before the receiver made the CLCW that makes the sender believe that it was.
/// The loop has the journal of the session (`journal`). In the loop, the sender knows those frames to be accepted that
/// CLCWs have shown from that CLCW on (`known`).
pub fn an_era_that_set_v_r_starts_is_a_loop()
    ensures loop_again { (s : Start) → IsStart s → IsLoop (era s) (era_session s) }
    ensures journal { (s : Start) → IsStart s → journal (era s) (era_session s) ≡ journal s.loop s.session }
    ensures known { (s : Start) (t : ℕ) → IsStart s → known (era s) (era_session s) t ≡ known_since s t }
{}

/// A sender can choose the number that Set V(R) names so that a CLCW with this number shows that Set V(R) was obeyed.
/// Consider the numbers of the earlier frames, from the first one that the sender doesn't know to be accepted to the
/// one after the last one that it sent. Suppose that Set V(R) names none of these numbers. Then each CLCW with Set
/// V(R)'s number that the sender hears after it sends Set V(R) was made after Set V(R) was obeyed.
pub fn a_number_of_its_own_shows_that_set_v_r_was_obeyed()
    ensures { (s : Start) (first window : ℕ) (frames : ℕ → List ℕ) (asked made : ℕ) → ((i : ℕ) → i < s.directive → frames i ≡ s.loop.frames i)
        → IsLoop (era_before s first window frames) (session_before s) → KeepOrder s.session → IsObeyed s s.obeyed
        → asked ≤ s.obeyed → asked ≤ s.believed
        → NamesAnother s first window frames asked → slice_get s.session s.believed ≡ Some (Hear made)
        → reported s.loop s.session made ≡ s.loop.first → s.obeyed < made }
{}

/// These starts come to the results that were worked out by hand. By FOP-1's rule alone, a sender believes that Set
/// V(R) was obeyed if a CLCW has the number that Set V(R) names. This rule isn't enough (`trap`). There, an earlier CLCW
/// has the number 0, too, and the sender takes a lost frame for accepted. A Set V(R) to 9 meets each premise of both
/// laws (`met`, `before_met`, `another_met`), although it is obeyed twice. It may also be obeyed once. The sender may
/// then have any window below 256, and an Unlock may come (`plain_met`). A Set V(R) may also name the number of a frame
/// that is known to be accepted (`known_named`), but not that of the next frame (`next_not_named`).
pub fn starts_come_to_this()
    ensures trap_says { reported example.trap.loop example.trap.session 0 ≡ example.trap.loop.first }
    ensures trap_known { known_since example.trap 7 ≡ 1 }
    ensures trap_names_one_of_before { NamesAnother example.trap 0 5 (smallest 0) 2 → ⊥ }
    ensures trap_accepted { accepted (era example.trap) (era_session example.trap) ≡ 0 }
    ensures met { IsStart example.learnt_by_9 }
    ensures plain_met { (window : ℕ) → window < 256 → IsStart (example.plain_start window) }
    ensures before_met { IsLoop (era_before example.learnt_by_9 0 5 (smallest 0)) (session_before example.learnt_by_9) }
    ensures another_met { NamesAnother example.learnt_by_9 0 5 (smallest 0) 2 }
    ensures known_named { NamesAnother (example.acknowledged 0) 0 5 (smallest 0) 3 }
    ensures next_not_named { NamesAnother (example.acknowledged 1) 0 5 (smallest 0) 3 → ⊥ }
    ensures met_known { known_since example.learnt_by_9 13 ≡ 1 }
    ensures met_accepted { accepted (era example.learnt_by_9) (era_session example.learnt_by_9) ≡ 1 }
{}

/// This session is one of a loop (`met`), and comes to the results that were worked out by hand. V(R) is 255 at first.
/// Frame 0 is lost once and then comes twice, and frame 1 comes too early.
pub fn a_session_comes_to_this()
    ensures met { IsLoop example.five example.one_lost }
    ensures none_accepted { accepted example.five (take 5 example.one_lost) ≡ 0 }
    ensures one_accepted { accepted example.five example.one_lost ≡ 1 }
    ensures none_known { known example.five example.one_lost 7 ≡ 0 }
    ensures reported { reported example.five example.one_lost 6 ≡ 0 }
    ensures one_known { known example.five example.one_lost 8 ≡ 1 }
    ensures two_begun { begun example.one_lost 8 ≡ 2 }
{}

/// States the numbers of frames that a sender knows to be accepted after it reads a report value, worked out by hand.
/// The window is 10 or 255, and the first frame has the number 250 or 0.
pub fn report_values_are_read_so()
    ensures none { heard 250 10 0 250 ≡ 0 }
    ensures modulo_256 { heard 250 10 0 3 ≡ 9 }
    ensures whole_window { heard 250 10 0 4 ≡ 10 }
    ensures beyond { heard 250 10 0 5 ≡ 0 }
    ensures older { heard 0 10 5 4 ≡ 5 }
    ensures widest { heard 0 255 255 254 ≡ 510 }
{}

/// FARM-1 in a channel with a window of 2 K can track a sender with a window of K frames, if K is 1 to 127. Let f be
/// the first frame that the sender doesn't know to be accepted. Suppose that V(R) is the number of f. Then each of the
/// 256 frames from f on is expected or in the positive part of the window if and only if the sender may send it
/// (`sends`). If V(R) is an N(R) that the sender reads, f is expected or in the negative part of the window if and only
/// if N(R) is within the sender's window (`hears`). In this case the sender then knows the frames before N(R) to be
/// accepted, and otherwise it learns nothing (`known`).
pub fn a_window_twice_as_wide_shows_a_sender()
    ensures sends { (window first known index : ℕ) (room : Bool) → 1 ≤ window → window ≤ 127 → known ≤ index → index < known + 256
        → IsTrue (is_here_or_ahead (event_at window ((first + known) % 256) ((first + index) % 256) room)) ↔ (index < known + window) }
    ensures hears { (window first known report : ℕ) (room : Bool) → 1 ≤ window → window ≤ 127 → report < 256
        → IsTrue (is_here_or_behind (event_at window report ((first + known) % 256) room)) ↔ (above first known report ≤ window) }
    ensures known { (window first known report : ℕ) (room : Bool) → 1 ≤ window → window ≤ 127 → report < 256
        → (first + heard first window known report) % 256
        ≡ (if is_here_or_behind (event_at window report ((first + known) % 256) room) then report else (first + known) % 256) }
{}

/// Each premise on the window and on links is needed. If the window is 256, the sender's first 256 frames may be
/// accepted while it knows of none. It may then send frame 0 again, so that 257 frames are accepted, although only 256
/// were sent. If a frame arrives after one that was sent later, this can also happen with a window of 255. If a CLCW is
/// heard after one that was made later, the sender takes 256 frames for accepted when only one is.
pub fn each_premise_is_needed()
    ensures window_accepted { accepted (example.with_window 256) example.sent_again ≡ 257 }
    ensures window_begun { begun example.sent_again (length example.sent_again) ≡ 256 }
    ensures window_known { known (example.with_window 256) example.sent_again 512 ≡ 0 }
    ensures frames_accepted { accepted (example.with_window 255) example.overtaken ≡ 257 }
    ensures frames_begun { begun example.overtaken (length example.overtaken) ≡ 256 }
    ensures frames_known { known (example.with_window 255) example.overtaken 511 ≡ 255 }
    ensures reports_accepted { accepted (example.with_window 255) example.old_report ≡ 1 }
    ensures reports_known { known (example.with_window 255) example.old_report (length example.old_report) ≡ 256 }
{}
