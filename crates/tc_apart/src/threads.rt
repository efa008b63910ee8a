//! Laws about a loop at a station: one thread brings a sender's frames to a channel, and any threads work at it.

ghost use Rattle.std.specs.Prelude.{Bool, List, ℕ, true, [], ◌∷◌, ◌≡◌, length, slice_get, Err, Some};
ghost use Rattle.std.specs.Global.{Vec};
ghost use Rattle.std.specs.List.{AllByRecursion};
ghost use Rattle.tc_link.specs.declared.frame.Header.{Header};
ghost use Rattle.tc_edges.specs.Cltu.Reception.{Reception};
ghost use Rattle.tc_queues.specs.ChannelState.{Queue, no_limits, queue_of};
ghost use Rattle.tc_queues.specs.declared.reply.Delivery.{Delivery};
ghost use Rattle.tc_queues.specs.declared.reply.FrameReply.{FrameReply};
ghost use Rattle.tc_queues.specs.declared.reply.NoMemory.{NoMemory};
ghost use Rattle.tc_queues.specs.declared.reply.ReleaseFault.{ReleaseFault};
ghost use Rattle.tc_queues.specs.declared.reply.TakeFault.{TakeFault};
ghost use Rattle.tc_queues.specs.declared.reply.TakeUnitFault.{TakeUnitFault};
ghost use Rattle.tc_channel.specs.declared.event.Event.{Event};
ghost use Rattle.tc_channel.specs.declared.event.Event.TheVariants as event;
ghost use Rattle.tc_channel.specs.Journal.{History};
ghost use Rattle.tc_channel.specs.Run.{run};
ghost use Rattle.tc_channel.specs.Through.{passed_since, released_since, sent_from};
ghost use Rattle.tc_status.specs.Board.{IsEarlier};
ghost use Rattle.tc_desk.specs.Call as at_desk;
ghost use Rattle.tc_desk.specs.Log.{AtLock};
ghost use Rattle.tc_station.specs.Call.{IsMetAt, IsMetCallAt};
ghost use Rattle.tc_station.specs.Roster.{Roster, settings_in};
ghost use Rattle.tc_station.specs.Tally.{AtStation};
ghost use Rattle.tc_station.specs.Together.{AreClosedTogether};
ghost use Rattle.tc_laws.specs.Loops.Loop.{events, journal, known, sent};
ghost use Rattle.tc_laws.specs.Ends.Arrivals.{AltersNothing, AreEventsOf, Coming, LinkEnd};
ghost use Rattle.tc_laws.specs.Ends.Ends.{AreFrom, AreGivenOf, AreNumbered, CanBeSent, SendsOnly, UnitSent, units_on};
ghost use Rattle.tc_apart.specs.Threads.{Bringer, BringsAll, Course, HasMadeNone, IsCourse, IsEraOf, IsLoopAt, actions_of, learnt, read_at};
ghost use Rattle.tc_apart.specs.Examples as example;

use tc_edges::write::the_segments_of_a_unit_make_the_unit;

/// Suppose that one thread brings all Type-AD frames of a channel's era, in the order in which the link gives them, by
/// calls of `operate_met` (tc_station). Suppose that the sender hears CLCWs that this thread's watcher has read, in that
/// order, and keeps its window. Other threads may release, take, and bring other frames as they like. The station is
/// then closed together with its operators.
///
/// - `is_loop`: The journal that the close returns is that of a loop. Each CLCW that the watcher has read is the one
///   that the receiver of this loop makes at that moment. All laws of a loop (tc_laws) therefore hold for the channel.
/// - `in_cltus`: This also holds if the thread takes the frames out of octets that come in CLTUs with wrong bits. Error
///   detection lets no altered frame through, as in `packets_in_cltus_are_given` (tc_laws).
/// - `passed`: In both cases the Type-AD data fields of the era that were released are the first that were sent, each
///   once and in order.
/// - `given`: In both cases the packets that were taken are those that `packets_that_are_sent_are_given` (tc_laws)
///   promises for the packets that the sender sent.
pub fn a_thread_that_brings_all_frames_makes_a_loop()
    ensures is_loop { (grows : Bool) (station : Roster) (operators : List AtStation) (closed : List History) (place : ℕ)
        (channel : History) (c : Course) (came : List Event) (number : ℕ)
        → AreClosedTogether station operators closed → slice_get closed place ≡ Some channel
        → slice_get (settings_in station) place ≡ Some c.loop.settings → c.loop.limits ≡ no_limits
        → IsCourse grows place c came → came ≡ events c.loop (actions_of c)
        → BringsAll place c operators number → IsEraOf c channel → IsLoopAt c channel }
    ensures in_cltus { (grows : Bool) (station : Roster) (operators : List AtStation) (closed : List History) (place : ℕ)
        (channel : History) (c : Course) (came : List Event) (number : ℕ) (end : LinkEnd) (state : Reception) (coming : List Coming)
        → AreClosedTogether station operators closed → slice_get closed place ≡ Some channel
        → slice_get (settings_in station) place ≡ Some c.loop.settings → c.loop.limits ≡ no_limits
        → IsCourse grows place c came → AltersNothing end c.loop.frames state (actions_of c) coming → AreEventsOf end state coming came
        → BringsAll place c operators number → IsEraOf c channel → IsLoopAt c channel }
    ensures passed { (c : Course) (channel : History) → c.loop.limits ≡ no_limits → IsLoopAt c channel
        → passed_since no_limits channel.settings c.loop.before (run channel.settings channel.journal).passed
        ≡ sent_from (sent c.loop) 0 (released_since no_limits channel.settings c.loop.before channel.journal) }
    ensures given { (c : Course) (channel : History) (header : Header) (units : List UnitSent) (frames : List (List ℕ))
        (apid : ℕ) (q : Queue)
        → c.loop.limits ≡ no_limits → IsLoopAt c channel
        → AllByRecursion (CanBeSent c.loop.limits c.loop.settings.segmented) units
        → AreNumbered c.loop.settings.segmented header units frames → AreFrom c.loop.frames frames
        → SendsOnly (length frames) (actions_of c) → queue_of apid (run channel.settings channel.journal).queues ≡ Some q
        → AreGivenOf no_limits channel.settings apid c.loop.before channel.journal (length frames) (units_on units) }
{
    the_segments_of_a_unit_make_the_unit();
}

/// The calls of a thread that make no event of its channel may be idle actions of a course. By their contracts they are
/// what a course asks for (`HasMadeNone`): a CLCW that is read by `watch` (`read`), a call of `meet` (`meeting`), and a
/// call of `operate_met` that is refused (`frames`, `releases`, `takes`, `units`).
pub fn calls_without_an_event_fit_a_course()
    ensures read { (place : ℕ) (early late : Bringer) (desk : AtLock) → slice_get early.operator.desks place ≡ Some desk
        → late.operator ≡ early.operator → IsEarlier early.watcher.seen late.watcher.seen → HasMadeNone place early late }
    ensures meeting { (place vcid : ℕ) (early late : Bringer)
        → IsMetAt place vcid early.watcher early.operator late.watcher late.operator → HasMadeNone place early late }
    ensures frames { (grows : Bool) (place vcid : ℕ) (early late : Bringer) (octets : List ℕ) (fault : NoMemory)
        → IsMetCallAt {R = FrameReply} place vcid (event.Frame octets) (at_desk.IsFramed octets) (at_desk.IsFrameFault grows octets)
        early.watcher early.operator (Err fault) late.watcher late.operator → HasMadeNone place early late }
    ensures releases { (place vcid : ℕ) (early late : Bringer) (fault : ReleaseFault)
        → IsMetCallAt {R = Delivery} place vcid event.Release at_desk.IsReleased at_desk.IsReleaseFault
        early.watcher early.operator (Err fault) late.watcher late.operator → HasMadeNone place early late }
    ensures takes { (grows : Bool) (place vcid apid : ℕ) (early late : Bringer) (fault : TakeFault)
        → IsMetCallAt {R = Vec ℕ} place vcid (event.Take apid) (λ m p. at_desk.IsOldestPacket apid m p.items) (at_desk.IsTakeFault grows apid)
        early.watcher early.operator (Err fault) late.watcher late.operator → HasMadeNone place early late }
    ensures units { (grows : Bool) (place vcid map_id : ℕ) (early late : Bringer) (fault : TakeUnitFault)
        → IsMetCallAt {R = Vec ℕ} place vcid (event.TakeUnit map_id) (λ m u. at_desk.IsOldestUnit map_id m u.items) (at_desk.IsTakeUnitFault grows map_id)
        early.watcher early.operator (Err fault) late.watcher late.operator → HasMadeNone place early late }
{}

/// A course that was worked out by hand meets all premises of [`a_thread_that_brings_all_frames_makes_a_loop`] (`closed`,
/// `settings`, `course`, `came`, `brings`, `era`). The first thread brings two frames of an era. The second thread releases and
/// takes before, between and after them, and both threads have brought an earlier Type-AD frame. The first thread reads
/// that V(R) is 10 (`read`). From this the sender learns that one frame is accepted (`none_learnt`, `one_learnt`). The
/// loop's session with the second thread's events has the channel's journal (`session`), and the sender knows the same
/// (`known`). Both data fields of the era were released (`released`).
pub fn a_course_comes_to_this()
    ensures closed { AreClosedTogether example.station example.operators (example.channel ∷ []) }
    ensures settings { slice_get (settings_in example.station) 0 ≡ Some example.course.loop.settings }
    ensures course { IsCourse true 0 example.course example.came }
    ensures came { example.came ≡ events example.course.loop (actions_of example.course) }
    ensures brings { BringsAll 0 example.course example.operators 0 }
    ensures era { IsEraOf example.course example.channel }
    ensures read { read_at example.course 3 ≡ 10 }
    ensures none_learnt { learnt example.course 3 ≡ 0 }
    ensures one_learnt { learnt example.course 4 ≡ 1 }
    ensures session { example.channel.journal ≡ journal example.course.loop example.session }
    ensures known { known example.course.loop example.session 6 ≡ 1 }
    ensures released { released_since no_limits example.channel.settings example.course.loop.before example.channel.journal ≡ 2 }
{}
