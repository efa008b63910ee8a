//! Laws about the calls of any number of threads and the journals that the close of their station returns.

ghost use Rattle.std.specs.Global.{Vec};
ghost use Rattle.std.specs.Prelude.{◌≡◌, ◌≢◌, ℕ, Bool, List, [], Some, Ok, slice_get};
ghost use Rattle.tc_station.specs.declared.faults.ReleaseRefused.TheVariants as ReleaseRefused;
ghost use Rattle.tc_station.specs.declared.faults.TakeRefused.TheVariants as TakeRefused;
ghost use Rattle.tc_station.specs.declared.faults.TakeUnitRefused.TheVariants as TakeUnitRefused;
ghost use Rattle.logged_lock.specs.Log.{IsMergeOf};
ghost use Rattle.tc_channel.specs.declared.event.Event.{Event};
ghost use Rattle.tc_queues.specs.declared.reply.Delivery.{Delivery};
ghost use Rattle.tc_channel.specs.Journal.{History};
ghost use Rattle.tc_channel.specs.Reply.{buffered_fields, frame_reply, release_reply, take_reply, unit_reply};
ghost use Rattle.tc_desk.specs.Call as at_desk;
ghost use Rattle.tc_desk.specs.Log.{accounts_of};
ghost use Rattle.tc_desk.specs.Together.{column};
ghost use Rattle.tc_station.specs.declared.station.Brought.{Brought};
ghost use Rattle.tc_status.specs.Board.{IsEarlier, Watching};
ghost use Rattle.tc_link.specs.declared.Link.{Link};
ghost use Rattle.tc_station.specs.Call.{IsBringCall, IsCallOn, IsMetAt, IsReplied, IsRepliedWatched, IsNotBrought, IsNotBroughtWatched, IsNotReleased, IsNotTaken, IsUnitNotTaken};
ghost use Rattle.tc_station.specs.Roster.{Roster, IsPlace};
ghost use Rattle.tc_station.specs.Tally.{AtStation, HasGoneOnAtEach, IsOurs};
ghost use Rattle.tc_station.specs.Through.{IsAnsweredAmong, IsBroughtAmong, IsGivenOut, IsWordRead, IsShownIn, StandsIfMet};
ghost use Rattle.tc_station.specs.Together.{AreClosedTogether, operator_lists_of};

use tc_desk::each_event_stands_at_its_place;

/// Any operator has gone on at each of its desks, even without a call (`none`). If an operator has gone on from one
/// state to a second, and from there to a third, it has gone on from the first to the third (`both`).
pub fn calls_go_on_one_after_another()
    ensures none { (operator : AtStation) → HasGoneOnAtEach operator operator }
    ensures both { (before between after : AtStation) → HasGoneOnAtEach before between → HasGoneOnAtEach between after
        → HasGoneOnAtEach before after }
{}

/// Suppose that threads work at the channels of a station in any order, each with an operator of its own, and that the
/// station is then closed together with these operators. All premises of this law come from contracts. Some describe a
/// call by an operator of the station, and the operator's later calls. The others describe
/// [`StationOf::close_together`](crate::StationOf::close_together), whose operators include this operator in the state
/// after its last call. The following holds for the channels that the close returns.
///
/// - `merge`: The journal of each channel is a merge of the events that its operators made. Each event occurs once, and
///   each operator's events keep their order.
/// - `frames`, `watched`, `releases`, `takes`, `units`: Each call of `bring`, `bring_watched`, `release`, `take` and
///   `take_unit` that was answered is an event of its channel's journal, and its answer is the one that the model gives
///   at the journal before the event. Right after the call, the event, with its number, is the last that the operator
///   has made at the channel's desk. Therefore one thread could have made all calls in the journal's order, with the
///   same answers.
/// - `met_frames`, `met_releases`, `met_takes`, `met_units`: The same holds for each of these operations that
///   `operate_met` answered. The history that the watcher had seen is a beginning of the journal before the event.
/// - `words`: Suppose that a watcher reads a CLCW, perhaps reads again, and then meets the channel. The CLCW is then
///   the one at a place in the channel's journal. The part of the journal that the watcher had seen before the first
///   read doesn't go beyond this place.
///
/// Between the call and the close the operator may have made any other calls. Each of these promises that the operator
/// has gone on (`later` of [`StationOf`](crate::StationOf)'s calls), and [`calls_go_on_one_after_another`] joins the
/// promises.
pub fn what_calls_answered_stands_in_the_closed_journals()
    ensures merge { (station : Roster) (operators : List AtStation) (closed : List History) (place : ℕ) (channel : History)
        → AreClosedTogether station operators closed → slice_get closed place ≡ Some channel
        → IsMergeOf channel.journal (accounts_of (column place (operator_lists_of operators))) }
    ensures frames { (station : Roster) (octets : List ℕ) (grows : Bool) (before after last : AtStation) (brought : Brought)
        (operators : List AtStation) (closed : List History) (number : ℕ)
        → IsOurs station before → IsBringCall station octets IsReplied (IsNotBrought grows) before (Ok brought) after
        → HasGoneOnAtEach after last → slice_get operators number ≡ Some last → AreClosedTogether station operators closed
        → IsBroughtAmong station octets brought after closed }
    ensures watched { (station : Roster) (octets : List ℕ) (before after last : AtStation) (answer : Brought × Watching)
        (operators : List AtStation) (closed : List History) (number : ℕ)
        → IsOurs station before → IsBringCall station octets IsRepliedWatched IsNotBroughtWatched before (Ok answer) after
        → HasGoneOnAtEach after last → slice_get operators number ≡ Some last → AreClosedTogether station operators closed
        → IsBroughtAmong station octets answer.0 after closed }
    ensures releases { (station : Roster) (vcid : ℕ) (before after last : AtStation) (delivery : Delivery)
        (operators : List AtStation) (closed : List History) (number : ℕ)
        → IsOurs station before → IsCallOn station vcid Event.Release at_desk.IsReleased IsNotReleased ReleaseRefused.UnknownChannel before (Ok delivery) after
        → HasGoneOnAtEach after last → slice_get operators number ≡ Some last → AreClosedTogether station operators closed
        → IsAnsweredAmong station vcid after closed Event.Release
        (λ s journal. (buffered_fields s journal ≢ []) × (delivery ≡ release_reply s journal)) }
    ensures takes { (station : Roster) (vcid apid : ℕ) (grows : Bool) (before after last : AtStation) (packet : Vec ℕ)
        (operators : List AtStation) (closed : List History) (number : ℕ)
        → IsOurs station before → IsCallOn station vcid (Event.Take apid) (λ m p. at_desk.IsOldestPacket apid m p.items)
        (IsNotTaken grows apid) TakeRefused.UnknownChannel before (Ok packet) after
        → HasGoneOnAtEach after last → slice_get operators number ≡ Some last → AreClosedTogether station operators closed
        → IsAnsweredAmong station vcid after closed (Event.Take apid) (λ s journal. take_reply s journal apid ≡ Some packet.items) }
    ensures units { (station : Roster) (vcid map_id : ℕ) (grows : Bool) (before after last : AtStation) (unit : Vec ℕ)
        (operators : List AtStation) (closed : List History) (number : ℕ)
        → IsOurs station before → IsCallOn station vcid (Event.TakeUnit map_id) (λ m u. at_desk.IsOldestUnit map_id m u.items)
        (IsUnitNotTaken grows map_id) TakeUnitRefused.UnknownChannel before (Ok unit) after
        → HasGoneOnAtEach after last → slice_get operators number ≡ Some last → AreClosedTogether station operators closed
        → IsAnsweredAmong station vcid after closed (Event.TakeUnit map_id) (λ s journal. unit_reply s journal map_id ≡ Some unit.items) }
    ensures met_frames { (frame : List ℕ) (grows : Bool)
        → StandsIfMet (Event.Frame frame) (at_desk.IsFramed frame) (at_desk.IsFrameFault grows frame)
        (λ reply s journal. reply ≡ frame_reply s journal frame) }
    ensures met_releases { StandsIfMet Event.Release at_desk.IsReleased at_desk.IsReleaseFault
        (λ delivery s journal. (buffered_fields s journal ≢ []) × (delivery ≡ release_reply s journal)) }
    ensures met_takes { (apid : ℕ) (grows : Bool)
        → StandsIfMet (Event.Take apid) (λ m (packet : Vec ℕ). at_desk.IsOldestPacket apid m packet.items) (at_desk.IsTakeFault grows apid)
        (λ packet s journal. take_reply s journal apid ≡ Some packet.items) }
    ensures met_units { (map_id : ℕ) (grows : Bool)
        → StandsIfMet (Event.TakeUnit map_id) (λ m (unit : Vec ℕ). at_desk.IsOldestUnit map_id m unit.items) (at_desk.IsTakeUnitFault grows map_id)
        (λ unit s journal. unit_reply s journal map_id ≡ Some unit.items) }
    ensures words { (station : Roster) (vcid : ℕ) (link : Link) (early mid late met : Watching) (word : ℕ)
        (before after last : AtStation) (operators : List AtStation) (closed : List History) (number : ℕ)
        → IsOurs station before → IsWordRead link early word mid → IsEarlier mid.seen late.seen
        → ((place : ℕ) × IsPlace station vcid place × IsMetAt place vcid late before met after)
        → HasGoneOnAtEach after last → slice_get operators number ≡ Some last → AreClosedTogether station operators closed
        → (place : ℕ) × (channel : History) × IsGivenOut station vcid closed place channel × IsShownIn channel early link word }
{
    each_event_stands_at_its_place();
}
