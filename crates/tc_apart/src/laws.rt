//! Laws about operations on several channels.

ghost use Rattle.std.specs.Prelude.{List, ℕ, ◌≡◌, map, filter, slice_get, Option, Some, true, false};
ghost use Rattle.logged_lock.specs.Log.{made_by};
ghost use Rattle.tc_queues.specs.declared.settings.Settings.{Settings};
ghost use Rattle.tc_channel.specs.Journal.{History};
ghost use Rattle.tc_desk.specs.Log.{accounts_of};
ghost use Rattle.tc_desk.specs.Together.{column};
ghost use Rattle.tc_station.specs.Roster.{Roster, settings_in};
ghost use Rattle.tc_station.specs.Tally.{AtStation};
ghost use Rattle.tc_station.specs.Together.{AreClosedTogether, operator_lists_of};
ghost use Rattle.tc_rack.specs.Linked.{Linked};
ghost use Rattle.tc_rack.specs.Progress.{IsPerformed, Progress, rack_for};
ghost use Rattle.tc_rack.specs.Rack.{Racked, AreChannelsApart, IsOf, new_rack};
ghost use Rattle.tc_queues.specs.declared.reply.FrameReply.{FrameReply};
ghost use Rattle.tc_rack.specs.declared.answer.Answer.{Answer};
ghost use Rattle.tc_rack.specs.declared.operation.Operation.{Operation};
ghost use Rattle.tc_rack.specs.declared.stage.Stage.TheVariants.{SettingUp};
ghost use Rattle.tc_cli.specs.Written.{AreAnswers};
ghost use Rattle.tc_apart.specs.Apart.{Answered, ArePerformed, HasPerformed, LeadsTo, is_on, is_own, operation_of, operations_of};

use tc_link::each_input_begins_with_one_frame_at_most;

/// Suppose that two lists of operations are performed, each on channels of its own. Suppose also that the channel with
/// this id is the same in both at first, and that the same operations are brought to it in the same order. Then these
/// operations have the same answers, and the channel is the same in the end, whatever is done on other channels in
/// between (`answers`). A frame counts as brought to the channel that answered it, and any other operation to the
/// channel that it names (`own`). Neither counts as brought to another channel (`other`).
pub fn channels_do_not_touch_each_other()
    ensures own { (answer : Answer) (octets : List ℕ) (reply : FrameReply)
        → (is_on 1 (Operation.Frame octets) (Answer.Frame 1 reply) ≡ true) × (is_on 1 (Operation.Release 1) answer ≡ true)
        × (is_on 1 (Operation.Take 1 5) answer ≡ true) × (is_on 1 (Operation.Unit 1 3) answer ≡ true) × (is_on 1 (Operation.Clcw 1) answer ≡ true) }
    ensures other { (answer : Answer) (octets : List ℕ) (reply : FrameReply)
        → (is_on 1 (Operation.Frame octets) (Answer.Frame 2 reply) ≡ false) × (is_on 1 (Operation.Release 2) answer ≡ false)
        × (is_on 1 (Operation.Take 2 5) answer ≡ false) × (is_on 1 (Operation.Unit 2 3) answer ≡ false)
        × (is_on 1 (Operation.Clcw 2) answer ≡ false) }
    ensures answers { (vcid : ℕ) (one other : List Answered) (a after b behind : Racked) (channel : Linked)
        → AreChannelsApart a.channels → AreChannelsApart b.channels
        → IsOf a vcid (λ c. c ≡ channel) → IsOf b vcid (λ c. c ≡ channel) → ArePerformed one a after → ArePerformed other b behind
        → map operation_of (filter (is_own vcid) one) ≡ map operation_of (filter (is_own vcid) other)
        → filter (is_own vcid) one ≡ filter (is_own vcid) other }
    ensures channel { (vcid : ℕ) (one other : List Answered) (a after b behind : Racked) (channel : Linked)
        → AreChannelsApart a.channels → AreChannelsApart b.channels
        → IsOf a vcid (λ c. c ≡ channel) → IsOf b vcid (λ c. c ≡ channel) → ArePerformed one a after → ArePerformed other b behind
        → map operation_of (filter (is_own vcid) one) ≡ map operation_of (filter (is_own vcid) other)
        → (last : Linked) × IsOf after vcid (λ c. c ≡ last) × IsOf behind vcid (λ c. c ≡ last) }
{
    each_input_begins_with_one_frame_at_most();
}

/// Channels of two scripts don't touch each other, either. The first lines of both scripts are good, and are answered
/// as `what_a_script_does_follows_from_its_lines` (tc_cli) states. Suppose that the channel with this id is set up with
/// the same settings in both, and that the same operations are brought to it in the same order. Then these operations
/// have the same answers, and the channel is the same in the end, whatever other lines there are for other channels
/// (`answers`). All operations of the lines are performed on the channels that lines set up before them (`performed`).
/// The operations of the lines on one channel, and the channel after them, are as `answers` supposes (`has`).
pub fn channels_of_a_script_do_not_touch_each_other()
    ensures has { (scid vcid : ℕ) (script rest : List ℕ) (answers : List (Option Answer)) (progress : Progress) (channel : Linked)
        (lines : AreAnswers (IsPerformed scid) script answers progress rest)
        → IsOf (rack_for scid progress) vcid (λ c. c ≡ channel) → HasPerformed scid script vcid (filter (is_own vcid) (operations_of lines)) channel }
    ensures performed { (scid : ℕ) (script rest : List ℕ) (answers : List (Option Answer)) (progress : Progress)
        (lines : AreAnswers (IsPerformed scid) script answers progress rest)
        → (list : List Settings) × LeadsTo scid script (SettingUp list)
        × ArePerformed (operations_of lines) (new_rack scid list) (rack_for scid progress) }
    ensures answers { (scid vcid : ℕ) (script another : List ℕ) (one other : List Answered) (channel last : Linked)
        → HasPerformed scid script vcid one channel
        → HasPerformed scid another vcid other last → channel.history.settings ≡ last.history.settings
        → map operation_of one ≡ map operation_of other → one ≡ other }
    ensures channel { (scid vcid : ℕ) (script another : List ℕ) (one other : List Answered) (channel last : Linked)
        → HasPerformed scid script vcid one channel
        → HasPerformed scid another vcid other last → channel.history.settings ≡ last.history.settings
        → map operation_of one ≡ map operation_of other → channel ≡ last }
{
    each_input_begins_with_one_frame_at_most();
}

/// Suppose that two stations are closed, each together with its operators, and that a channel of one has the settings
/// of a channel of the other. Suppose also that the operators made the same events on both channels, each at the same
/// place of the journal. Then the two channels that the closes return are the same, whatever was done on other
/// channels. Calls at the same place of the two journals therefore had the same answers, too, because an answer
/// follows from the journal up to the call (`what_calls_answered_stands_in_the_closed_journals` of tc_station).
pub fn channels_of_a_station_do_not_touch_each_other()
    ensures { (station other : Roster) (operators others : List AtStation) (closed shut : List History) (place at : ℕ) (one two : History)
        → AreClosedTogether station operators closed → AreClosedTogether other others shut → slice_get closed place ≡ Some one
        → slice_get shut at ≡ Some two
        → slice_get (settings_in station) place ≡ slice_get (settings_in other) at
        → ((k : ℕ) → made_by (accounts_of (column place (operator_lists_of operators))) k
        ≡ made_by (accounts_of (column at (operator_lists_of others))) k) → one ≡ two }
{}
