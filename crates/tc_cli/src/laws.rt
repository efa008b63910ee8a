//! Laws about the lines of a script, its effect and its report.

ghost use Rattle.std.specs.Prelude.{◌≡◌, ◌<◌, ℕ, [], List, Option};
ghost use Rattle.tc_channel.specs.Journal.{History};
ghost use Rattle.tc_cli.specs.Parallel.{AreWorkedChannels};
ghost use Rattle.tc_rack.specs.Progress.{Progress, IsPerformed};
ghost use Rattle.tc_rack.specs.Report.{IsReportOf};
ghost use Rattle.tc_cli.specs.Script.{AreFirstGood, IsScriptFault};
ghost use Rattle.tc_cli.specs.Written.{AreAnswers, IsScriptReport};
ghost use Rattle.tc_rack.specs.declared.answer.Answer.{Answer};
ghost use Rattle.tc_text.specs.declared.fault.Reason.TheVariants.{NoMemory};
ghost use Rattle.tc_text.specs.declared.fault.ScriptFault.TheVariants.{Line};

use tc_desk::{one_alone_is_answered_after_its_own_events, the_only_maker_made_the_whole_journal};
use tc_link::each_input_begins_with_one_frame_at_most;

/// States that all lines before the one at which memory ran out are good.
pub fn the_lines_before_memory_ran_out_are_good()
    ensures { (script : List ℕ) (number count : ℕ) → IsScriptFault script (Line number NoMemory) → count < number → AreFirstGood script count }
{}

/// States that the effect of a script follows from its lines. If all lines can be carried out in two ways, both ways
/// lead to the same channels with the same journals, and give the same answers. There is only one report of these
/// channels.
pub fn what_a_script_does_follows_from_its_lines()
    ensures answers { (scid : ℕ) (script : List ℕ) (answers others : List (Option Answer)) (progress other : Progress)
        → AreAnswers (IsPerformed scid) script answers progress [] → AreAnswers (IsPerformed scid) script others other []
        → (progress ≡ other) × (answers ≡ others) }
    ensures report { (scid : ℕ) (script : List ℕ) (answers : List (Option Answer)) (progress : Progress) (text another : List ℕ)
        → AreAnswers (IsPerformed scid) script answers progress [] → IsScriptReport scid progress text
        → IsScriptReport scid progress another → text ≡ another }
{
    each_input_begins_with_one_frame_at_most();
}

/// States that the report on the channels that a script's workers leave is the report of the script when its lines are
/// carried out in order.
pub(crate) fn the_workers_report_is_that_of_the_lines_in_order()
    ensures { (scid : ℕ) (script : List ℕ) (channels : List History) (text : List ℕ) → AreWorkedChannels scid script channels
        → IsReportOf channels text
        → (answers : List (Option Answer)) × (progress : Progress) × AreAnswers (IsPerformed scid) script answers progress []
        × IsScriptReport scid progress text }
{
    each_input_begins_with_one_frame_at_most();
    one_alone_is_answered_after_its_own_events();
    the_only_maker_made_the_whole_journal();
}
