//! A law which states that a session carries out a script as `tcrx run` does.

ghost use Rattle.std.specs.Prelude.{◌≡◌, ◌⊎◌, ◌+◌, ◌-◌, ◌^◌, ◌++◌, ℕ, List, [], Option, codes, false, length, min};
ghost use Rattle.std.specs.Io.KnownBytes.{Appends};
ghost use Rattle.tc_text.specs.Printed.{fault_text};
ghost use Rattle.tc_text.specs.declared.fault.Reason.{Reason};
ghost use Rattle.tc_text.specs.declared.fault.Reason.TheVariants.{NoMemory};
ghost use Rattle.tc_text.specs.declared.fault.ScriptFault.TheVariants.{Line};
ghost use Rattle.tc_rack.specs.Progress.{IsPerformed, Progress};
ghost use Rattle.tc_rack.specs.Stage.{phase_of};
ghost use Rattle.tc_rack.specs.declared.answer.Answer.{Answer};
ghost use Rattle.tc_cli.specs.Script.{IsBadLine};
ghost use Rattle.tc_cli.specs.Written.{AreAnswers, IsScriptWritten, answers_text};
ghost use Rattle.tc_session.specs.Session.{IsEngineEnded, IsEngineSaid};
ghost use Rattle.tc_session.specs.declared.engine.Engine.{Engine};
ghost use Rattle.tc_session.specs.declared.session.Said.TheVariants.{Done};
ghost use Rattle.tc_apart.specs.Sessions.{AreSaid};

/// Suppose that the first lines of a script are given to a session for scripts, one after the other, and that each of
/// them is good (`AreSaid`).
///
/// - `answers`: The texts together are the answers to these lines that `tcrx run` writes, by the definitions of tc_cli.
/// - `written`: If these are all lines of the script, and the session then ends with a report, the texts and the report
///   together are what `tcrx run` writes for the script.
/// - `fault`: If the next line is bad, its text gives the number of the line and the reason, as `tcrx run` prints them.
pub fn a_session_does_a_script_as_tcrx_does()
    ensures answers { (scid : ℕ) (script texts rest : List ℕ) (engine : Engine) → AreSaid scid script texts engine rest
        → (answers : List (Option Answer)) × (progress : Progress) × AreAnswers (IsPerformed scid) script answers progress rest
        × (texts ≡ answers_text answers) }
    ensures written { (scid : ℕ) (script texts report : List ℕ) (engine : Engine) (old new : Option (List ℕ))
        → AreSaid scid script texts engine [] → IsEngineEnded Done engine report
        → Appends old new (texts ++ report) → IsScriptWritten scid script old new }
    ensures fault { (scid : ℕ) (script texts rest line text : List ℕ) (engine left : Engine)
        → AreSaid scid script texts engine rest → IsEngineSaid false engine line left text
        → (answers : List (Option Answer)) × (progress : Progress) × (reason : Reason) × AreAnswers (IsPerformed scid) script answers progress rest
        × (text ≡ fault_text (Line (min (length answers + 1) (2 ^ 32 - 1)) reason) ++ codes "\n")
        × ((reason ≡ NoMemory) ⊎ IsBadLine (phase_of progress) line reason) }
{}
