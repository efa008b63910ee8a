//! A law about the answers that the definitions give to some lines.

ghost use Rattle.std.specs.Prelude.{◌++◌, true, false, codes};
ghost use Rattle.tc_lines.specs.Answering.{AreAnswered, lines_of};
ghost use Rattle.tc_text.specs.Printed.{word_text};
ghost use Rattle.tc_live.specs.Examples as example;
ghost use Rattle.tc_live.specs.Receiver.{new_receiver};
ghost use Rattle.tc_live.specs.Serving.{IsLineSaid, line_limit};
ghost use Rattle.tc_live.specs.declared.check.FrameCheck.TheVariants.{Nothing};

/// States the answers to three lines, which were worked out by hand. The first line sets up a plain channel, and has no
/// answer. The second line sets the first flag of the channel's link, which reports that no radio frequency signal is
/// available. The third line requests the channel's CLCW, in which only this flag is set.
pub fn lines_are_answered_so()
    ensures { AreAnswered line_limit IsLineSaid (new_receiver Nothing 42)
        (lines_of (codes "channel 1 10 1 0 plain\nlink 1 1 0\nclcw 1\n"))
        (example.receiver_with (record { no_rf = true; no_bit_lock = false }))
        (codes "link 1 1 0\nclcw 1 " ++ word_text 0x01048000 ++ codes "\n") }
{}
