//! A law about the frames that tcmake writes for a sender's packets.

ghost use Rattle.std.specs.Prelude.{Bool, List, ℕ, [], ◌∷◌, ◌≡◌, ◌<◌, ◌⊎◌, Option, true, false, codes};
ghost use Rattle.tc_lines.specs.Answering.{Writes, lines_of};
ghost use Rattle.tc_make.specs.Serving.{AreWritten};
ghost use Rattle.tc_make.specs.declared.ending.Ending.{Ending};
ghost use Rattle.tc_make.specs.declared.line.Stream.{Stream};
ghost use Rattle.tc_laws.specs.Ends.Ends.{UnitSent};
ghost use Rattle.tc_laws.specs.Ends.Examples as example;
ghost use Rattle.tc_apart.specs.Making.{AskFor, AreSpelled, HasBadLine};

/// Suppose that the lines of an input order the frames of a sender's units, one unit after the other, and that
/// `answer_lines` of tc_make answers them (`AreWritten`). Then `tcmake` writes the frames of
/// `numbered_frames_send_packets` (tc_laws), or reports that a line is bad (`written`). An empty text has no bad line
/// (`none_bad`). Two lines that were worked out by hand order a unit, with segment headers (`asked`) and without
/// (`asked_plainly`).
pub fn tcmake_writes_numbered_frames()
    ensures written { (ending : Ending) (segmented : Bool) (stream : Stream) (units : List UnitSent) (octets : List ℕ)
        (before after : Option (List ℕ)) → stream.ns < 256
        → AskFor segmented stream units (lines_of octets) → AreWritten ending octets before after
        → Writes before after (λ text. AreSpelled ending segmented stream units text ⊎ HasBadLine text) }
    ensures none_bad { HasBadLine [] → ⊥ }
    ensures asked { AskFor true (record { scid = 42; vcid = 1; ns = 9 }) example.one_unit
        (lines_of (codes "segments 42 1 9 0 249 1005c0000000aa\n")) }
    ensures asked_plainly { AskFor false (record { scid = 42; vcid = 1; ns = 9 }) example.one_unit
        (lines_of (codes "ad 42 1 9 plain 1005c0000000aa\n")) }
{}
