//! Laws of accounts of the receiving end.

ghost use Rattle.std.specs.Prelude.{◌≡◌, ◌<◌, ◌≤◌, ◌∷◌, [], List, ℕ, true, false};
ghost use Rattle.tc_sender.specs.Account.{Seen, Arrived, Made, Set, SenderExplains, InTime};

/// If a history explains an account, its frames are those of one sequence, and each comes when its index and the number
/// of accepted frames differ by less than 256. So the number of a frame tells which frame of the sequence it is.
pub fn explained_frames_come_in_their_time()
    ensures { (window vr : ℕ) (items : List Seen) → window ≤ 127 → vr < 256 → SenderExplains window vr [] vr items → InTime vr 0 items }
{}

/// A window of 10 frames lets the sender send frame 9 (`last`), but not frame 10 (`beyond`), unless it has read that
/// frame 0 is accepted (`read`). A frame that is known to be accepted can't come after a later one (`back`).
pub fn senders_are_judged_so()
    ensures last { SenderExplains 10 0 [] 0 (Arrived 9 false [] ∷ []) }
    ensures beyond { SenderExplains 10 0 [] 0 (Arrived 10 false [] ∷ []) → ⊥ }
    ensures read { SenderExplains 10 0 [] 0 (Arrived 0 true [] ∷ Made 1 ∷ Arrived 10 false [] ∷ []) }
    ensures back { SenderExplains 10 0 [] 0 (Arrived 0 true [] ∷ Made 1 ∷ Arrived 10 false [] ∷ Arrived 0 false [] ∷ []) → ⊥ }
{}
