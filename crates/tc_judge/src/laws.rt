//! Laws of accounts, and examples that were worked out by hand.

ghost use Rattle.std.specs.Prelude.{◌≡◌, ◌⊎◌, ◌<◌, ◌↔◌, ◌∷◌, ◌++◌, [], List, ℕ, true, false};
ghost use Rattle.tc_link.specs.Clcw.{fields_of, word_of};
ghost use Rattle.tc_link.specs.Farm.{Row, E10, after, first_report};
ghost use Rattle.tc_link.specs.declared.clcw.Link.{Link};
ghost use Rattle.tc_link.specs.declared.command.Command.TheVariants.{Unlock, SetVr};
ghost use Rattle.tc_link.specs.declared.command.Kind.TheVariants.{Ad, Bd, Bc, Invalid};
ghost use Rattle.tc_link.specs.declared.farm.Report.{Report};
ghost use Rattle.tc_link.specs.declared.farm.State.TheVariants.{S1, S2, S3};
ghost use Rattle.tc_judge.specs.Account.{Explains};
ghost use Rattle.tc_judge.specs.Reading.{IsShown, shown, as_taken};
ghost use Rattle.tc_judge.specs.declared.account.Item.{Item};
ghost use Rattle.tc_judge.specs.declared.account.Item.TheVariants.{Sent, Heard};
ghost use Rattle.tc_judge.specs.declared.account.Rules.{Rules};
ghost use Rattle.tc_judge.specs.declared.account.SentFrame.{SentFrame};
ghost use Rattle.tc_judge.specs.declared.account.SentFrame.TheVariants.{Known, OtherCommand};

/// A frame that is noted as sent is the newest on its way, and nothing else follows from the note.
pub fn a_frame_that_is_sent_is_on_its_way()
    ensures { (rules : Rules) (way : List SentFrame) (r : Report) (frame : SentFrame) (items : List Item)
        → Explains rules way r (Sent frame ∷ items) ↔ Explains rules (way ++ frame ∷ []) r items }
{}

/// If no frame is on its way to a unit, and a CLCW is noted next, it shows the unit's components or those after a
/// release.
pub fn only_a_release_changes_a_unit_to_which_nothing_is_on_its_way()
    ensures { (rules : Rules) (r shown : Report) (items : List Item) → Explains rules [] r (Heard shown ∷ items)
        → (shown ≡ r) ⊎ (shown ≡ after E10 r) }
{}

/// If the flags of a unit show its state, the flags that the next CLCW shows belong to its state, too (`components`).
/// Lockout is then set exactly in S3 (`lockout`), and Wait without Lockout exactly in S2 (`wait`).
pub fn a_clcw_shows_the_state()
    ensures components { (rules : Rules) (way : List SentFrame) (r shown : Report) (items : List Item) → IsShown r
        → Explains rules way r (Heard shown ∷ items) → IsShown shown }
    ensures lockout { (r : Report) → IsShown r → (r.state ≡ S3) ↔ (r.lockout ≡ true) }
    ensures wait { (r : Report) → IsShown r → (r.state ≡ S2) ↔ ((r.lockout ≡ false) × (r.wait ≡ true)) }
{}

/// A CLCW can show the first components of a FARM-1 (`first`), and those after each event (`after`).
pub fn a_clcw_can_show_the_components_of_a_farm()
    ensures first { (number : ℕ) → IsShown (first_report number) }
    ensures after { (row : Row) (r : Report) → IsShown r → IsShown (after row r) }
{}

/// The CLCW of a unit shows the components that the unit has.
pub fn a_clcw_reads_as_the_components()
    ensures { (r : Report) (vcid : ℕ) (link : Link) → IsShown r → vcid < 64 → r.vr < 256 → shown (fields_of (word_of r vcid link)) ≡ r }
{}

/// If a history explains an account, one still does if frames may be lost (`lossy`), or if the unit may take the other
/// entry of a cell (`profile`).
pub fn milder_rules_explain_more()
    ensures lossy { (rules : Rules) (way : List SentFrame) (r : Report) (items : List Item) → Explains rules way r items
        → Explains (record rules { lossy = true }) way r items }
    ensures profile { (rules : Rules) (way : List SentFrame) (r : Report) (items : List Item) → Explains rules way r items
        → Explains (record rules { profile = false }) way r items }
{}

/// States examples of frames as a unit takes them, and of the components that CLCWs show, worked out by hand.
pub fn items_are_read_so()
    ensures ad { as_taken true (0x00 ∷ 0x2a ∷ 0x04 ∷ 0x05 ∷ 0x07 ∷ 0xaa ∷ []) ≡ Known (Ad 7) }
    ensures bd { as_taken true (0x20 ∷ 0x2a ∷ 0x04 ∷ 0x05 ∷ 0x07 ∷ 0xaa ∷ []) ≡ Known Bd }
    ensures reserved { as_taken true (0x10 ∷ 0x2a ∷ 0x04 ∷ 0x05 ∷ 0x00 ∷ 0x00 ∷ []) ≡ Known Invalid }
    ensures unlock { as_taken true (0x30 ∷ 0x2a ∷ 0x04 ∷ 0x05 ∷ 0x00 ∷ 0x00 ∷ []) ≡ Known (Bc Unlock) }
    ensures set_vr { as_taken true (0x30 ∷ 0x2a ∷ 0x04 ∷ 0x07 ∷ 0x00 ∷ 0x82 ∷ 0x00 ∷ 0x05 ∷ []) ≡ Known (Bc (SetVr 5)) }
    ensures malformed { as_taken true (0x30 ∷ 0x2a ∷ 0x04 ∷ 0x07 ∷ 0x00 ∷ 0x82 ∷ 0x01 ∷ 0x05 ∷ []) ≡ Known Invalid }
    ensures long_unlock { as_taken true (0x30 ∷ 0x2a ∷ 0x04 ∷ 0x06 ∷ 0x00 ∷ 0x00 ∷ 0x00 ∷ []) ≡ Known Invalid }
    ensures other_command { as_taken true (0x30 ∷ 0x2a ∷ 0x04 ∷ 0x05 ∷ 0x00 ∷ 0x01 ∷ []) ≡ OtherCommand }
    ensures wrong_sum { as_taken false (0x20 ∷ 0x2a ∷ 0x04 ∷ 0x05 ∷ 0x07 ∷ 0xaa ∷ []) ≡ Known Invalid }
    ensures wait { shown (fields_of 0x01041801) ≡ record { state = S2; vr = 1; lockout = false; wait = true; retransmit = true; farm_b = 0 } }
    ensures lockout { shown (fields_of 0x01fc2000) ≡ record { state = S3; vr = 0; lockout = true; wait = false; retransmit = false; farm_b = 0 } }
    ensures both { shown (fields_of 0x010436ff) ≡ record { state = S3; vr = 255; lockout = true; wait = true; retransmit = false; farm_b = 3 } }
{}
