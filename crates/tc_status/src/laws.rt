//! Laws about the board of a channel and the CLCW that is its word.

ghost use Rattle.std.specs.Prelude.{List, ℕ, ◌≡◌, ◌+◌, ◌*◌, ◌^◌, ◌∷◌, [], true};
ghost use mathlib.Core.Option.{some};
ghost use lib.ListN.{get_elem?};
ghost use Rattle.tc_status.specs.declared.board.View.{View};
ghost use Rattle.tc_status.specs.Board.{IsBoard, IsEarlier, status_word};
ghost use Rattle.tc_link.specs.Bits.{bit};
ghost use Rattle.tc_link.specs.declared.Link.{Link};
ghost use Rattle.tc_channel.specs.Journal.{History};
ghost use Rattle.tc_channel.specs.Reply.{clcw};

/// While the rule of a board holds, the word is the CLCW of the history that the publisher has published, with both
/// flags of the link 0. The history that each seat has seen has the published settings, and its journal is a beginning
/// of the published one. Only a seat that was joined to another is excepted.
pub fn each_seat_is_behind_the_publisher()
    ensures word { (words : List ℕ) (views : List View) (p : View) → IsBoard words views → get_elem? views 0 ≡ some p
        → words ≡ status_word p.seen ∷ [] }
    ensures behind { (words : List ℕ) (views : List View) (p : View) (id : ℕ) (v : View) → IsBoard words views
        → get_elem? views 0 ≡ some p → get_elem? views id ≡ some v → v.live ≡ true → IsEarlier v.seen p.seen }
{}

/// The two flags of the link have bits of their own in the CLCW of a channel, so they can be set in a word that was
/// read.
pub fn the_flags_of_the_link_have_their_own_bits()
    ensures { (h : History) (link : Link) → clcw h.settings h.journal link ≡ status_word h + bit link.no_rf * 2 ^ 15 + bit link.no_bit_lock * 2 ^ 14 }
{}
