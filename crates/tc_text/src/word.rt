//! The words that commands take.

ghost use Rattle.std.specs.Prelude.{◌≡◌, ◌≢◌, [], ◌∷◌, option_map, MatchResult, OnOk, IfErr};
ghost use Rattle.tc_lines.specs.Word.{is, words};
ghost use Rattle.tc_text.specs.Line.{last_of, two_of, three_of};

use crate::fault::Reason;
use tc_lines::next_word;

/// Returns the next word of a command, and the octets after the word. The call fails if no word is left.
pub(crate) fn next_argument(octets: &[u8]) -> Result<(&[u8], &[u8]), Reason>
    ensures { MatchResult result
        (λ parts. words octets.now ≡ parts.0.now ∷ words parts.1.now)
        (λ reason. (reason ≡ Reason.WordCount) × (words octets.now ≡ [])) }
{
    match next_word(octets) {
        Some(parts) => Ok(parts),
        None => Err(Reason::WordCount),
    }
}

/// Returns the last word of a command, or `None` if no word is left. The call fails if more than one word is left.
pub(crate) fn last_argument(octets: &[u8]) -> Result<Option<&[u8]>, Reason>
    ensures { MatchResult result
        (λ last. last_of (words octets.now) ≡ Ok (option_map (λ word. word.now) last))
        (λ reason. last_of (words octets.now) ≡ Err reason) }
{
    match next_word(octets) {
        Some((word, after)) => {
            no_more(after)?;
            Ok(Some(word))
        }
        None => Ok(None),
    }
}

/// Returns the two words that follow a command. The call fails if there are more or fewer.
pub(crate) fn two_arguments(octets: &[u8]) -> Result<(&[u8], &[u8]), Reason>
    ensures { MatchResult result
        (λ parts. two_of (words octets.now) ≡ Ok (parts.0.now, parts.1.now))
        (λ reason. two_of (words octets.now) ≡ Err reason) }
{
    let (first, rest) = next_argument(octets)?;
    let (second, rest) = next_argument(rest)?;
    no_more(rest)?;
    Ok((first, second))
}

/// Returns the three words that follow a command. The call fails if there are more or fewer.
pub(crate) fn three_arguments(octets: &[u8]) -> Result<(&[u8], &[u8], &[u8]), Reason>
    ensures { MatchResult result
        (λ parts. three_of (words octets.now) ≡ Ok (parts.0.now, parts.1.now, parts.2.now))
        (λ reason. three_of (words octets.now) ≡ Err reason) }
{
    let (first, rest) = next_argument(octets)?;
    let (second, rest) = next_argument(rest)?;
    let (third, rest) = next_argument(rest)?;
    no_more(rest)?;
    Ok((first, second, third))
}

/// Checks that a command has no more words.
pub(crate) fn no_more(octets: &[u8]) -> Result<(), Reason>
    ensures none { OnOk result (words octets.now ≡ []) }
    ensures some { IfErr result (λ reason. (reason ≡ Reason.WordCount) × (words octets.now ≢ [])) }
{
    match next_word(octets) {
        Some(_) => Err(Reason::WordCount),
        None => Ok(()),
    }
}

/// Returns whether a word is this text. The comparison stops at the first octet that differs. That is mostly the first
/// octet, since most commands begin with different letters.
#[inline(always)]
pub(crate) fn is_text(word: &[u8], text: &[u8]) -> bool
    ensures { result ≡ is word.now text.now }
{
    if word.len() != text.len() {
        return false;
    }
    for place in 0..text.len() {
        if word[place] != text[place] {
            return false;
        }
    }
    true
}
