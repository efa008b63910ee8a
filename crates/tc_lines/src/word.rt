//! The words of a line.

ghost use Rattle.std.specs.Prelude.{◌≡◌, ◌<◌, [], ◌∷◌, length, not, MatchOption};
ghost use Rattle.std.specs.List.{take_while};
ghost use Rattle.tc_lines.specs.Word.{is_separator as is_separator_octet, words};

use memchr::memchr3;

// The smallest number of octets in which a separator is searched for by `memchr3`. Fewer octets are examined one by
// one, since that takes no longer than starting such a search.
const LONG: usize = 64;

/// Returns the first word and the octets after it, or `None` if there is no word. Words are separated by spaces, tabs
/// and carriage returns.
#[inline]
pub fn next_word(octets: &[u8]) -> Option<(&[u8], &[u8])>
    ensures cases { MatchOption result (words octets.now ≡ []) (λ parts. words octets.now ≡ parts.0.now ∷ words parts.1.now) }
    ensures filled { MatchOption result (Unit {0}) (λ parts. 0 < length parts.0.now) }
{
    let (_, words) = octets.split_at(gap_length(octets));
    if words.is_empty() {
        return None;
    }
    Some(words.split_at(word_length(words)))
}

// Returns the number of separators at the front.
fn gap_length(octets: &[u8]) -> usize
    ensures { result ≡ length (take_while is_separator_octet octets.now) }
{
    octets
        .iter()
        .take_while(|octet| is_separator(**octet))
        .count()
}

// Returns the number of octets before the first separator, or of all octets if there is no separator.
fn word_length(octets: &[u8]) -> usize
    ensures { result ≡ length (take_while (λ octet. not (is_separator_octet octet)) octets.now) }
{
    if octets.len() < LONG {
        return octets
            .iter()
            .take_while(|octet| !is_separator(**octet))
            .count();
    }
    long_word_length(octets)
}

// Returns the result of `word_length` by a search for the first separator. The search isn't inlined, so that its code
// stays apart from the code for short words.
#[inline(never)]
fn long_word_length(octets: &[u8]) -> usize
    ensures { result ≡ length (take_while (λ octet. not (is_separator_octet octet)) octets.now) }
{
    match memchr3(b' ', b'\t', b'\r', octets) {
        Some(place) => place,
        None => octets.len(),
    }
}

/// Returns whether an octet is a space, a tab or a carriage return, which separate words.
pub fn is_separator(octet: u8) -> bool
    ensures { result ≡ is_separator_octet octet }
{
    octet == b' ' || octet == b'\t' || octet == b'\r'
}
