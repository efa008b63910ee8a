//! Words that are numbers.

ghost use Rattle.std.specs.Prelude.{◌≡◌, MatchResult};
ghost use Rattle.std.specs.List.{list_all};
ghost use Rattle.tc_lines.specs.Number.{is_digit, decimal_of, word_number};

const MAX_DIGITS: usize = 5;

/// The fault of a word that isn't 1 to 5 decimal digits, or is over its bound.
#[derive(Clone, Copy, Debug, PartialEq, Eq)]
pub struct BadNumber;

/// Reads a word as a number of at most 255.
pub fn small_number(word: &[u8]) -> Result<u8, BadNumber>
    ensures { MatchResult result
        (λ number. word_number 255 word.now ≡ Some number)
        (λ fault. word_number 255 word.now ≡ None) }
{
    let Some(number) = decimal(word) else {
        return Err(BadNumber);
    };
    match u8::try_from(number) {
        Ok(number) => Ok(number),
        Err(_) => Err(BadNumber),
    }
}

/// Reads a word as a number of at most 65,535.
pub fn large_number(word: &[u8]) -> Result<u16, BadNumber>
    ensures { MatchResult result
        (λ number. word_number 65535 word.now ≡ Some number)
        (λ fault. word_number 65535 word.now ≡ None) }
{
    let Some(number) = decimal(word) else {
        return Err(BadNumber);
    };
    match u16::try_from(number) {
        Ok(number) => Ok(number),
        Err(_) => Err(BadNumber),
    }
}

// Returns the number that a word spells, or `None` if the word isn't 1 to 5 decimal digits.
fn decimal(word: &[u8]) -> Option<u32>
    ensures { result ≡ decimal_of word.now }
{
    if word.is_empty() || word.len() > MAX_DIGITS || !are_digits(word) {
        return None;
    }
    let mut number = 0u32;
    for digit in word {
        number = number * 10 + u32::from(*digit - b'0');
    }
    Some(number)
}

fn are_digits(octets: &[u8]) -> bool
    ensures { result ≡ list_all is_digit octets.now }
{
    octets.iter().all(|octet| octet.is_ascii_digit())
}
