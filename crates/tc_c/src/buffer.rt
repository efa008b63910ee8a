//! Writing octets into the caller's buffer.

ghost use Rattle.std.specs.Prelude.{◌≡◌, ◌<◌, ◌≤◌, ◌+◌, ◌∷◌, [], ◌++◌, length, take, drop, IfSome, IfNone};
ghost use Rattle.tc_c_base.specs.Status.{code_of, status_of, text_of};

use tc_c_base::{Status, WrittenRecord, from_number, no_room, not_written, text, written};

/// Writes two runs of octets to the front of a buffer, one after the other. A buffer that is too short stays as it was.
pub(crate) fn put(first: &[u8], second: &[u8], to: &mut [u8]) -> WrittenRecord
    ensures put { length first.now + length second.now ≤ length to.old
        → result ≡ record { status = code_of Status.Done; length = length first.now + length second.now } }
    ensures octets { length first.now + length second.now ≤ length to.old
        → take (length first.now + length second.now) to.new ≡ first.now ++ second.now }
    ensures rest { length first.now + length second.now ≤ length to.old
        → drop (length first.now + length second.now) to.new ≡ drop (length first.now + length second.now) to.old }
    ensures no_room { length to.old < length first.now + length second.now
        → result ≡ record { status = code_of Status.NoRoom; length = length first.now + length second.now } }
    ensures unchanged { length to.old < length first.now + length second.now → to.new ≡ to.old }
{
    let needed = first.len() + second.len();
    if to.len() < needed {
        return no_room(needed);
    }
    let (front, rest) = to.split_at_mut(first.len());
    front.copy_from_slice(first);
    let (middle, _) = rest.split_at_mut(second.len());
    middle.copy_from_slice(second);
    written(needed)
}

/// Writes the text of a status to the front of a buffer, in ASCII, with an octet 0 after it.
///
/// The returned length counts the octet 0. If the buffer is too short, the status is NoRoom, and the length is the
/// number of octets that are needed. If no status has the number, the status is NoStatus, and the length is 0. In both
/// cases the buffer stays as it was. Each text fits in 64 octets.
#[unsafe(no_mangle)]
pub extern "C" fn tcrx_text_at(number: u32, buffer: &mut [u8]) -> WrittenRecord
    ensures written { IfSome (status_of number)
        (λ st. length (text_of st) + 1 ≤ length buffer.old
        → result ≡ record { status = code_of Status.Done; length = length (text_of st) + 1 }) }
    ensures text { IfSome (status_of number)
        (λ st. length (text_of st) + 1 ≤ length buffer.old → take (length (text_of st) + 1) buffer.new ≡ text_of st ++ 0 ∷ []) }
    ensures rest { IfSome (status_of number)
        (λ st. length (text_of st) + 1 ≤ length buffer.old
        → drop (length (text_of st) + 1) buffer.new ≡ drop (length (text_of st) + 1) buffer.old) }
    ensures no_room { IfSome (status_of number)
        (λ st. length buffer.old < length (text_of st) + 1
        → (result ≡ record { status = code_of Status.NoRoom; length = length (text_of st) + 1 })
        × (buffer.new ≡ buffer.old)) }
    ensures no_status { IfNone (status_of number) ((result ≡ record { status = code_of Status.NoStatus; length = 0 }) × (buffer.new ≡ buffer.old)) }
{
    match from_number(number) {
        Some(status) => put(text(status), &[0], buffer),
        None => not_written(Status::NoStatus),
    }
}
