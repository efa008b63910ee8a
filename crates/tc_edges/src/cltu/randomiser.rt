//! The randomiser.

ghost use Rattle.std.specs.Prelude.{◌≡◌};
ghost use Rattle.tc_edges.specs.Cltu.Randomiser.{randomised};

use crate::cltu::tables::NEXT_OCTETS;

/// Adds the random sequence, from its start on and by exclusive or, to the octets that code blocks are to carry or have
/// carried (CCSDS 231.0-B). Adding it twice changes nothing.
///
/// No other function randomises a CLTU. A sender calls this one before [`write_cltu`](crate::cltu::write_cltu), and a
/// receiver calls it with each candidate frame.
pub fn randomise(octets: &mut [u8])
    ensures { octets.new ≡ randomised octets.old }
{
    let mut register: u8 = 0xff;
    for i in 0..octets.len() {
        octets[i] ^= register;
        register = NEXT_OCTETS[usize::from(register)];
    }
}
