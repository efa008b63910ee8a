//! Writing CLTUs.

use tc_edges::cltu::{CltuFault, write_cltu};
use test_parts::made_again;

// A frame, and the CLTU that carries it. The CLTU has the start sequence eb90, code blocks with the fill octets 55 in
// the last one, and the tail sequence. The parity bits were computed by long division of integers in Python.
const FRAME: &[u8] = b"\x00\x2a\x04\x0c\x00\xc0\x10\x05\xc0\x00\x00\x00\xaa";

const CLTU: &[u8] =
    b"\xeb\x90\x00\x2a\x04\x0c\x00\xc0\x10\xaa\x05\xc0\x00\x00\x00\xaa\x55\xe0\xc5\xc5\xc5\xc5\xc5\xc5\xc5\x79";

#[test]
fn growth_of_a_cltu_that_is_written(rt: HostRuntime) {
    let alloc = rt.alloc();
    let made = made_again(
        &rt,
        "write_cltu",
        CltuFault::NoMemory,
        &|| write_cltu(alloc, FRAME),
    );
    assert!(rt; made.expect(&rt, "a CLTU").as_slice() == CLTU);
}

// The longest CLTU has the start sequence, 147 code blocks of 8 octets, and the tail sequence.
#[test]
fn the_longest_cltu_is_written(rt: HostRuntime) {
    let made = write_cltu(rt.alloc(), &[0; 1029]).expect(&rt, "a CLTU");
    assert!(rt; made.len() == 1186);
}
