//! Check sums of octets. Each is the result of Python's `binascii.crc_hqx(bytes.fromhex(digits), 0xffff)`.

use tc_edges::fecf::{checksum, passes};

const SUMS: [(&str, u16); 14] = [
    ("", 0xffff),
    ("00", 0xe1f0),
    ("ff", 0xff00),
    ("313233343536373839", 0x29b1),
    ("0000", 0x1d0f),
    ("ffff", 0x0000),
    ("000102030405060708090a0b0c0d0e0f", 0x3b37),
    ("002a040e00c01005c0000000aa", 0x6b6e),
    ("302a04070000", 0x20e7),
    ("80", 0x7078),
    ("01", 0xf1d1),
    ("00000000000000000000000000", 0x280c),
    (
        "4d8533a7560dd2d0263440a3f2e6d26a66a2aba8da2ffbcf29697c1167302a6181919c83533c0b88",
        0x202b,
    ),
    (
        "7770791c06998f46abe54e8cdd5054cf3d40dbb0723b1a63df5858293a9601a1cdea1b543ce9aa0625372faa832b9a160d637006500c459f40d68c37c6326f",
        0x2571,
    ),
];

#[test]
fn sums_are_those_of_crc_hqx(rt: HostRuntime) {
    for (digits, sum) in SUMS {
        let octets = hex::decode(rt.alloc(), digits).expect(&rt, "octets");
        assert_eq!(rt; checksum(&octets), sum, "{digits}");
    }
    assert_eq!(rt; checksum(&[0; 1024]), 0xb76f);
    assert_eq!(rt; checksum(&[0xff; 1024]), 0x77eb);
}

#[test]
fn octets_pass_with_their_sum_alone(rt: HostRuntime) {
    for (digits, sum) in SUMS {
        let mut octets = hex::decode(rt.alloc(), digits).expect(&rt, "octets");
        octets
            .extend_from_slice(&sum.to_be_bytes())
            .expect(&rt, "room");
        assert!(rt; passes(&octets), "{digits}");
        octets.push(1).expect(&rt, "room");
        assert!(rt; !passes(&octets), "{digits} and another octet");
    }
}
