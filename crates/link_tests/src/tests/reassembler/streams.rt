//! Units at the limit, and long streams compared with the definition.

ghost use Rattle.std.specs.Prelude.{◌<◌};

use super::*;

// Checks that on a new reassembler the field ends the expected unit. `None` stands for no unit.
fn check_alone(rt: &impl Abort, alloc: Global, field: &[u8], expected: Option<&[u8]>) {
    let unit = Watched::new(rt, alloc).push(rt, Service::Ad, field);
    assert_eq!(rt; unit.as_deref(), expected);
}

// Returns the octets, and `count` zeros after them.
fn with_zeros(rt: &impl Abort, alloc: Global, octets: &[u8], count: usize) -> Vec<u8> {
    let mut field = Vec::from_slice(alloc, octets).expect(rt, "octets");
    let zeros = vec![in alloc; 0; count];
    let zeros = zeros.expect(rt, "octets");
    field.extend_from_slice(&zeros).expect(rt, "octets");
    field
}

#[test]
fn bounds_an_unsegmented_unit(rt: HostRuntime) {
    let longest = with_zeros(&rt, rt.alloc(), b"\xc0", 65_542);
    check_alone(&rt, rt.alloc(), &longest, longest.get(1..));
    let longer = with_zeros(&rt, rt.alloc(), b"\xc0", 65_543);
    check_alone(&rt, rt.alloc(), &longer, None)
}

// Checks the unit that a first segment, 63 continuing ones of 1,018 octets and a last one of `last` octets end. `None`
// stands for no unit.
fn check_long(rt: &impl Abort, alloc: Global, last: usize, expected: Option<&[u8]>) {
    let mut watched = Watched::new(rt, alloc);
    let first = with_zeros(rt, alloc, b"\x40\x10\x05\xc0\x00\xff\xff", 1_012);
    assert_eq!(rt; watched.push(rt, Service::Bd, &first), None);
    let continuing = with_zeros(rt, alloc, b"\x00", 1_018);
    for _ in 0..63 {
        assert_eq!(rt; watched.push(rt, Service::Bd, &continuing), None);
    }
    let last = with_zeros(rt, alloc, b"\x80", last);
    let unit = watched.push(rt, Service::Bd, &last);
    assert_eq!(rt; unit.as_deref(), expected);
}

#[test]
fn bounds_a_unit_of_many_segments(rt: HostRuntime) {
    let packet = with_zeros(&rt, rt.alloc(), b"\x10\x05\xc0\x00\xff\xff", 65_536);
    check_long(&rt, rt.alloc(), 390, Some(&packet));
    check_long(&rt, rt.alloc(), 391, None)
}

// A linear congruential generator, for numbers below a bound.
#[derive(Drop)]
struct Numbers(u64);

impl Numbers {
    fn below(&mut self, bound: u32) -> u32
        requires { 0 < bound }
        ensures { result < bound }
    {
        self.0 = self
            .0
            .wrapping_mul(6_364_136_223_846_793_005)
            .wrapping_add(1_442_695_040_888_963_407);
        (self.0 >> 33) as u32 % bound
    }
}

// Returns a segment header of one of three MAPs. Continuing segments come more often than others.
fn some_header(numbers: &mut Numbers) -> u8 {
    let flags = match numbers.below(8) {
        0 => 0x40,
        1 => 0x80,
        2 => 0xc0,
        _ => 0x00,
    };
    flags | [0, 1, 63][numbers.below(3) as usize]
}

// Returns a field whose body has fewer octets than the bound.
fn some_field(rt: &impl Abort, alloc: Global, numbers: &mut Numbers, bound: u32) -> Vec<u8>
    requires { 0 < bound }
{
    let mut field = Vec::new(alloc);
    field.push(some_header(numbers)).expect(rt, "an octet");
    for _ in 0..numbers.below(bound) {
        let octet = numbers.below(256) as u8;
        field.push(octet).expect(rt, "an octet");
    }
    field
}

fn some_service(numbers: &mut Numbers) -> Service {
    if numbers.below(2) == 0 {
        Service::Ad
    } else {
        Service::Bd
    }
}

// Pushes `fields` pseudorandom fields. After each field, checks the open runs of both services on each of the three
// MAPs.
fn check_stream(rt: &impl Abort, alloc: Global, seed: u64, fields: usize, bound: u32)
    requires { 0 < bound }
{
    let mut numbers = Numbers(seed);
    let mut watched = Watched::new(rt, alloc);
    for _ in 0..fields {
        let service = some_service(&mut numbers);
        let field = some_field(rt, alloc, &mut numbers, bound);
        watched.push(rt, service, &field);
        for map in [0, 1, 63] {
            watched.check_run(rt, Service::Ad, map);
            watched.check_run(rt, Service::Bd, map);
        }
    }
}

#[test]
fn is_its_definition_on_long_streams(rt: HostRuntime) {
    for seed in 0..8 {
        check_stream(&rt, rt.alloc(), seed, 200, 8);
    }
    // These bodies are so long that some runs exceed the limit.
    check_stream(&rt, rt.alloc(), 8, 200, 30_000)
}
