mod definition;
mod growth;
mod streams;

use definition::Given;
use std::alloc::Global;
use std::process::Abort;
use tc_packet::{NoMemory, Reassembler, Service, read_segment};
use test_parts::made_again;

// Returns the unit that a field, which must not be empty, would end, if any.
fn ask(
    rt: &impl Abort,
    reassembler: &Reassembler,
    service: Service,
    field: &[u8],
) -> Result<Option<Vec<u8>>, NoMemory> {
    assert!(rt; !field.is_empty());
    reassembler.unit_after(service, field)
}

// Pushes a field, which must not be empty, to the reassembler. Returns the unit that the field completes, if any.
fn push(
    rt: &impl Abort,
    reassembler: &mut Reassembler,
    service: Service,
    field: &[u8],
) -> Result<Option<Vec<u8>>, NoMemory> {
    assert!(rt; !field.is_empty());
    reassembler.push(service, field)
}

// Checks that the expected unit was ended, or none if `expected` is `None`, and that no memory was refused.
fn check_unit(rt: &impl Abort, answer: Result<Option<Vec<u8>>, NoMemory>, expected: Option<&[u8]>) {
    let unit = answer.expect(rt, "an answer");
    assert_eq!(rt; unit.as_deref(), expected);
}

// A reassembler, and all fields that were ever given to it.
#[derive(Drop)]
struct Watched {
    alloc: Global,
    reassembler: Reassembler,
    given: Vec<Given>,
}

impl Watched {
    fn new(rt: &impl Abort, alloc: Global) -> Watched {
        let reassembler = Reassembler::new(alloc, true).expect(rt, "a reassembler");
        Watched {
            alloc,
            reassembler,
            given: Vec::new(alloc),
        }
    }

    // Returns the unit that the field would end, if any. Checks that `unit_after` of the reassembler and the definition
    // over the whole stream agree on it.
    fn unit_after(&self, rt: &impl Abort, service: Service, field: &[u8]) -> Option<Vec<u8>> {
        let expected = definition::unit_after(self.alloc, &self.given, service, field).expect(
            rt,
            "an answer",
        );
        let answer = ask(rt, &self.reassembler, service, field);
        check_unit(rt, answer, expected.as_deref());
        expected
    }

    fn note(&mut self, rt: &impl Abort, service: Service, field: &[u8]) {
        let field = Vec::from_slice(self.alloc, field).expect(rt, "a copy");
        self.given
            .push(Given { service, field })
            .expect(rt, "a field");
    }

    // Pushes a field to the reassembler. Checks that `unit_after`, `push` and the definition agree on the unit that the
    // field completes, and returns this unit, if any.
    fn push(&mut self, rt: &impl Abort, service: Service, field: &[u8]) -> Option<Vec<u8>> {
        let expected = self.unit_after(rt, service, field);
        let answer = push(rt, &mut self.reassembler, service, field);
        check_unit(rt, answer, expected.as_deref());
        self.note(rt, service, field);
        expected
    }

    // Checks the open run of a stream, which is the unit that an empty last segment would end.
    fn check_run(&self, rt: &impl Abort, service: Service, map: u8) {
        self.unit_after(rt, service, &[0x80 | (map & 0x3f)]);
    }
}
