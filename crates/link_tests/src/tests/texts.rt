//! The text of each fault.

use tc_edges::cltu::CltuFault;
use tc_edges::tm::{TmFault, TmReadFault};
use tc_link::{FrameFault, WriteFault};
use tc_packet::NoMemory;
use test_parts::have_texts;

static FRAME_FAULTS: [(FrameFault, &str); 5] = [
    (FrameFault::Short, "fewer than 5 octets"),
    (FrameFault::Version, "the version isn't 0"),
    (FrameFault::Spare, "the spare bits aren't 0"),
    (
        FrameFault::LengthSmall,
        "the frame length names fewer than 6 octets",
    ),
    (
        FrameFault::Truncated,
        "the frame length names more octets than there are",
    ),
];

static WRITE_FAULTS: [(WriteFault, &str); 4] = [
    (
        WriteFault::BadField,
        "a field of the header is over its bound",
    ),
    (WriteFault::EmptyData, "the data field is empty"),
    (
        WriteFault::TooLong,
        "the data field has more than 1,019 octets",
    ),
    (WriteFault::NoMemory, "no memory"),
];

static CLTU_FAULTS: [(CltuFault, &str); 3] = [
    (CltuFault::Empty, "no octets"),
    (CltuFault::TooLong, "more than 1,029 octets"),
    (CltuFault::NoMemory, "no memory"),
];

static TM_FAULTS: [(TmFault, &str); 4] = [
    (TmFault::BadScid, "the spacecraft id is over 1,023"),
    (TmFault::BadVcid, "the virtual channel id is over 7"),
    (TmFault::BadLength, "the frame length is out of bounds"),
    (TmFault::NoMemory, "no memory"),
];

static TM_READ_FAULTS: [(TmReadFault, &str); 4] = [
    (TmReadFault::Short, "too few octets"),
    (TmReadFault::Version, "the version isn't 0"),
    (
        TmReadFault::NoControl,
        "there is no operational control field",
    ),
    (
        TmReadFault::WrongSum,
        "the frame error control field is wrong",
    ),
];

#[test]
fn the_text_of_each_fault(rt: HostRuntime) {
    let alloc = rt.alloc();
    assert!(rt; have_texts(alloc, &FRAME_FAULTS));
    assert!(rt; have_texts(alloc, &WRITE_FAULTS));
    assert!(rt; have_texts(alloc, &CLTU_FAULTS));
    assert!(rt; have_texts(alloc, &TM_FAULTS));
    assert!(rt; have_texts(alloc, &TM_READ_FAULTS));
    assert!(rt; have_texts(alloc, &[(NoMemory, "no memory")]));
}
