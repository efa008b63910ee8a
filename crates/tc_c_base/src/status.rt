//! The outcome of a call.

ghost use Rattle.std.specs.Prelude.{◌≡◌};
ghost use Rattle.tc_c_base.specs.Status.{code_of, status_numbered, status_of, text_of};

/// The outcome of a call: either `Done`, or the first reason why the call fails.
///
/// The statuses for octets that begin with no frame, and for a frame that isn't written, have the names of the faults
/// of tc_link.
#[derive(Clone, Copy, Debug, PartialEq, Eq)]
pub enum Status {
    Done,
    Short,
    Version,
    Spare,
    LengthSmall,
    Truncated,
    Fill,
    NoFecf,
    WrongFecf,
    BadField,
    EmptyData,
    TooLong,
    NoMemory,
    LongPacket,
    LongUnit,
    LongFrame,
    BadSize,
    NoSegment,
    BadCommand,
    BadWidth,
    BadState,
    BadFarmB,
    BadFlag,
    FlagsDisagree,
    BadArrival,
    NoEntry,
    BadVcid,
    NoClcw,
    NoPacket,
    NoRoom,
    /// The fault of a null pointer. No call of this library returns this status, but the guards of the header do.
    Null,
    NoStatus,
    BadBuffer,
    BadApid,
    DoubleApid,
    BadCapacity,
    BadMap,
    DoubleMap,
    BadUnits,
    PlainMap,
    NoChannel,
    InUse,
    NoQueue,
    NoMap,
    Empty,
    OtherSpacecraft,
    UnknownChannel,
    BadOthers,
    BadLimitMap,
    DoubleLimit,
    BadLimit,
    PlainLimit,
    UnlistedMap,
    LongCltu,
    BadLength,
    NoControl,
    BadDecoder,
    NoSession,
    SessionInUse,
    BadScid,
    BadLine,
    Waiting,
    Lost,
    Over,
}

/// Lists all statuses, each with its number and its text in ASCII, so that they are written only once. The macro
/// `$read` gets the value and the list, and reads one column of the list.
macro_rules! each_status {
    ($read:ident of $value:expr) => {
        $read! { $value;
            Done 0 b"done",
            Short 1 b"fewer than 5 octets",
            Version 2 b"the version isn't 0",
            Spare 3 b"the spare bits aren't 0",
            LengthSmall 4 b"the frame length names fewer than 6 octets",
            Truncated 5 b"the frame length names more octets than there are",
            Fill 6 b"octets follow the frame",
            NoFecf 7 b"the frame has fewer than 8 octets",
            WrongFecf 8 b"the frame error control field is wrong",
            BadField 10 b"a field of the header is over its bound",
            EmptyData 11 b"the data field is empty",
            TooLong 12 b"the data field has more than 1,019 octets",
            NoMemory 13 b"no memory",
            LongPacket 14 b"the packet data field has more than 65,536 octets",
            LongUnit 15 b"the unit has more than 65,542 octets",
            LongFrame 16 b"the frame has more than 1,022 octets",
            BadSize 17 b"a segment isn't for 1 to 1,018 octets",
            NoSegment 18 b"the unit has no segment at that place",
            BadCommand 19 b"the command is neither Unlock nor Set V(R)",
            BadWidth 20 b"the width of the window isn't even and 2 to 254",
            BadState 21 b"the state isn't 1 to 3",
            BadFarmB 22 b"the FARM-B counter is over 3",
            BadFlag 23 b"a flag is neither 0 nor 1",
            FlagsDisagree 24 b"the flags don't agree with the state",
            BadArrival 25 b"the arrival isn't 1 to 6",
            NoEntry 26 b"in S2 no expected AD frame finds room",
            BadVcid 30 b"the virtual channel id is over 63",
            NoClcw 31 b"the word is no CLCW of COP-1",
            NoPacket 40 b"no whole packet is there",
            NoRoom 50 b"the buffer is too short",
            Null 51 b"a pointer is null",
            NoStatus 52 b"no such status",
            BadBuffer 60 b"the buffer isn't for 1 to 64 data fields",
            BadApid 61 b"the APID of a queue is over 2,046",
            DoubleApid 62 b"two queues have one APID",
            BadCapacity 63 b"a queue isn't for 1 to 256 packets",
            BadMap 64 b"a MAP is over 63",
            DoubleMap 65 b"a MAP is chosen twice",
            BadUnits 66 b"the queue of a MAP isn't for 1 to 256 units",
            PlainMap 67 b"a channel without segment headers has no MAPs",
            NoChannel 70 b"no channel is held",
            InUse 71 b"a channel is held already",
            NoQueue 72 b"no queue has that APID",
            NoMap 73 b"that MAP isn't chosen",
            Empty 74 b"nothing waits there",
            OtherSpacecraft 75 b"the frame is for another spacecraft",
            UnknownChannel 76 b"no channel has that virtual channel id",
            BadOthers 80 b"the limit of the other MAPs is out of its range",
            BadLimitMap 81 b"the MAP of a limit is over 63",
            DoubleLimit 82 b"a MAP has two limits",
            BadLimit 83 b"the limit of a MAP isn't 1 to 65,542 octets",
            PlainLimit 84 b"a channel without segment headers has no limits by MAP",
            UnlistedMap 85 b"a chosen MAP has no limit",
            LongCltu 90 b"a CLTU carries at most 1,029 octets",
            BadLength 91 b"the telemetry frame isn't of 11 or 13 to 2,048 octets",
            NoControl 92 b"there is no operational control field",
            BadDecoder 93 b"no decoder of CLTUs has that record",
            NoSession 100 b"no session is held",
            SessionInUse 101 b"a session is held already",
            BadScid 102 b"the spacecraft id is over 1,023",
            BadLine 103 b"the lines end here, and the text says why",
            Waiting 104 b"the text of an earlier call waits",
            Lost 105 b"no memory for an answer, which is lost",
            Over 106 b"the lines have ended",
        }
    };
}

macro_rules! number_of_status {
    ($value:expr; $($status:ident $number:literal $text:literal,)*) => {
        match $value {
            $(Status::$status => $number,)*
        }
    };
}

macro_rules! list_of_statuses {
    ($value:expr; $($status:ident $number:literal $text:literal,)*) => {
        [$(Status::$status,)*]
    };
}

macro_rules! text_of_status {
    ($value:expr; $($status:ident $number:literal $text:literal,)*) => {
        match $value {
            $(Status::$status => $text,)*
        }
    };
}

/// Returns the number of a status.
pub fn code(status: Status) -> u32
    ensures { result ≡ code_of status }
{
    each_status!(number_of_status of status)
}

/// Returns the status with this number, or `None` if no status has it.
pub fn from_number(number: u32) -> Option<Status>
    ensures { result ≡ status_of number }
{
    numbered(&each_status!(list_of_statuses of ()), number)
}

// Returns the first status of a list that has this number, or `None` if no status of the list has it.
fn numbered(statuses: &[Status], number: u32) -> Option<Status>
    ensures { result ≡ status_numbered number statuses.now }
{
    let mut rest = statuses;
    while let Some((status, others)) = rest.split_first() {
        if code(*status) == number {
            return Some(*status);
        }
        rest = others;
    }
    None
}

/// Returns the text of a status, in ASCII.
pub fn text(status: Status) -> &'static [u8]
    ensures { result.now ≡ text_of status }
{
    each_status!(text_of_status of status)
}
