//! The statuses of faults.

ghost use Rattle.std.specs.Prelude.{◌≡◌, ◌<◌};
ghost use Rattle.tc_c_base.specs.Status.{code_of};
ghost use Rattle.tc_c.specs.Status.{frame_status, locate_status, write_status, field_status, settings_status, limits_status};

use tc_c_base::Status;
use tc_channel::SettingsFault;
use tc_edges::fecf::FieldFault;
use tc_fixed::LimitsFault;
use tc_link::{FrameFault, LocateFault, WriteFault};

/// Returns the status for octets that begin with no frame.
pub(crate) fn frame_fault(fault: FrameFault) -> Status
    ensures status { result ≡ frame_status fault }
    ensures refusal { 0 < code_of result }
{
    match fault {
        FrameFault::Short => Status::Short,
        FrameFault::Version => Status::Version,
        FrameFault::Spare => Status::Spare,
        FrameFault::LengthSmall => Status::LengthSmall,
        FrameFault::Truncated => Status::Truncated,
    }
}

/// Returns the status for octets that are for none of the channels.
pub(crate) fn locate_fault(fault: LocateFault) -> Status
    ensures status { result ≡ locate_status fault }
    ensures refusal { 0 < code_of result }
{
    match fault {
        LocateFault::Frame(fault) => frame_fault(fault),
        LocateFault::OtherSpacecraft => Status::OtherSpacecraft,
        LocateFault::UnknownChannel => Status::UnknownChannel,
    }
}

/// Returns the status for a header and a data field from which no frame is written.
pub(crate) fn write_fault(fault: WriteFault) -> Status
    ensures { result ≡ write_status fault }
{
    match fault {
        WriteFault::BadField => Status::BadField,
        WriteFault::EmptyData => Status::EmptyData,
        WriteFault::TooLong => Status::TooLong,
        WriteFault::NoMemory => Status::NoMemory,
    }
}

/// Returns the status for octets to which no frame error control field is added, or from which none is taken.
pub(crate) fn field_fault(fault: FieldFault) -> Status
    ensures { result ≡ field_status fault }
{
    match fault {
        FieldFault::NoFrame(fault) => frame_fault(fault),
        FieldFault::Fill => Status::Fill,
        FieldFault::TooLong => Status::LongFrame,
        FieldFault::TooShort => Status::NoFecf,
        FieldFault::WrongSum => Status::WrongFecf,
        FieldFault::NoMemory => Status::NoMemory,
    }
}

/// Returns the status for settings from which no channel is created.
pub(crate) fn settings_fault(fault: SettingsFault) -> Status
    ensures status { result ≡ settings_status fault }
    ensures refusal { 0 < code_of result }
{
    match fault {
        SettingsFault::BadVcid => Status::BadVcid,
        SettingsFault::BadWindow => Status::BadWidth,
        SettingsFault::BadBuffer => Status::BadBuffer,
        SettingsFault::BadApid => Status::BadApid,
        SettingsFault::DoubleApid => Status::DoubleApid,
        SettingsFault::BadCapacity => Status::BadCapacity,
        SettingsFault::BadMap => Status::BadMap,
        SettingsFault::DoubleMap => Status::DoubleMap,
        SettingsFault::BadUnits => Status::BadUnits,
        SettingsFault::PlainMap => Status::PlainMap,
        SettingsFault::NoMemory => Status::NoMemory,
    }
}

/// Returns the status for settings and limits from which no channel is created.
pub(crate) fn limits_fault(fault: LimitsFault) -> Status
    ensures status { result ≡ limits_status fault }
    ensures refusal { 0 < code_of result }
{
    match fault {
        LimitsFault::Settings(fault) => settings_fault(fault),
        LimitsFault::BadOthers => Status::BadOthers,
        LimitsFault::BadMap => Status::BadLimitMap,
        LimitsFault::DoubleMap => Status::DoubleLimit,
        LimitsFault::BadLimit => Status::BadLimit,
        LimitsFault::PlainMap => Status::PlainLimit,
        LimitsFault::UnlistedMap => Status::UnlistedMap,
    }
}
