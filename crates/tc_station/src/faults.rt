//! The reasons why calls of a station are refused. The faults of a call are listed in the order in which they are
//! checked.

use crate::operator::Operator;
use crate::station::{CountingStation, Station};
use std::fmt;
use std::fmt::{Debug, Formatter};
use tc_channel::{Channel, CountingChannel, ReleaseFault, SettingsFault, TakeFault, TakeUnitFault};
use tc_link::LocateFault;
use thiserror::Error;

/// The reason why a station can't be created from settings.
#[derive(Clone, Copy, Debug, PartialEq, Eq, Error)]
pub enum StationFault {
    #[error("the spacecraft id is over 1023")]
    BadScid,
    #[error("there is no virtual channel")]
    NoChannel,
    /// The first virtual channel id that also occurs earlier in the list.
    #[error("virtual channel {0} is there twice")]
    DoubleVcid(u8),
    /// The virtual channel id of the first settings from which no channel can be created, and the reason.
    #[error("virtual channel {0}: {1}")]
    Settings(u8, SettingsFault),
    #[error("no memory")]
    NoMemory,
}

/// The reason why octets were not brought to a channel.
#[derive(Clone, Copy, Debug, PartialEq, Eq, Error)]
pub enum BringFault {
    #[error(transparent)]
    Locate(LocateFault),
    #[error("no memory")]
    NoMemory,
}

/// The reason why no operators were issued.
#[derive(Clone, Copy, Debug, PartialEq, Eq, Error)]
pub enum OperatorsFault {
    #[error("more than 65535 operators")]
    TooMany,
    #[error("no memory")]
    NoMemory,
}

/// The reason why no watcher of a channel was created.
#[derive(Clone, Copy, Debug, PartialEq, Eq, Error)]
pub enum WatcherFault {
    #[error("the station has no such virtual channel")]
    UnknownChannel,
    #[error("no memory")]
    NoMemory,
}

/// The reason why a channel of the station released no data field.
#[derive(Clone, Copy, Debug, PartialEq, Eq, Error)]
pub enum ReleaseRefused {
    #[error("the station has no such virtual channel")]
    UnknownChannel,
    #[error("the buffer is empty")]
    Empty,
    #[error("no memory")]
    NoMemory,
}

/// The reason why no packet was taken from a channel of the station.
#[derive(Clone, Copy, Debug, PartialEq, Eq, Error)]
pub enum TakeRefused {
    #[error("the station has no such virtual channel")]
    UnknownChannel,
    #[error("no queue with that application process identifier")]
    NoQueue,
    #[error("the queue is empty")]
    Empty,
    #[error("no memory")]
    NoMemory,
}

/// The reason why no unit was taken from a channel of the station.
#[derive(Clone, Copy, Debug, PartialEq, Eq, Error)]
pub enum TakeUnitRefused {
    #[error("the station has no such virtual channel")]
    UnknownChannel,
    #[error("no queue for that multiplexer access point")]
    NoMap,
    #[error("the queue is empty")]
    Empty,
    #[error("no memory")]
    NoMemory,
}

/// The reason why not all jobs of the lists were carried out.
#[derive(Clone, Copy, Debug, PartialEq, Eq, Error)]
pub enum WorkFault {
    /// Memory ran out for at least one job. `line` is the smallest line number of such a job.
    #[error("line {line}: no memory")]
    NoMemory { line: u32 },
}

/// The reason why a station wasn't closed in balance, with the station or its channels, and the operators.
#[derive(Drop, Error)]
pub enum CloseFault {
    /// There are fewer operators than the station issued.
    #[error("an operator is missing")]
    Missing(Station, Vec<Operator>),
    #[error("no memory")]
    NoMemory(Station, Vec<Operator>),
    /// The channels were taken out of their locks. At least one of them doesn't have the virtual channel id of its
    /// place, or doesn't have as many events as the operators counted for it.
    #[error("the operators' counts and the journals differ")]
    Unbalanced(Vec<Channel>, Vec<Operator>),
}

impl Debug for CloseFault {
    fn fmt<W: fmt::Write>(&self, f: &mut Formatter<W>) -> fmt::Result {
        f.write_str(match self {
            CloseFault::Missing(_, _) => "Missing",
            CloseFault::NoMemory(_, _) => "NoMemory",
            CloseFault::Unbalanced(_, _) => "Unbalanced",
        })
    }
}

/// The reason why a counting station wasn't closed in balance, with the station or its channels, and the operators.
#[derive(Drop, Error)]
pub enum CountingCloseFault {
    /// There are fewer operators than the station issued.
    #[error("an operator is missing")]
    Missing(CountingStation, Vec<Operator>),
    #[error("no memory")]
    NoMemory(CountingStation, Vec<Operator>),
    /// The channels were taken out of their locks. At least one of them doesn't have the virtual channel id of its
    /// place, doesn't have as many events as the operators counted for it, or has at least 2^64 - 1 events.
    #[error("the operators' counts and the numbers of events differ")]
    Unbalanced(Vec<CountingChannel>, Vec<Operator>),
}

impl Debug for CountingCloseFault {
    fn fmt<W: fmt::Write>(&self, f: &mut Formatter<W>) -> fmt::Result {
        f.write_str(match self {
            CountingCloseFault::Missing(_, _) => "Missing",
            CountingCloseFault::NoMemory(_, _) => "NoMemory",
            CountingCloseFault::Unbalanced(_, _) => "Unbalanced",
        })
    }
}

impl From<ReleaseFault> for ReleaseRefused {
    ghost use Rattle.tc_station.specs.Faults.{release_refused};
    ghost use Rattle.std.specs.Prelude.{◌≡◌};

    ghost from_gives = { λ fault refused. refused ≡ release_refused fault };

    fn from(fault: ReleaseFault) -> ReleaseRefused {
        match fault {
            ReleaseFault::Empty => ReleaseRefused::Empty,
            ReleaseFault::NoMemory => ReleaseRefused::NoMemory,
        }
    }
}

impl From<TakeFault> for TakeRefused {
    ghost use Rattle.tc_station.specs.Faults.{take_refused};
    ghost use Rattle.std.specs.Prelude.{◌≡◌};

    ghost from_gives = { λ fault refused. refused ≡ take_refused fault };

    fn from(fault: TakeFault) -> TakeRefused {
        match fault {
            TakeFault::NoQueue => TakeRefused::NoQueue,
            TakeFault::Empty => TakeRefused::Empty,
            TakeFault::NoMemory => TakeRefused::NoMemory,
        }
    }
}

impl From<TakeUnitFault> for TakeUnitRefused {
    ghost use Rattle.tc_station.specs.Faults.{take_unit_refused};
    ghost use Rattle.std.specs.Prelude.{◌≡◌};

    ghost from_gives = { λ fault refused. refused ≡ take_unit_refused fault };

    fn from(fault: TakeUnitFault) -> TakeUnitRefused {
        match fault {
            TakeUnitFault::NoMap => TakeUnitRefused::NoMap,
            TakeUnitFault::Empty => TakeUnitRefused::Empty,
            TakeUnitFault::NoMemory => TakeUnitRefused::NoMemory,
        }
    }
}
