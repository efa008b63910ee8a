//! Instructions, which are the meanings of the lines of a script.

ghost use Rattle.std.specs.Prelude.{◌≡◌};
ghost use Rattle.tc_rack.specs.Instruction.{instruction_of};

use std::alloc::Global;
use tc_queues::{Items, MapSetting, Octets, QueueSetting, Settings};
use tc_text::Line;

/// An addition to a channel that is set up.
#[derive(Clone, Copy, Debug, PartialEq, Eq)]
pub enum Addition {
    /// A queue for packets.
    Queue(QueueSetting),
    /// A chosen MAP, with a queue for its units.
    Map(MapSetting),
}

/// The instruction of a line, as [`Instruction::of`] returns it.
#[derive(Drop)]
pub enum Instruction {
    /// A line without an instruction.
    Nothing,
    /// The set-up of a channel.
    Channel(Settings),
    /// The addition of a queue or a chosen MAP to a channel.
    Add(u8, Addition),
    /// Octets that arrive at the receiver. If they are a frame, it is for the channel that the frame names.
    Frame(Octets),
    /// A release of the oldest data field from the buffer of a channel.
    Release(u8),
    /// A take of a channel's oldest packet with an APID.
    Take(u8, u16),
    /// A take of a channel's oldest unit of a MAP.
    Unit(u8, u8),
    /// A report of a channel's CLCW.
    Clcw(u8),
}

impl Instruction {
    /// Returns the instruction of a line. The channel of a channel line has no queue and no chosen MAP yet.
    pub fn of(alloc: Global, line: Line) -> Instruction
        ensures { result ≡ instruction_of line }
    {
        match line {
            Line::Blank => Instruction::Nothing,
            Line::Channel {
                vcid,
                width,
                buffer,
                first,
                segmented,
            } => Instruction::Channel(Settings {
                vcid,
                width,
                buffer,
                first,
                segmented,
                queues: Items::from(Vec::new(alloc)),
                maps: Items::from(Vec::new(alloc)),
            }),
            Line::Queue {
                vcid,
                apid,
                capacity,
            } => Instruction::Add(vcid, Addition::Queue(QueueSetting { apid, capacity })),
            Line::Map {
                vcid,
                map,
                capacity,
            } => Instruction::Add(vcid, Addition::Map(MapSetting { map, capacity })),
            Line::Frame(octets) => Instruction::Frame(octets),
            Line::Release(vcid) => Instruction::Release(vcid),
            Line::Take(vcid, apid) => Instruction::Take(vcid, apid),
            Line::Unit(vcid, map) => Instruction::Unit(vcid, map),
            Line::Clcw(vcid) => Instruction::Clcw(vcid),
        }
    }
}
