//! The final report.

ghost use Rattle.std.specs.Prelude.{All, OnOk};
ghost use Rattle.std.specs.Io.KnownBytes.{Appends};
ghost use Rattle.std.specs.List.{flat_map};
ghost use Rattle.tc_channel.specs.Journal.{IsNumberReported};
ghost use Rattle.tc_rack.specs.Report.{AreNonDecreasing, IsLawfulHistory, report_text, channel_text, final_line, queue_line, map_line};

use crate::linked::NO_FLAG;
use std::io;
use std::io::Write;
use tc_channel::{CountingChannel, MapSetting, QueueSetting};
use tc_text::WordDigits;

/// Writes the report of each channel. The ids of the channels don't fall from one channel to the next, and each channel
/// has fewer than 2^64 - 1 events.
pub fn write_report<W: Write>(channels: &[CountingChannel], writer: &mut W) -> io::Result<()>
    requires ordered { AreNonDecreasing channels.now }
    requires reported { All IsNumberReported channels.now }
    ensures written { OnOk result (Appends (W.contents writer.old) (W.contents writer.new) (report_text channels.now)) }
    ensures lawful { OnOk result (All IsLawfulHistory channels.now) }
{
    for channel in channels {
        write_channel(channel, writer)?;
    }
    Ok(())
}

// Writes the state of a channel, then the number of packets in each of its queues and the number of units on each of
// its chosen MAPs.
fn write_channel<W: Write>(channel: &CountingChannel, writer: &mut W) -> io::Result<()>
    requires { IsNumberReported channel.now }
    ensures written { OnOk result (Appends (W.contents writer.old) (W.contents writer.new) (channel_text channel.now)) }
    ensures lawful { IsLawfulHistory channel.now }
{
    let settings = channel.settings();
    write_final(channel, writer)?;
    write_queues(channel, settings.queues.as_slice(), writer)?;
    write_maps(channel, settings.maps.as_slice(), writer)
}

fn write_final<W: Write>(channel: &CountingChannel, writer: &mut W) -> io::Result<()>
    requires { IsNumberReported channel.now }
    ensures { OnOk result (Appends (W.contents writer.old) (W.contents writer.new) (final_line channel.now)) }
{
    let vcid = channel.settings().vcid;
    let word = WordDigits(channel.clcw(NO_FLAG));
    let events = channel.events();
    let buffered = channel.buffered();
    writeln!(
        writer,
        "final {vcid} {word} events {events} buffered {buffered}"
    )
}

fn write_queues<W: Write>(
    channel: &CountingChannel,
    queues: &[QueueSetting],
    writer: &mut W,
) -> io::Result<()>
    ensures { OnOk result (Appends (W.contents writer.old) (W.contents writer.new) (flat_map (queue_line channel.now) queues.now)) }
{
    for queue in queues {
        write_queue(channel, queue, writer)?;
    }
    Ok(())
}

fn write_queue<W: Write>(
    channel: &CountingChannel,
    queue: &QueueSetting,
    writer: &mut W,
) -> io::Result<()>
    ensures { OnOk result (Appends (W.contents writer.old) (W.contents writer.new) (queue_line channel.now queue.now)) }
{
    let vcid = channel.settings().vcid;
    let apid = queue.apid;
    match channel.queued(apid) {
        Some(queued) => writeln!(writer, "queue {vcid} {apid} {queued}"),
        None => Ok(()),
    }
}

fn write_maps<W: Write>(
    channel: &CountingChannel,
    maps: &[MapSetting],
    writer: &mut W,
) -> io::Result<()>
    ensures { OnOk result (Appends (W.contents writer.old) (W.contents writer.new) (flat_map (map_line channel.now) maps.now)) }
{
    for chosen in maps {
        write_map(channel, chosen, writer)?;
    }
    Ok(())
}

fn write_map<W: Write>(
    channel: &CountingChannel,
    chosen: &MapSetting,
    writer: &mut W,
) -> io::Result<()>
    ensures { OnOk result (Appends (W.contents writer.old) (W.contents writer.new) (map_line channel.now chosen.now)) }
{
    let vcid = channel.settings().vcid;
    let map = chosen.map;
    match channel.units(map) {
        Some(units) => writeln!(writer, "map {vcid} {map} {units}"),
        None => Ok(()),
    }
}
