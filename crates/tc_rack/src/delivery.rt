//! Handing on all items that wait in the queues of a channel, without any allocation.

ghost use Rattle.std.specs.Prelude.{◌≡◌, ◌∷◌, [], OnOk};
ghost use Rattle.std.specs.Io.KnownBytes.{Appends};
ghost use Rattle.tc_rack.specs.Delivery.{AreAnswersWritten, AreTakenFrom, AreEmptied, IsHandedOn, packet_queues, unit_queues, reported_line, waiting_in};

use crate::answer::Answer;
use crate::linked::LinkedChannel;
use crate::queue::QueueId;
use std::io;
use std::io::Write;

/// Takes each packet of each queue, and then each unit of each chosen MAP, in the order of the settings, until no item
/// waits. Writes the answer to each take, and then the CLCW. Each answer is written before the next item is taken.
pub(crate) fn hand_on<W: Write>(channel: &mut LinkedChannel, writer: &mut W) -> io::Result<()>
    ensures reported { OnOk result (AreAnswersWritten (W.contents writer.old) (W.contents writer.new)
        (λ answers. IsHandedOn channel.old answers channel.new)) }
    ensures settings { channel.new.history.settings ≡ channel.old.history.settings }
{
    empty_packet_queues(channel, writer)?;
    empty_unit_queues(channel, writer)?;
    let word = channel.clcw();
    write_answer(&word, writer)
}

fn empty_packet_queues<W: Write>(channel: &mut LinkedChannel, writer: &mut W) -> io::Result<()>
    ensures reported { OnOk result (AreAnswersWritten (W.contents writer.old) (W.contents writer.new)
        (λ answers. AreEmptied (packet_queues channel.old.history.settings) channel.old answers channel.new)) }
    ensures settings { channel.new.history.settings ≡ channel.old.history.settings }
{
    let count = channel.settings().queues.len();
    for place in 0..count {
        let apid = channel.settings().queues.as_slice()[place].apid;
        empty_queue(channel, QueueId::Packets(apid), writer)?;
    }
    Ok(())
}

fn empty_unit_queues<W: Write>(channel: &mut LinkedChannel, writer: &mut W) -> io::Result<()>
    ensures reported { OnOk result (AreAnswersWritten (W.contents writer.old) (W.contents writer.new)
        (λ answers. AreEmptied (unit_queues channel.old.history.settings) channel.old answers channel.new)) }
    ensures settings { channel.new.history.settings ≡ channel.old.history.settings }
{
    let count = channel.settings().maps.len();
    for place in 0..count {
        let map = channel.settings().maps.as_slice()[place].map;
        empty_queue(channel, QueueId::Units(map), writer)?;
    }
    Ok(())
}

// Takes the items that wait in a queue, one after the other, and writes the answers to the takes.
fn empty_queue<W: Write>(
    channel: &mut LinkedChannel,
    queue: QueueId,
    writer: &mut W,
) -> io::Result<()>
    ensures reported { OnOk result (AreAnswersWritten (W.contents writer.old) (W.contents writer.new)
        (λ answers. AreTakenFrom queue channel.old answers channel.new × (waiting_in queue channel.new ≡ []))) }
    ensures settings { channel.new.history.settings ≡ channel.old.history.settings }
{
    let count = channel.waiting(queue);
    for _ in 0..count {
        let answer = channel.take_from(queue);
        write_answer(&answer, writer)?;
    }
    Ok(())
}

fn write_answer<W: Write>(answer: &Answer, writer: &mut W) -> io::Result<()>
    ensures { OnOk result (Appends (W.contents writer.old) (W.contents writer.new) (reported_line answer.now)) }
{
    writeln!(writer, "{answer}")
}
