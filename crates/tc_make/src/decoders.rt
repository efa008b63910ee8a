//! The decoders of streams of CLTUs.

ghost use Rattle.std.specs.Prelude.{◌≡◌, ◌∷◌, [], OnOk, if◌then◌else◌};
ghost use Rattle.std.specs.Io.KnownBytes.{Appends};
ghost use Rattle.tc_edges.specs.Cltu.Cltu.{most_octets};
ghost use Rattle.tc_edges.specs.Cltu.Reception.{state_after};
ghost use Rattle.tc_lines.specs.Answering.{Writes};
ghost use Rattle.tc_make.specs.Decoders.{IsFed, IsSearching, fed_text, candidates_text, blocks_text, search_text};

use crate::fault::Reason;
use crate::printed::{write_bad, write_named};
use std::alloc::{AllocError, Global};
use std::io;
use std::io::Write;
use std::marker::Model;
use tc_edges::cltu::{Blocks, Decoder, Mode};

// The largest number of streams at a time, since the id of a stream is one octet.
const STREAMS: usize = 256;

/// A table of the decoders of streams, in which a stream's id, 0 to 255, is the place of its decoder.
#[derive(Drop)]
pub struct Decoders {
    slots: Vec<Option<Decoder>>,
}

impl Model for Decoders {
    ghost use Rattle.std.specs.Prelude.{◌≡◌, List, Option, length};
    ghost use Rattle.tc_edges.specs.Cltu.Reception.{Receiver};

    ghost Value = { List (Option Receiver) };

    ghost view = { λ d. d.slots.items };

    ghost invariant = { λ d. length d.slots.items ≡ 256 };
}

impl Decoders {
    ghost use Rattle.std.specs.Prelude.{◌≡◌, IfOk, OnOk, OnErr};
    ghost use Rattle.tc_lines.specs.Answering.{Writes};
    ghost use Rattle.tc_make.specs.Decoders.{no_decoders, with_new_decoder, IsPieceSaid, IsSearchSaid};

    /// Creates the table, in which no stream has a decoder yet. A slot for each stream is allocated.
    #[tactic(auto, unfolding(crate::specs::Decoders::no_decoders))]
    pub fn new(alloc: Global) -> Result<Decoders, AllocError>
        ensures { IfOk result (λ decoders. decoders ≡ no_decoders) }
    {
        let mut slots = Vec::with_capacity(alloc, STREAMS)?;
        for _ in 0..STREAMS {
            slots.push(None).unwrap();
        }
        Ok(Decoders { slots })
    }

    /// Gives a stream a new decoder, which looks for a start sequence. It takes the place of any decoder that the
    /// stream had. The new decoder is allocated. If memory runs out, nothing changes.
    pub fn begin(&mut self, alloc: Global, id: u8, mode: Mode) -> Result<(), AllocError>
        ensures begun { OnOk result (self.new ≡ with_new_decoder self.old id mode) }
        ensures unchanged { OnErr result (self.new ≡ self.old) }
    {
        let decoder = Decoder::new(alloc, mode)?;
        self.slots[usize::from(id)] = Some(decoder);
        Ok(())
    }

    /// Gives the decoder of a stream its next octets. Writes the candidate frames that end in them, the numbers of code
    /// blocks that were corrected and rejected, and the number of CLTUs that carried too many octets. If the stream has
    /// no decoder, writes only that. The call requests no memory. If the writer fails, the decoder may have taken
    /// only some of the octets, from the first one on.
    pub fn write_piece<W: Write>(&mut self, id: u8, octets: &[u8], writer: &mut W) -> io::Result<()>
        ensures { OnOk result (Writes (W.contents writer.old) (W.contents writer.new) (IsPieceSaid self.old id octets.now self.new)) }
    {
        let slot = &mut self.slots[usize::from(id)];
        feed(slot, octets, writer)
    }

    /// Makes the decoder of a stream look for a start sequence again, as after a loss of bit lock. Writes whether this
    /// cut a CLTU short, or that the stream has no decoder.
    pub fn write_search<W: Write>(&mut self, id: u8, writer: &mut W) -> io::Result<()>
        ensures { OnOk result (Writes (W.contents writer.old) (W.contents writer.new) (IsSearchSaid self.old id self.new)) }
    {
        let slot = &mut self.slots[usize::from(id)];
        search(slot, writer)
    }
}

fn search<W: Write>(slot: &mut Option<Decoder>, writer: &mut W) -> io::Result<()>
    ensures { OnOk result (Writes (W.contents writer.old) (W.contents writer.new) (IsSearching slot.old slot.new)) }
{
    let Some(decoder) = slot else {
        return write_bad(Reason::NoDecoder, writer);
    };
    let cut = decoder.search_anew();
    write_cut(cut, writer)
}

fn write_cut<W: Write>(cut: bool, writer: &mut W) -> io::Result<()>
    ensures { OnOk result (Appends (W.contents writer.old) (W.contents writer.new) (search_text cut)) }
{
    let cut = u8::from(cut);
    writeln!(writer, "search cut {cut}")
}

fn feed<W: Write>(slot: &mut Option<Decoder>, octets: &[u8], writer: &mut W) -> io::Result<()>
    ensures { OnOk result (Writes (W.contents writer.old) (W.contents writer.new) (IsFed slot.old octets.now slot.new)) }
{
    let Some(decoder) = slot else {
        return write_bad(Reason::NoDecoder, writer);
    };
    write_fed(decoder, octets, writer)
}

fn write_fed<W: Write>(decoder: &mut Decoder, octets: &[u8], writer: &mut W) -> io::Result<()>
    ensures mode { OnOk result (decoder.new.mode ≡ decoder.old.mode) }
    ensures state { OnOk result (decoder.new.state ≡ state_after decoder.old.mode most_octets decoder.old.state octets.now) }
    ensures text { OnOk result (Appends (W.contents writer.old) (W.contents writer.new) (fed_text decoder.old octets.now)) }
{
    let mut counts = Blocks {
        corrected: 0,
        rejected: 0,
        overlong: 0,
    };
    let mut rest = octets;
    while let Some((fed, others)) = decoder.feed_front(rest) {
        counts.count(fed.fate);
        write_ended(decoder, fed.ended, writer)?;
        rest = others;
    }
    write_blocks(counts, writer)
}

fn write_blocks<W: Write>(blocks: Blocks, writer: &mut W) -> io::Result<()>
    ensures { OnOk result (Appends (W.contents writer.old) (W.contents writer.new) (blocks_text blocks.corrected blocks.rejected blocks.overlong)) }
{
    let Blocks {
        corrected,
        rejected,
        overlong,
    } = blocks;
    writeln!(
        writer,
        "blocks corrected {corrected} rejected {rejected} overlong {overlong}"
    )
}

// Writes the candidate frame that the last octets completed, if `ended` is set.
fn write_ended<W: Write>(decoder: &Decoder, ended: bool, writer: &mut W) -> io::Result<()>
    ensures { OnOk result (Appends (W.contents writer.old) (W.contents writer.new)
        (candidates_text (if ended then decoder.now.carried ∷ [] else []))) }
{
    if ended {
        return write_named("frame", decoder.carried(), writer);
    }
    Ok(())
}
