//! The receiving end of CLTUs. The caller keeps it as a record of numbers and a buffer.

ghost use Rattle.std.specs.Prelude.{◌≡◌, ◌<◌, ◌≤◌, ◌+◌, ◌-◌, ◌∷◌, ◌++◌, [], ℕ, Option, Ok, Err, Some, None, length, take, IfSome, IfNone, IfOk, IfErr, MatchResult, if◌then◌else◌};
ghost use Rattle.tc_edges.specs.Cltu.Cltu.{most_octets};
ghost use Rattle.tc_edges.specs.Cltu.Reception.{Decoding, is_start, reception_step, state_after, frames_of, fate_of, fate_after, after_block, counted_in, corrections_of, corrected_in, rejected_in, overlong_in};
ghost use Rattle.tc_edges.specs.declared.cltu.block.Fate.{Fate};
ghost use Rattle.tc_edges.specs.Cltu.CodeBlock.{decoded};
ghost use Rattle.tc_c_base.specs.Status.{code_of};
ghost use Rattle.tc_c.specs.Decoder.{decoder_room, decoder_given, reception_of, given_by, none_taken, searching};

use crate::farm::flag;
use tc_c_base::{Status, code};
use tc_edges::cltu::{Blocks, Fate, Judged, MOST_OCTETS, Mode, accept, begins, judge};

/// A decoder of CLTUs without the octets that it holds, which are in a buffer. Flags are 0 or 1.
#[repr(C)]
#[derive(Clone, Copy)]
pub struct DecoderRecord {
    /// 1 if one wrong bit of a code block is corrected. If it is 0, wrong bits are only detected.
    pub correct: u8,
    /// 1 if a start sequence has come, so that code blocks are being decoded, otherwise 0.
    pub decoding: u8,
    /// The last octet that came while a start sequence is looked for, or 0 if none has come.
    pub last: u8,
    /// The number of octets of the next code block that have come, 0 to 7.
    pub count: u8,
    /// The number of octets that the code blocks carried since the start sequence. These octets stand at the front of
    /// the buffer.
    pub carried: u16,
}

/// The outcome of a call that takes octets.
#[repr(C)]
#[derive(Clone, Copy)]
pub struct DecodedRecord {
    pub status: u32,
    /// The decoder after the octets that were taken, or the given one if the call fails.
    pub decoder: DecoderRecord,
    /// 1 if the last octet that was taken ended a candidate frame, otherwise 0. The candidate frame is the first
    /// `carried` octets of the buffer.
    pub ended: u8,
    /// The number of octets that were taken.
    pub taken: u64,
    /// The number of code blocks that ended in these octets and had one bit corrected.
    pub corrected: u64,
    /// The number of code blocks that ended in these octets and were rejected, except for tail sequences.
    pub rejected: u64,
    /// The number of CLTUs that came to carry more than 1,029 octets while these octets were taken. None of them ends a
    /// candidate frame.
    pub overlong: u64,
}

/// Takes the next octets of a stream (CCSDS 231.0-B), as the `Decoder` of tc_edges does. The call takes all octets, or
/// those up to and including the first one that ends a candidate frame. In the record of a new decoder each field
/// except `correct` is zero.
///
/// The buffer has 1,037 octets, for the most that a CLTU carries and one code block. Its octets belong to the decoder
/// until a candidate frame has ended.
///
/// The call fails with BadFlag for a flag that is neither 0 nor 1. It fails with BadDecoder if `count` is over 7 or
/// `carried` is over 1,029, and with NoRoom for a shorter buffer. If it fails, the record and the buffer stay as they
/// were.
#[unsafe(no_mangle)]
pub extern "C" fn tcrx_cltu_octets_at(
    decoder: DecoderRecord,
    octets: &[u8],
    frame: &mut [u8],
) -> DecodedRecord
    ensures status { IfOk (decoder_given decoder (length frame.old)) (λ mode. result.status ≡ code_of Status.Done) }
    ensures kept { IfOk (decoder_given decoder (length frame.old)) (λ mode. decoder_given result.decoder (length frame.new) ≡ Ok mode) }
    ensures state { IfOk (decoder_given decoder (length frame.old))
        (λ mode. reception_of result.decoder frame.new
        ≡ state_after mode most_octets (reception_of decoder frame.old) (take result.taken octets.now)) }
    ensures given { IfOk (decoder_given decoder (length frame.old))
        (λ mode. given_by result frame.new ≡ frames_of mode most_octets (reception_of decoder frame.old)
        (take result.taken octets.now)) }
    ensures before { IfOk (decoder_given decoder (length frame.old))
        (λ mode. result.ended ≡ 1 → frames_of mode most_octets (reception_of decoder frame.old)
        (take (result.taken - 1) octets.now) ≡ []) }
    ensures all { IfOk (decoder_given decoder (length frame.old)) (λ mode. result.ended ≡ 0 → result.taken ≡ length octets.now) }
    ensures flag { IfOk (decoder_given decoder (length frame.old)) (λ mode. result.ended < 2) }
    ensures corrected { IfOk (decoder_given decoder (length frame.old))
        (λ mode. result.corrected ≡ corrected_in mode most_octets (reception_of decoder frame.old)
        (take result.taken octets.now)) }
    ensures rejected { IfOk (decoder_given decoder (length frame.old))
        (λ mode. result.rejected ≡ rejected_in mode most_octets (reception_of decoder frame.old) (take result.taken octets.now)) }
    ensures overlong { IfOk (decoder_given decoder (length frame.old))
        (λ mode. result.overlong ≡ overlong_in mode most_octets (reception_of decoder frame.old) (take result.taken octets.now)) }
    ensures refused { IfErr (decoder_given decoder (length frame.old)) (λ fault. (result ≡ none_taken fault decoder) × (frame.new ≡ frame.old)) }
{
    match read_decoder(decoder, frame.len()) {
        Err(fault) => nothing_taken(fault, decoder),
        Ok(mode) => take_octets(mode, decoder, octets, frame),
    }
}

/// Makes a decoder look for a start sequence anew, as after a loss of bit lock (CCSDS 231.0-B). The code blocks since
/// the last start sequence then end no candidate frame. Returns the decoder after that, with zeros in all other fields.
///
/// The call fails with BadFlag for a flag that is neither 0 nor 1. It fails with BadDecoder if `count` is over 7 or
/// `carried` is over 1,029. If it fails, the returned decoder is the given one.
#[unsafe(no_mangle)]
pub extern "C" fn tcrx_cltu_search(decoder: DecoderRecord) -> DecodedRecord
    ensures searching { IfOk (decoder_given decoder decoder_room) (λ mode. result ≡ none_taken Status.Done (searching decoder)) }
    ensures refused { IfErr (decoder_given decoder decoder_room) (λ fault. result ≡ none_taken fault decoder) }
{
    match read_decoder(decoder, MOST_OCTETS + 8) {
        Err(fault) => nothing_taken(fault, decoder),
        Ok(_) => nothing_taken(Status::Done, searching(decoder)),
    }
}

fn nothing_taken(status: Status, decoder: DecoderRecord) -> DecodedRecord
    ensures { result ≡ none_taken status decoder }
{
    DecodedRecord {
        status: code(status),
        decoder,
        ended: 0,
        taken: 0,
        corrected: 0,
        rejected: 0,
        overlong: 0,
    }
}

// Returns the decoder when it begins to look for a start sequence.
fn searching(decoder: DecoderRecord) -> DecoderRecord
    ensures { result ≡ searching decoder }
{
    DecoderRecord {
        decoding: 0,
        last: 0,
        count: 0,
        carried: 0,
        ..decoder
    }
}

// Takes all octets, or those up to and including the first one that ends a candidate frame.
fn take_octets(mode: Mode, decoder: DecoderRecord, octets: &[u8], frame: &mut [u8]) -> DecodedRecord
    requires count { decoder.count < 8 }
    requires carried { decoder.carried ≤ most_octets }
    requires decoding { decoder.decoding < 2 }
    requires room { decoder_room ≤ length frame.old }
    ensures status { result.status ≡ code_of Status.Done }
    ensures mode { result.decoder.correct ≡ decoder.correct }
    ensures count { result.decoder.count < 8 }
    ensures carried { result.decoder.carried ≤ most_octets }
    ensures decoding { result.decoder.decoding < 2 }
    ensures length { length frame.new ≡ length frame.old }
    ensures state { reception_of result.decoder frame.new
        ≡ state_after mode most_octets (reception_of decoder frame.old) (take result.taken octets.now) }
    ensures given { given_by result frame.new ≡ frames_of mode most_octets (reception_of decoder frame.old) (take result.taken octets.now) }
    ensures before { result.ended ≡ 1 → frames_of mode most_octets (reception_of decoder frame.old) (take (result.taken - 1) octets.now) ≡ [] }
    ensures all { result.ended ≡ 0 → result.taken ≡ length octets.now }
    ensures flag { result.ended < 2 }
    ensures corrected { result.corrected ≡ corrected_in mode most_octets (reception_of decoder frame.old) (take result.taken octets.now) }
    ensures rejected { result.rejected ≡ rejected_in mode most_octets (reception_of decoder frame.old) (take result.taken octets.now) }
    ensures overlong { result.overlong ≡ overlong_in mode most_octets (reception_of decoder frame.old) (take result.taken octets.now) }
{
    let mut now = decoder;
    let mut taken = 0usize;
    let mut counts = Blocks {
        corrected: 0,
        rejected: 0,
        overlong: 0,
    };
    while taken < octets.len() {
        let (next, count) = take_front(mode, now, &octets[taken..], frame);
        now = next.decoder;
        taken += count;
        counts.count(next.fate);
        if next.ended {
            return DecodedRecord {
                status: code(Status::Done),
                decoder: now,
                ended: 1,
                taken: taken as u64,
                corrected: counts.corrected,
                rejected: counts.rejected,
                overlong: counts.overlong,
            };
        }
        if now.decoding == 1 && now.count == 0 {
            let blocks = take_blocks(mode, now.carried, &octets[taken..], frame);
            now.carried = blocks.carried;
            taken += blocks.taken;
            counts.corrected += blocks.corrected;
        }
    }
    DecodedRecord {
        status: code(Status::Done),
        decoder: now,
        ended: 0,
        taken: taken as u64,
        corrected: counts.corrected,
        rejected: counts.rejected,
        overlong: counts.overlong,
    }
}

// The outcome of taking one octet, or a whole code block of eight octets.
#[derive(Clone, Copy)]
struct Taken {
    // the decoder after the octets
    decoder: DecoderRecord,
    // the fate of the code block that the octets ended, if they ended one
    fate: Option<Fate>,
    // set if the octets ended a candidate frame
    ended: bool,
}

// Takes the first eight octets at once if they are a whole code block, otherwise only the first octet. Returns the
// outcome and the number of octets taken.
#[inline(always)]
fn take_front(mode: Mode, decoder: DecoderRecord, octets: &[u8], frame: &mut [u8]) -> (Taken, usize)
    requires some { 0 < length octets.now }
    requires count { decoder.count < 8 }
    requires carried { decoder.carried ≤ most_octets }
    requires decoding { decoder.decoding < 2 }
    requires room { decoder_room ≤ length frame.old }
    ensures mode { result.0.decoder.correct ≡ decoder.correct }
    ensures count { result.0.decoder.count < 8 }
    ensures carried { result.0.decoder.carried ≤ most_octets }
    ensures decoding { result.0.decoder.decoding < 2 }
    ensures length { length frame.new ≡ length frame.old }
    ensures some { 0 < result.1 }
    ensures within { result.1 ≤ length octets.now }
    ensures state { reception_of result.0.decoder frame.new
        ≡ state_after mode most_octets (reception_of decoder frame.old) (take result.1 octets.now) }
    ensures given { (if result.0.ended then take result.0.decoder.carried frame.new ∷ [] else [])
        ≡ frames_of mode most_octets (reception_of decoder frame.old) (take result.1 octets.now) }
    ensures before { frames_of mode most_octets (reception_of decoder frame.old) (take (result.1 - 1) octets.now) ≡ [] }
    ensures fates { (count : Option Fate → ℕ) → count None ≡ 0
        → count result.0.fate ≡ counted_in count mode most_octets (reception_of decoder frame.old) (take result.1 octets.now) }
{
    if decoder.decoding == 1 && decoder.count == 0 {
        if let Some(block) = octets.first_chunk::<8>() {
            return (end_block(mode, decoder, block, frame), 8);
        }
    }
    (take_octet(mode, decoder, octets[0], frame), 1)
}

// Takes an octet.
fn take_octet(mode: Mode, decoder: DecoderRecord, octet: u8, frame: &mut [u8]) -> Taken
    requires count { decoder.count < 8 }
    requires carried { decoder.carried ≤ most_octets }
    requires decoding { decoder.decoding < 2 }
    requires room { decoder_room ≤ length frame.old }
    ensures mode { result.decoder.correct ≡ decoder.correct }
    ensures count { result.decoder.count < 8 }
    ensures carried { result.decoder.carried ≤ most_octets }
    ensures decoding { result.decoder.decoding < 2 }
    ensures length { length frame.new ≡ length frame.old }
    ensures state { reception_of result.decoder frame.new ≡ (reception_step mode most_octets (reception_of decoder frame.old) octet).0 }
    ensures given { (if result.ended then take result.decoder.carried frame.new ∷ [] else [])
        ≡ (reception_step mode most_octets (reception_of decoder frame.old) octet).1 }
    ensures fate { result.fate ≡ fate_of mode most_octets (reception_of decoder frame.old) octet }
{
    if decoder.decoding == 0 {
        return Taken {
            decoder: search(mode, decoder, octet),
            fate: None,
            ended: false,
        };
    }
    frame[usize::from(decoder.carried) + usize::from(decoder.count)] = octet;
    if decoder.count == 7 {
        let mut block = [0; 8];
        let carried = usize::from(decoder.carried);
        block.copy_from_slice(&frame[carried..carried + 8]);
        return end_block(mode, decoder, &block, frame);
    }
    Taken {
        decoder: DecoderRecord {
            count: decoder.count + 1,
            ..decoder
        },
        fate: None,
        ended: false,
    }
}

// Returns the mode in which the decoder takes code blocks, or the first fault of the record and of the buffer, which
// has `room` octets.
fn read_decoder(decoder: DecoderRecord, room: usize) -> Result<Mode, Status>
    ensures mode { MatchResult result (λ mode. decoder_given decoder room ≡ Ok mode) (λ fault. decoder_given decoder room ≡ Err fault) }
    ensures count { IfOk result (λ mode. decoder.count < 8) }
    ensures carried { IfOk result (λ mode. decoder.carried ≤ most_octets) }
    ensures decoding { IfOk result (λ mode. decoder.decoding < 2) }
    ensures room { IfOk result (λ mode. decoder_room ≤ room) }
{
    let correct = flag(decoder.correct)?;
    let _decoding = flag(decoder.decoding)?;
    if decoder.count > 7 || usize::from(decoder.carried) > MOST_OCTETS {
        return Err(Status::BadDecoder);
    }
    if room < MOST_OCTETS + 8 {
        return Err(Status::NoRoom);
    }
    Ok(if correct { Mode::Correct } else { Mode::Detect })
}

// Takes an octet while the decoder looks for a start sequence. Returns the decoder after it.
fn search(mode: Mode, decoder: DecoderRecord, octet: u8) -> DecoderRecord
    ensures { result ≡ (if is_start mode decoder.last octet then record decoder {
      decoding = 1;
      count = 0;
      carried = 0;
    } else record decoder { last = octet }) }
{
    if begins(mode, decoder.last, octet) {
        DecoderRecord {
            decoding: 1,
            count: 0,
            carried: 0,
            ..decoder
        }
    } else {
        DecoderRecord {
            last: octet,
            ..decoder
        }
    }
}

// Ends a code block whose last octet has come.
#[inline(always)]
fn end_block(mode: Mode, decoder: DecoderRecord, block: &[u8; 8], frame: &mut [u8]) -> Taken
    requires decoding { decoder.decoding ≡ 1 }
    requires carried { decoder.carried ≤ most_octets }
    requires room { decoder_room ≤ length frame.old }
    ensures mode { result.decoder.correct ≡ decoder.correct }
    ensures count { result.decoder.count ≡ 0 }
    ensures carried { result.decoder.carried ≤ most_octets }
    ensures decoding { result.decoder.decoding < 2 }
    ensures length { length frame.new ≡ length frame.old }
    ensures state { reception_of result.decoder frame.new ≡ (after_block most_octets (take decoder.carried frame.old) (decoded mode block.now)).0 }
    ensures given { (if result.ended then take result.decoder.carried frame.new ∷ [] else [])
        ≡ (after_block most_octets (take decoder.carried frame.old) (decoded mode block.now)).1 }
    ensures fate { result.fate ≡ Some (fate_after mode most_octets (take decoder.carried frame.old) block.now) }
{
    let carried = usize::from(decoder.carried);
    let Judged { fate, block } = judge(block, mode);
    let searching = DecoderRecord {
        decoding: 0,
        last: 0,
        count: 0,
        ..decoder
    };
    match block {
        None => Taken {
            decoder: searching,
            fate: Some(fate),
            ended: carried > 0,
        },
        Some(block) => {
            if carried + 7 > MOST_OCTETS {
                return Taken {
                    decoder: searching,
                    fate: Some(Fate::Overlong),
                    ended: false,
                };
            }
            carry(carried, &block, frame);
            Taken {
                decoder: DecoderRecord {
                    count: 0,
                    carried: decoder.carried + 7,
                    ..decoder
                },
                fate: Some(fate),
                ended: false,
            }
        }
    }
}

// Writes a code block to the buffer, behind the `carried` octets at its front. The first seven octets of the block are
// those that it carries. Its eighth octet is written too, but isn't counted as carried.
#[inline(always)]
fn carry(carried: usize, block: &[u8; 8], frame: &mut [u8])
    requires { carried + 8 ≤ length frame.old }
    ensures carried { take (carried + 7) frame.new ≡ take carried frame.old ++ take 7 block.now }
    ensures length { length frame.new ≡ length frame.old }
{
    let (_, rest) = frame.split_at_mut(carried);
    if let Some(next) = rest.first_chunk_mut::<8>() {
        *next = *block;
    }
}

// The outcome for code blocks that are accepted.
#[derive(Clone, Copy)]
struct Accepted {
    // the number of octets carried since the start sequence, including those of these blocks
    carried: u16,
    // the number of octets in the blocks
    taken: usize,
    // the number of blocks that had one bit corrected
    corrected: u64,
}

// Takes code blocks from the front of the octets, and writes what they carry behind the octets carried before. Stops
// before the first block that isn't whole, is rejected, or would bring the carried octets to more than 1,029. The loop
// isn't inlined, so that the loop over all octets, which calls it, stays short.
#[inline(never)]
fn take_blocks(mode: Mode, before: u16, octets: &[u8], frame: &mut [u8]) -> Accepted
    requires carried { before ≤ most_octets }
    requires room { decoder_room ≤ length frame.old }
    ensures carried { result.carried ≤ most_octets }
    ensures length { length frame.new ≡ length frame.old }
    ensures within { result.taken ≤ length octets.now }
    ensures state { Decoding (take result.carried frame.new) []
        ≡ state_after mode most_octets (Decoding (take before frame.old) []) (take result.taken octets.now) }
    ensures given { frames_of mode most_octets (Decoding (take before frame.old) []) (take result.taken octets.now) ≡ [] }
    ensures corrected { result.corrected ≡ corrected_in mode most_octets (Decoding (take before frame.old) []) (take result.taken octets.now) }
    ensures few { result.corrected ≤ result.taken }
    ensures rejected { rejected_in mode most_octets (Decoding (take before frame.old) []) (take result.taken octets.now) ≡ 0 }
    ensures overlong { overlong_in mode most_octets (Decoding (take before frame.old) []) (take result.taken octets.now) ≡ 0 }
{
    let mut carried = usize::from(before);
    let mut taken = 0usize;
    let mut corrected = 0;
    while let Some(corrections) = accept_block(mode, carried, &octets[taken..], frame) {
        carried += 7;
        taken += 8;
        corrected += corrections;
    }
    Accepted {
        carried: carried as u16,
        taken,
        corrected,
    }
}

// Takes the code block at the front of the octets, writes the seven octets that it carries to the buffer behind the
// `carried` octets, and returns how many of its bits were corrected, 0 or 1. Returns `None`, and leaves the buffer as
// it was, if no whole code block is there, if the block is rejected, or if it would bring the carried octets to more
// than 1,029.
#[inline(always)]
fn accept_block(mode: Mode, carried: usize, octets: &[u8], frame: &mut [u8]) -> Option<u64>
    requires room { decoder_room ≤ length frame.old }
    ensures length { length frame.new ≡ length frame.old }
    ensures none { IfNone result (frame.new ≡ frame.old) }
    ensures whole { IfSome result (λ _. 8 ≤ length octets.now) }
    ensures room { IfSome result (λ _. carried + 7 ≤ most_octets) }
    ensures state { IfSome result (λ _. Decoding (take (carried + 7) frame.new) []
        ≡ state_after mode most_octets (Decoding (take carried frame.old) []) (take 8 octets.now)) }
    ensures given { IfSome result (λ _. frames_of mode most_octets (Decoding (take carried frame.old) []) (take 8 octets.now) ≡ []) }
    ensures corrected { IfSome result (λ n. n ≡ corrected_in mode most_octets (Decoding (take carried frame.old) []) (take 8 octets.now)) }
    ensures few { IfSome result (λ n. n ≤ 1) }
    ensures rejected { IfSome result (λ _. rejected_in mode most_octets (Decoding (take carried frame.old) []) (take 8 octets.now) ≡ 0) }
    ensures overlong { IfSome result (λ _. overlong_in mode most_octets (Decoding (take carried frame.old) []) (take 8 octets.now) ≡ 0) }
{
    if carried > MOST_OCTETS - 7 {
        return None;
    }
    let block = octets.first_chunk::<8>()?;
    let (fate, right) = accept(block, mode)?;
    carry(carried, &right, frame);
    Some(corrections(fate))
}

fn corrections(fate: Fate) -> u64
    ensures corrected { result ≡ corrections_of (Some fate) }
    ensures few { result ≤ 1 }
{
    match fate {
        Fate::Corrected => 1,
        _ => 0,
    }
}
