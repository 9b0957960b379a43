// One packet: the reader, the lister, a message by its number, and the writer.
// A window is a buffer, a start and a filled end; nothing outside it has a say. A base says where its start stands in the recording.
#![tactic(auto)]

ghost use Rattle.std.specs.Prelude.{◌≡◌, true, false, length, ◌+◌, ◌^◌, ◌<◌, IfOk, IfErr};
ghost use Rattle.terms.specs.Refusals.{refused, recorded};
ghost use Rattle.packet.specs.Read.{inside, window, pass_bytes, read_packet};
ghost use Rattle.packet.specs.Messages.{list_packet, list_after, starts as Messages·starts, lengths as Messages·lengths, message_packet};
ghost use Rattle.frame.specs.Contents.{contents};
ghost use Rattle.packet_bytes.specs.Bytes.{packet_bytes};
ghost use Rattle.packet.specs.Write.{write_packet, out_after};

use body::Message;
use frame::Fields;
use frame::framed::Framed;
use frame::rules::length_for;
use packet_bytes::put_packet;
use terms::{Number, Refusal, recorded, refuse};

mod framed;
mod writing;

use framed::{PlacedFrame, framed_at, list_bytes, message_bytes, packet_in, pass_framed};
use writing::{fit, writer_refusal};

// A part of a packet: where it stands in the buffer, and how many bytes it has.
#[derive(Clone, Copy)]
pub struct Part {
    pub at: usize,
    pub length: usize,
}

// An accepted packet: its fields; P and D; the header sum and the data sum (0 if absent) as stored; its place in the recording; and
// its five parts, which stand one behind the other and make up P. An absent part has length 0, at the place where it would stand.
#[derive(Clone, Copy)]
pub struct Packet {
    pub fields: Fields,
    pub length: u32,
    pub data_length: u32,
    pub header_sum: u16,
    pub data_sum: u32,
    pub recording_place: u64,
    pub header: Part,
    pub secondary: Part,
    pub body: Part,
    pub filler: Part,
    pub sum: Part,
}

// A window's bytes, and where they stand in their buffer: each of them has a place there.
#[derive(Clone, Copy)]
pub struct Placed<'a> {
    pub bytes: &'a [u8],
    pub at: usize,
    pub ghost below: { at + length bytes.now < 2 ^ 64 },
}

// Whether a window is inside its buffer, and base plus window length below 2^64: the one test, for the calls on a packet and for a
// recording. The length is formed only where start is not past end.
fn inside(buf: &[u8], start: usize, end: usize, base: u64) -> bool
    ensures { result ≡ inside buf.now start end base }
{
    (start <= end) & (end <= buf.len()) && (end - start) as u64 <= 0xFFFF_FFFF_FFFF_FFFF - base
}

// 1, where it is not.
fn outside(start: usize, base: u64) -> Refusal
    ensures { result ≡ recorded base start (refused 1 start) }
{
    recorded(refuse(Number::State, start), start, base)
}

// The bytes of a window, or 1: the one test, for the calls on a packet, for a recording and for the renewal table. Buffer, start, filled
// end and base stay four parameters, as C gives them.
pub fn window_bytes(buf: &[u8], start: usize, end: usize, base: u64) -> Result<Placed, Refusal>
    ensures inside { IfOk result (λ w. (inside buf.now start end base ≡ true) × (w.bytes.now ≡ window buf.now start end) × (w.at ≡ start)) }
    ensures outside { IfErr result (λ r. (inside buf.now start end base ≡ false) × (r ≡ recorded base start (refused 1 start))) }
{
    if inside(buf, start, end, base) {
        Ok(Placed {
            bytes: &buf[start..end],
            at: start,
        })
    } else {
        Err(outside(start, base))
    }
}

// The length of the packet that a window's bytes begin with; or the refusal of the reader's tests, the frame's table, then 15, whose place
// in the recording is not set.
pub fn pass_bytes(w: Placed) -> Result<u32, Refusal>
    ensures { result ≡ pass_bytes w.entry.bytes.now w.entry.at }
{
    let placed = framed_at(w)?;
    pass_framed(placed)
}

// Reads the packet at the start of a window. The reader's refusals: 1, those of the frame's table, then 15.
pub fn read_packet(buf: &[u8], start: usize, end: usize, base: u64) -> Result<Packet, Refusal>
    ensures { result ≡ read_packet buf.now start end base }
{
    let w = window_bytes(buf, start, end, base)?;
    match pass_bytes(w) {
        Ok(_) => {
            let framed = Framed { bytes: w.bytes };
            Ok(packet_in(PlacedFrame { framed, at: w.at }, base))
        }
        Err(refusal) => Err(recorded(refusal, start, base)),
    }
}

// Lists the start, counted from the packet's first byte, and the length of each message of the packet at the start of a window.
// The reader's refusals, then 16 where there are more messages than the shorter list holds, with their number as room; a type
// that isn't opened has no messages. Entries past the count are untouched, and on a refusal all are.
pub fn list_messages(
    buf: &[u8],
    start: usize,
    end: usize,
    base: u64,
    starts: &mut [u32],
    lengths: &mut [u32],
) -> Result<usize, Refusal>
    ensures value { result ≡ list_packet buf.now start end base (length starts.old) (length lengths.old) }
    ensures starts_after { starts.new ≡ list_after result (Messages·starts (window buf.now start end)) starts.old }
    ensures lengths_after { lengths.new ≡ list_after result (Messages·lengths (window buf.now start end)) lengths.old }
{
    let w = window_bytes(buf, start, end, base)?;
    match list_bytes(w, starts, lengths) {
        Ok(count) => Ok(count),
        Err(refusal) => Err(recorded(refusal, start, base)),
    }
}

// Gives the message of this number, from 0, of the packet at the start of a window; its start is counted from the packet's first byte.
// The reader's refusals, then 17 where there is no such message.
pub fn message(
    buf: &[u8],
    start: usize,
    end: usize,
    base: u64,
    number: usize,
) -> Result<Message, Refusal>
    ensures { result ≡ message_packet buf.now start end base number }
{
    let w = window_bytes(buf, start, end, base)?;
    match message_bytes(w, number) {
        Ok(found) => Ok(found),
        Err(refusal) => Err(recorded(refusal, start, base)),
    }
}

// Writes the packet of these fields and this body at the output's first byte; the answer is its length.
// 17 (RTC of 2^48 or more; a time where bit 7 is clear), then 5 to 9, 12 and 15 by the reader's rules, then 16 with the packet's
// length as room; the place is 0. The output behind the packet is untouched, and on a refusal all of it is.
pub fn write_packet(fields: Fields, body: &[u8], out: &mut [u8]) -> Result<usize, Refusal>
    ensures value { result ≡ write_packet (contents fields body.now) (length out.old) }
    ensures out_after { out.new ≡ out_after result out.old (packet_bytes (contents fields body.now)) }
{
    let d = body.len() as u64;
    writer_refusal(fields, d).map_err(|number| refuse(number, 0))?;
    let length = length_for(fields.flags, d) as usize;
    let written = fit(fields, body, length, out.len())?;
    put_packet(out, fields, body, length);
    Ok(written)
}
