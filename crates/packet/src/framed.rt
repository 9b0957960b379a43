// Lister and message behind the reader's tests; and of a packet whose frame has passed them 15, its record, its messages.
ghost use Rattle.std.specs.Prelude.{◌≡◌, ◌≢◌, ◌+◌, ◌^◌, ◌<◌, min, length, MatchResult};
ghost use Rattle.terms.specs.Refusals.{refused};
ghost use Rattle.frame.specs.Table.{first, frame_lines};
ghost use Rattle.packet.specs.Read.{packet_in, body_checked, pass_body, pass_bytes};
ghost use Rattle.packet.specs.Messages.{message_count, kth_message, list_answer, list_after, starts as Messages·starts, lengths as Messages·lengths, message_answer};

use crate::{Packet, Part, Placed};
use body::walk::walk_body;
use body::{Kind, Message, Unlisted};
use frame::framed::Framed;
use frame::rules::message_rule;
use frame::table::frame;
use terms::{Number, Refusal, moved, no_room, refuse, refuse_found};
use units::InBytes;

// A framed window, and where its bytes stand in their buffer.
#[derive(Clone, Copy)]
pub struct PlacedFrame<'a> {
    pub framed: Framed<'a>,
    pub at: usize,
    pub ghost below: { at + length framed.bytes.now < 2 ^ 64 },
}

// The window as the frame's table passes it, or the table's refusal at the packet's start. Inlined as `frame` is.
#[inline(always)]
pub fn framed_at(w: Placed) -> Result<PlacedFrame, Refusal>
    ensures { MatchResult result
        (λ placed. (first (frame_lines w.entry.bytes.now) ≡ 0) × (placed.framed.bytes.now ≡ w.entry.bytes.now) × (placed.at ≡ w.entry.at))
        (λ refusal. (first (frame_lines w.entry.bytes.now) ≢ 0) × (refusal ≡ refused (first (frame_lines w.entry.bytes.now)) w.entry.at)) }
{
    let Placed { bytes, at, .. } = w;
    let framed = frame(bytes).map_err(|number| refuse_found(number, at))?;
    Ok(PlacedFrame { framed, at })
}

// 15, or the packet's length. A type that isn't opened leaves at once.
pub fn pass_framed(placed: PlacedFrame) -> Result<u32, Refusal>
    ensures { result ≡ pass_body (body_checked placed.entry.framed.bytes.now) placed.entry.framed.bytes.now placed.entry.at }
{
    let PlacedFrame { framed, at, .. } = placed;
    let w = framed.bytes;
    match Kind::try_from(w[15]) {
        Ok(kind) => {
            let layout = framed.measure();
            let body = layout.body;
            let filler = layout.filler;
            match walk_body(&w[body..filler], kind, message_rule(w[14])) {
                Ok(_) => Ok(u32::read(w, 4)),
                Err(f) => Err(moved(f, at + body)),
            }
        }
        Err(_) => Ok(u32::read(w, 4)),
    }
}

// The packet's record; it stands there in its buffer and in the recording.
pub fn packet_in(placed: PlacedFrame, recording_place: u64) -> Packet
    ensures { result ≡ packet_in placed.entry.framed.bytes.now placed.entry.at recording_place }
{
    let PlacedFrame { framed, at, .. } = placed;
    let w = framed.bytes;
    let layout = framed.measure();
    let body = layout.body;
    let filler = layout.filler;
    let sum = layout.sum;
    let length = u32::read(w, 4);
    Packet {
        fields: framed.fields(),
        length,
        data_length: u32::read(w, 8),
        header_sum: u16::read(w, 22),
        data_sum: framed.stored_sum(),
        recording_place,
        header: Part { at, length: 24 },
        secondary: Part {
            at: at + 24,
            length: body - 24,
        },
        body: Part {
            at: at + body,
            length: filler - body,
        },
        filler: Part {
            at: at + filler,
            length: sum - filler,
        },
        sum: Part {
            at: at + sum,
            length: length as usize - sum,
        },
    }
}

// The reader's tests, then 16, or both lists filled.
pub fn list_bytes(w: Placed, starts: &mut [u32], lengths: &mut [u32]) -> Result<usize, Refusal>
    ensures value { result ≡ list_answer (pass_bytes w.entry.bytes.now w.entry.at) w.entry.at (message_count w.entry.bytes.now) (min (length starts.old) (length lengths.old)) }
    ensures starts_after { starts.new ≡ list_after result (Messages·starts w.entry.bytes.now) starts.old }
    ensures lengths_after { lengths.new ≡ list_after result (Messages·lengths w.entry.bytes.now) lengths.old }
{
    let placed = framed_at(w)?;
    list_framed(placed, starts, lengths)
}

// 15, then 16, or both lists filled.
fn list_framed(
    placed: PlacedFrame,
    starts: &mut [u32],
    lengths: &mut [u32],
) -> Result<usize, Refusal>
    ensures value { result ≡ list_answer (pass_body (body_checked placed.entry.framed.bytes.now) placed.entry.framed.bytes.now placed.entry.at) placed.entry.at (message_count placed.entry.framed.bytes.now) (min (length starts.old) (length lengths.old)) }
    ensures starts_after { starts.new ≡ list_after result (Messages·starts placed.entry.framed.bytes.now) starts.old }
    ensures lengths_after { lengths.new ≡ list_after result (Messages·lengths placed.entry.framed.bytes.now) lengths.old }
{
    let PlacedFrame { framed, at, .. } = placed;
    let w = framed.bytes;
    let layout = framed.measure();
    let body = layout.body;
    let filler = layout.filler;
    match body::list_messages(
        &w[body..filler],
        body,
        w[15],
        message_rule(w[14]),
        starts,
        lengths,
    ) {
        Ok(n) => Ok(n),
        Err(Unlisted::Faulty(f)) => Err(moved(f, at + body)),
        Err(Unlisted::NoRoom(n)) => Err(no_room(at, n)),
    }
}

// The reader's tests, then 17, or the message.
pub fn message_bytes(w: Placed, number: usize) -> Result<Message, Refusal>
    ensures { result ≡ message_answer (pass_bytes w.entry.bytes.now w.entry.at) w.entry.at (message_count w.entry.bytes.now) number (kth_message w.entry.bytes.now number) }
{
    let placed = framed_at(w)?;
    message_framed(placed, number)
}

// 15, then 17, or the message.
fn message_framed(placed: PlacedFrame, number: usize) -> Result<Message, Refusal>
    ensures { result ≡ message_answer (pass_body (body_checked placed.entry.framed.bytes.now) placed.entry.framed.bytes.now placed.entry.at) placed.entry.at (message_count placed.entry.framed.bytes.now) number (kth_message placed.entry.framed.bytes.now number) }
{
    let PlacedFrame { framed, at, .. } = placed;
    let w = framed.bytes;
    let layout = framed.measure();
    let body = layout.body;
    let filler = layout.filler;
    match body::message_at(&w[body..filler], w[15], message_rule(w[14]), number) {
        Ok(Some(m)) => Ok(Message {
            time: m.time,
            id: m.id,
            start: body + m.start,
            length: m.length,
        }),
        Err(f) => Err(moved(f, at + body)),
        Ok(None) => Err(refuse(Number::Range, at)),
    }
}
