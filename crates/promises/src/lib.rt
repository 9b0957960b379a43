// The three demands and document 01's other promises are theorems: specs/Demand1.antt to Demand3.antt, Document01.antt, Answering.antt and
// Words.antt, on the definitions that the contracts of the public calls cite. The functions here tie them to the code: each makes one public
// call, and promises of it what specs/Calls.antt says, and of its arguments what the theorems ask for: `Bytes` of what is lent for reading,
// `Typed` of contents. So every theorem applies to every run.
#![tactic(auto)]

ghost use Rattle.std.specs.Prelude.{◌^◌, ◌<◌};
ghost use Rattle.units.specs.Units.{Bytes};
ghost use Rattle.frame.specs.Contents.{contents};
ghost use Rattle.promises.specs.Contents.{Typed};
ghost use Rattle.promises.specs.Calls.{ReadPacket, ListMessages, GiveMessage, WritePacket, ReadRecording, Fresh, Open, Add, Close};

use body::Message;
use builder::Draft;
use frame::Fields;
use packet::{Packet, list_messages, message, read_packet, write_packet};
use recording::{Recording, read_recording};
use terms::Refusal;

pub fn reads_packet(buf: &[u8], start: usize, end: usize, base: u64) -> Result<Packet, Refusal>
    ensures read_packet { ReadPacket buf.now start end base result }
    ensures bytes { Bytes buf.now }
{
    read_packet(buf, start, end, base)
}

pub fn lists_messages(
    buf: &[u8],
    start: usize,
    end: usize,
    base: u64,
    starts: &mut [u32],
    lengths: &mut [u32],
) -> Result<usize, Refusal>
    ensures list_messages { ListMessages buf.now start end base starts.old lengths.old result starts.new lengths.new }
    ensures bytes { Bytes buf.now }
{
    list_messages(buf, start, end, base, starts, lengths)
}

pub fn gives_message(
    buf: &[u8],
    start: usize,
    end: usize,
    base: u64,
    number: usize,
) -> Result<Message, Refusal>
    ensures give_message { GiveMessage buf.now start end base number result }
    ensures bytes { Bytes buf.now }
{
    message(buf, start, end, base, number)
}

// Numbers of these types are below 2 to their widths, as Typed asks.
fn hold_types(channel: u16, version: u8, sequence: u8, flags: u8, kind: u8, rtc: u64, time: u64)
    ensures { (channel < 2 ^ 16) × (version < 2 ^ 8) × (sequence < 2 ^ 8) × (flags < 2 ^ 8) × (kind < 2 ^ 8) × (rtc < 2 ^ 64) × (time < 2 ^ 64) }
{}

pub fn writes_packet(fields: Fields, body: &[u8], out: &mut [u8]) -> Result<usize, Refusal>
    ensures write_packet { WritePacket fields body.now out.old result out.new }
    ensures typed { Typed (contents fields body.now) }
{
    hold_types(
        fields.channel,
        fields.version,
        fields.sequence,
        fields.flags,
        fields.kind,
        fields.rtc,
        fields.time,
    );
    write_packet(fields, body, out)
}

pub fn reads_recording(buf: &[u8], start: usize, end: usize, base: u64) -> Recording
    ensures read_recording { ReadRecording buf.now start end base result }
    ensures bytes { Bytes buf.now }
{
    read_recording(buf, start, end, base)
}

pub fn starts_fresh() -> Draft
    ensures { Fresh result }
{
    Draft::fresh()
}

pub fn opens_body(
    draft: Draft,
    buf: &mut [u8],
    kind: u8,
    rule: u8,
) -> Result<Draft, (Refusal, Draft)>
    ensures { Open draft buf.old kind rule result buf.new }
{
    draft.open(buf, kind, rule)
}

pub fn adds_block(
    draft: Draft,
    buf: &mut [u8],
    time: u64,
    upper: u16,
    bytes: &[u8],
) -> Result<Draft, (Refusal, Draft)>
    ensures add { Add draft buf.old time upper bytes.now result buf.new }
    ensures time_bound { (time < 2 ^ 64) × (upper < 2 ^ 16) }
{
    draft.add(buf, time, upper, bytes)
}

pub fn closes_body(draft: Draft, buf: &mut [u8]) -> Result<Draft, (Refusal, Draft)>
    ensures { Close draft buf.old result buf.new }
{
    draft.close(buf)
}
