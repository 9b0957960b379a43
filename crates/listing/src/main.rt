// Lists the packets of a recording on standard input, up to 65,536 bytes (document 01, "The listing program"): fourteen lines for
// each accepted packet, then the number of packets, the bytes that they cover, and the refusal that ended the reading, or 0.
#![tactic(auto)]

ghost use Rattle.std.specs.Prelude.{◌≡◌, ◌≤◌, length, IfOk};
ghost use Rattle.packet.specs.Read.{window, read_packet};
ghost use Rattle.packet.specs.Messages.{message_count};
ghost use Rattle.packet.specs.declared.Packet.{Packet};

use frame::Fields;
use packet::{Packet, list_messages, read_packet};
use recording::{Recording, read_recording};
use std::io;
use std::io::Read;

// Standard output can't be written: by which error, nobody asks.
#[derive(Clone, Copy)]
struct Unwritten;

// Writes a line: a key name with its `=`, and a number. One function for all lines, so that what prints them has its room on the stack
// once, and with the `=` in the name, since each further piece takes longer.
fn line(rt: &impl Print, key: &str, value: u64) -> Result<(), Unwritten> {
    println!(rt; "{key}{value}").map_err(|_| Unwritten)
}

// The lines that the packet's fields give.
fn show_fields(rt: &impl Print, fields: Fields) -> Result<(), Unwritten> {
    line(rt, "channel=", u64::from(fields.channel))?;
    line(rt, "type=", u64::from(fields.kind))?;
    line(rt, "version=", u64::from(fields.version))?;
    line(rt, "sequence=", u64::from(fields.sequence))?;
    line(rt, "flags=", u64::from(fields.flags))?;
    line(rt, "rtc=", fields.rtc)?;
    line(rt, "time=", fields.time)
}

// The lines of a packet.
fn show_packet(
    rt: &impl Print,
    number: usize,
    packet: Packet,
    messages: usize,
) -> Result<(), Unwritten> {
    line(rt, "packet=", number as u64)?;
    line(rt, "at=", packet.recording_place)?;
    line(rt, "length=", u64::from(packet.length))?;
    show_fields(rt, packet.fields)?;
    line(rt, "body=", packet.body.length as u64)?;
    line(rt, "filler=", packet.filler.length as u64)?;
    line(rt, "sum=", u64::from(packet.data_sum))?;
    line(rt, "messages=", messages as u64)
}

// The three last lines.
fn show_end(rt: &impl Print, recording: Recording) -> Result<(), Unwritten> {
    line(rt, "packets=", recording.accepted as u64)?;
    line(rt, "bytes=", recording.reached as u64)?;
    line(rt, "answer=", u64::from(recording.refusal.number))
}

// How many messages the packet at `at` has, 0 if its type isn't opened. Lent no entries, the lister says 0 or asks for the room of
// all messages: their number.
fn message_count(buf: &[u8], at: usize, end: usize) -> usize
    ensures { (p : Packet) → read_packet buf.now at end at ≡ Ok p → result ≡ message_count (window buf.now at end) }
{
    match list_messages(buf, at, end, at as u64, &mut [], &mut []) {
        Ok(count) => count,
        Err(refusal) => refusal.room,
    }
}

// Shows so many packets, each at the end of the one before: where it stands is known from that one alone, so the place is kept.
fn show_packets(rt: &impl Print, buf: &[u8], count: usize) -> Result<(), Unwritten> {
    let end = buf.len();
    let mut at = 0;
    for number in 0..count {
        let Ok(packet) = read_packet(buf, at, end, at as u64) else {
            break;
        };
        show_packet(rt, number, packet, message_count(buf, at, end))?;
        at += packet.length as usize;
    }
    Ok(())
}

// Lists a recording of up to 65,536 bytes. The buffer begins with its first byte: a place in the one is a place in the other, and so a
// packet's base.
fn list(rt: &impl Print, buf: &[u8]) -> Result<(), Unwritten> {
    if 65536 < buf.len() {
        return line(rt, "answer=", 1);
    }
    let recording = read_recording(buf, 0, buf.len(), 0);
    show_packets(rt, buf, recording.accepted)?;
    show_end(rt, recording)
}

// Reads standard input to its end, or until the room is full: how many bytes. std fills no room of a fixed size, and the program uses no
// heap.
fn read_input(source: &mut impl Read, room: &mut [u8]) -> io::Result<usize>
    ensures { IfOk result (λ filled. filled ≤ length room.new) }
{
    let mut filled = 0;
    while filled < room.len() {
        let more = source.read(&mut room[filled..])?;
        if more == 0 {
            return Ok(filled);
        }
        filled += more;
    }
    Ok(filled)
}

fn main(rt: HostRuntime) -> io::Result<()> {
    // A byte more than a recording here may have.
    let mut room = [0; 65537];
    let Ok(filled) = read_input(&mut rt.stdin(), &mut room) else {
        return eprintln!(rt; "listing: standard input can't be read");
    };
    if list(&rt, &room[..filled]).is_err() {
        return eprintln!(rt; "listing: standard output can't be written");
    }
    Ok(())
}
