// The C interface: each public call of the library, with its result in a lent struct of 64-bit words (include/ch11.h).
// Each but ch11_renewal_next returns the refusal's number, 0 for none, which is also the struct's first word; specs/Calls.antt says all
// that it leaves behind.
#![tactic(auto)]

ghost use Rattle.ch11.specs.Calls.{ReadPacket, ListMessages, GiveMessage, ReadRecording, WritePacket, Open, Add, Close, RenewalAdd, RenewalRenew, RenewalNext};

use packet::{list_messages, message, read_packet};
use recording::read_recording;
use renewal::{Renewed, Table, add, next_live, renew};

mod given;

use ch11_words::{
    ADDED, DRAFT, FIELDS, LIST, MESSAGE, PACKET, RECORDING, RENEWED, WRITTEN, count_words,
    dropped_words, lives_words, message_words, packet_words, recording_words, refused_words,
    unrenewed_words,
};
use given::{add_given, close_given, open_given, write_given};

// Reads the packet at the start of a window: packet::read_packet.
#[unsafe(no_mangle)]
pub extern "C" fn ch11_read_packet(
    buf: &[u8],
    start: usize,
    end: usize,
    base: u64,
    packet: &mut [u64; PACKET],
) -> u64
    ensures { ReadPacket buf.now start end base result packet.new }
{
    match read_packet(buf, start, end, base) {
        Ok(p) => {
            *packet = packet_words(p);
            0
        }
        Err(f) => {
            *packet = refused_words(f);
            f.number as u64
        }
    }
}

// Lists the messages of the packet at the start of a window: packet::list_messages.
#[unsafe(no_mangle)]
pub extern "C" fn ch11_list_messages(
    buf: &[u8],
    start: usize,
    end: usize,
    base: u64,
    starts: &mut [u32],
    lengths: &mut [u32],
    list: &mut [u64; LIST],
) -> u64
    ensures { ListMessages buf.now start end base starts.old lengths.old result list.new starts.new lengths.new }
{
    *list = count_words(list_messages(buf, start, end, base, starts, lengths));
    list[0]
}

// Gives one message of the packet at the start of a window: packet::message.
#[unsafe(no_mangle)]
pub extern "C" fn ch11_message(
    buf: &[u8],
    start: usize,
    end: usize,
    base: u64,
    number: usize,
    found: &mut [u64; MESSAGE],
) -> u64
    ensures { GiveMessage buf.now start end base number result found.new }
{
    *found = message_words(message(buf, start, end, base, number));
    found[0]
}

// Reads the packets of a window: recording::read_recording.
#[unsafe(no_mangle)]
pub extern "C" fn ch11_read_recording(
    buf: &[u8],
    start: usize,
    end: usize,
    base: u64,
    recording: &mut [u64; RECORDING],
) -> u64
    ensures { ReadRecording buf.now start end base result recording.new }
{
    *recording = recording_words(read_recording(buf, start, end, base));
    recording[0]
}

// Writes a packet: packet::write_packet; 17 also for a value that its field can't hold.
#[unsafe(no_mangle)]
pub extern "C" fn ch11_write_packet(
    fields: &[u64; FIELDS],
    body: &[u8],
    out: &mut [u8],
    written: &mut [u64; WRITTEN],
) -> u64
    ensures { WritePacket fields.now body.now out.old result written.new out.new }
{
    *written = count_words(write_given(fields, body, out));
    written[0]
}

// Opens a body: builder's open.
#[unsafe(no_mangle)]
pub extern "C" fn ch11_open(draft: &mut [u64; DRAFT], buf: &mut [u8], kind: u64, rule: u64) -> u64
    ensures { Open draft.old buf.old kind rule result draft.new buf.new }
{
    *draft = open_given(*draft, buf, kind, rule);
    draft[0]
}

// Adds a block: builder's add; 17 also for an upper half of 2^16 or more.
#[unsafe(no_mangle)]
pub extern "C" fn ch11_add(
    draft: &mut [u64; DRAFT],
    buf: &mut [u8],
    time: u64,
    upper: u64,
    bytes: &[u8],
) -> u64
    ensures { Add draft.old buf.old time upper bytes.now result draft.new buf.new }
{
    *draft = add_given(*draft, buf, time, upper, bytes);
    draft[0]
}

// Closes a body: builder's close.
#[unsafe(no_mangle)]
pub extern "C" fn ch11_close(draft: &mut [u64; DRAFT], buf: &mut [u8]) -> u64
    ensures { Close draft.old buf.old result draft.new buf.new }
{
    *draft = close_given(*draft, buf);
    draft[0]
}

// Adds a packet to a renewal table: renewal::add.
#[unsafe(no_mangle)]
pub extern "C" fn ch11_renewal_add(
    table: &mut Table,
    store: &mut [u8],
    recording: u64,
    place: u64,
    buf: &[u8],
    start: usize,
    end: usize,
    added: &mut [u64; ADDED],
) -> u64
    ensures { RenewalAdd table.old store.old recording place buf.now start end result added.new table.new store.new }
{
    *added = count_words(add(table, store, recording, place, buf, start, end));
    added[0]
}

// Renews an entry of a renewal table: renewal::renew.
#[unsafe(no_mangle)]
pub extern "C" fn ch11_renewal_renew(
    table: &mut Table,
    store: &[u8],
    recording: u64,
    place: u64,
    buf: &[u8],
    start: usize,
    end: usize,
    renewed: &mut [u64; RENEWED],
) -> u64
    ensures { RenewalRenew table.old store.now recording place buf.now start end result renewed.new table.new }
{
    match renew(table, store, recording, place, buf, start, end) {
        Ok(Renewed::Lives) => {
            *renewed = lives_words();
            0
        }
        Ok(Renewed::Dropped(f)) => {
            *renewed = dropped_words(f);
            0
        }
        Err(f) => {
            *renewed = unrenewed_words(f);
            f.number as u64
        }
    }
}

// The lowest live slot of a renewal table at or behind this one, 64 if there is none: renewal::next_live.
#[unsafe(no_mangle)]
pub extern "C" fn ch11_renewal_next(table: &Table, slot: usize) -> usize
    ensures { RenewalNext table.now slot result }
{
    next_live(table, slot)
}
