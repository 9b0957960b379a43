// The bytes of a packet, put down in an output.
#![tactic(auto)]

ghost use Rattle.std.specs.Prelude.{◌≡◌, ◌+◌, ◌-◌, ◌^◌, ◌≤◌, ◌<◌, length, replicate, ◌++◌, ◌∷◌, []};
ghost use Rattle.units.specs.Units.{splice};
ghost use Rattle.frame.specs.Header.{secondary_length, body_at, length_for};
ghost use Rattle.frame.specs.Contents.{contents};
ghost use Rattle.packet_bytes.specs.Bytes.{head_words, head_bytes, secondary_bytes, data_bytes, packet_bytes};

use frame::Fields;
use frame::head::put_sync;
use frame::rules::{body_at, sum_length};
use frame::sums::{HEADER_WORDS, SECONDARY_WORDS, Width, header_sum, put_data_sum};
use units::{InBytes, clear_at, copy_at, put48};

// Writes a packet of p bytes at the output's first byte.
pub fn put_packet(out: &mut [u8], fields: Fields, body: &[u8], p: usize)
    requires { (p ≡ length_for fields.flags (length body.now)) × (p ≤ length out.old) × (p < 2 ^ 32) }
    ensures { out.new ≡ splice out.old 0 (packet_bytes (contents fields body.now)) }
{
    put_header(out, fields, p as u32, body.len() as u32);
    put_secondary(out, fields.flags, fields.time);
    put_data(out, fields.flags, body, p);
}

// Writes the primary header.
fn put_header(out: &mut [u8], fields: Fields, p: u32, d: u32)
    requires { 24 ≤ length out.old }
    ensures { out.new ≡ splice out.old 0 (head_bytes fields p d) }
{
    put_words(out, fields, p, d);
    let sum = header_sum::<HEADER_WORDS>(out);
    u16::put(out, 22, sum);
}

// Writes the eleven words ahead of the header's sum.
fn put_words(out: &mut [u8], fields: Fields, p: u32, d: u32)
    requires { 24 ≤ length out.old }
    ensures { out.new ≡ splice out.old 0 (head_words fields p d) }
{
    put_sync(out);
    u16::put(out, 2, fields.channel);
    u32::put(out, 4, p);
    u32::put(out, 8, d);
    put_bytes(out, fields);
    put48(out, 16, fields.rtc);
}

// Writes version, sequence number, flags and type, a byte each.
fn put_bytes(out: &mut [u8], fields: Fields)
    requires { 16 ≤ length out.old }
    ensures { out.new ≡ splice out.old 12 (fields.version ∷ fields.sequence ∷ fields.flags ∷ fields.kind ∷ []) }
{
    out[12] = fields.version;
    out[13] = fields.sequence;
    out[14] = fields.flags;
    out[15] = fields.kind;
}

// Writes the secondary header, if there is one.
fn put_secondary(out: &mut [u8], flags: u8, time: u64)
    requires { 24 + secondary_length flags ≤ length out.old }
    ensures { out.new ≡ splice out.old 24 (secondary_bytes flags time) }
{
    if flags / 128 % 2 == 1 {
        u64::put(out, 24, time);
        u16::put(out, 32, 0);
        let sum = header_sum::<SECONDARY_WORDS>(&out[24..36]);
        u16::put(out, 34, sum);
    }
}

// Writes body, filler and data sum.
fn put_data(out: &mut [u8], flags: u8, body: &[u8], p: usize)
    requires { (p ≡ length_for flags (length body.now)) × (p ≤ length out.old) × (p < 2 ^ 32) }
    ensures { out.new ≡ splice out.old (body_at flags) (data_bytes flags body.now) }
{
    let at = body_at(flags) as usize;
    let sum_at = p - sum_length(flags) as usize;
    put_body_and_filler(out, at, body, sum_at);
    if let Some(width) = Width::of(flags) {
        put_data_sum(out, at, sum_at, width);
    }
}

// Writes the body at `at` and clears what is left up to `end`.
fn put_body_and_filler(out: &mut [u8], at: usize, body: &[u8], end: usize)
    requires { (at + length body.now ≤ end) × (end ≤ length out.old) }
    ensures { out.new ≡ splice out.old at (body.now ++ replicate (end - (at + length body.now)) 0) }
{
    copy_at(out, at, body);
    let filler = at + body.len();
    clear_at(out, filler, end - filler);
}
