// The rules of plain numbers, for reader and writer alike, and the lengths of a packet's parts.
ghost use Rattle.std.specs.Prelude.{◌≡◌, ◌+◌, ◌%◌, ◌^◌, ◌≤◌, ◌<◌, leb};
ghost use Rattle.terms.specs.Numbers.{told};
ghost use Rattle.frame.specs.Header.{sum_length, body_at, unfilled_length, length_for};
ghost use Rattle.frame.specs.Rules.{version_ok, type_ok, flags_ok, channel_ok, limit, lengths_ok, secondary_time_ok, message_rule};
ghost use Rattle.frame.specs.Table.{first, value_lines};

use crate::sums::Width;
use terms::time::time_ok;
use terms::{Number, TimeRule};

fn version_ok(version: u8) -> bool
    ensures { result ≡ version_ok version }
{
    (1 <= version) & (version <= 9)
}

// The defined types below 0x40, and those from there to 0x7F: bit n is type n, or 0x40 + n.
const LOW_TYPES: u64 = 0x0101_0202_0606_061F;

const HIGH_TYPES: u64 = 0x0707_0301_0301_071F;

fn type_ok(kind: u8) -> bool
    ensures { result ≡ type_ok kind }
{
    if kind < 64 {
        return (LOW_TYPES >> kind) % 2 == 1;
    }
    if kind < 128 {
        return (HIGH_TYPES >> (kind - 64)) % 2 == 1;
    }
    false
}

// The flags that may be, by their bits 7-2: bit n is the flags 4 n to 4 n + 3.
const FLAGS: u64 = 0x7777_7777_0000_7777;

fn flags_ok(flags: u8) -> bool
    ensures { result ≡ flags_ok flags }
{
    (FLAGS >> (flags / 4)) % 2 == 1
}

fn channel_ok(channel: u16, kind: u8) -> bool
    ensures { result ≡ channel_ok channel kind }
{
    (channel != 0) | (kind == 0x01) | (kind == 0x04)
}

// Whether P is at most what it may be.
fn within_limit(kind: u8, p: u64) -> bool
    ensures { result ≡ leb p (limit kind) }
{
    if p <= 524_288 {
        return true;
    }
    (kind == 0x01) & (p <= 134_217_728)
}

// The data sum's width in bytes. By numbers: of a `match` on `Width::of` the compiler makes a table in memory.
#[tactic(auto, using(crate::proofs::Widths::width_is))]
pub fn sum_length(flags: u8) -> u64
    ensures { (result ≡ sum_length flags) × (result ≤ 4) }
{
    let code = flags % 4;
    if code == 3 { 4 } else { code as u64 }
}

// Where the body stands: behind the primary header, and the secondary header if there is one.
pub fn body_at(flags: u8) -> u64
    ensures { (result ≡ body_at flags) × (result ≤ 36) }
{
    if flags < 128 { 24 } else { 36 }
}

// P's parts without the filler, in 64 bits.
pub fn unfilled_length(flags: u8, d: u64) -> u64
    requires { d < 2 ^ 63 }
    ensures { (result ≡ unfilled_length flags d) × (result < 2 ^ 63 + 40) }
{
    body_at(flags) + d + sum_length(flags)
}

// P of a packet with these flags and D: filler makes it a multiple of 4.
pub fn length_for(flags: u8, d: u64) -> u64
    requires { d < 2 ^ 63 }
    ensures { (result ≡ length_for flags d) × (result < 2 ^ 63 + 44) }
{
    (unfilled_length(flags, d) + 3) / 4 * 4
}

fn lengths_ok(kind: u8, flags: u8, p: u64, d: u64) -> bool
    requires { d < 2 ^ 63 }
    ensures { result ≡ lengths_ok kind flags p d }
{
    (p == length_for(flags, d)) & within_limit(kind, p) & (1 <= d)
}

// The first of 5 to 9 of the table that applies.
#[tactic(auto, unfolding(crate::specs::Table::value_lines, crate::specs::Table::first))]
pub fn value_refusal(
    channel: u16,
    version: u8,
    flags: u8,
    kind: u8,
    p: u64,
    d: u64,
) -> Result<(), Number>
    requires { d < 2 ^ 63 }
    ensures { told result ≡ first (value_lines channel version flags kind p d) }
{
    if !version_ok(version) {
        return Err(Number::Version);
    }
    if !type_ok(kind) {
        return Err(Number::Type);
    }
    if !flags_ok(flags) {
        return Err(Number::Flags);
    }
    if !channel_ok(channel, kind) {
        return Err(Number::Channel);
    }
    if !lengths_ok(kind, flags, p, d) {
        return Err(Number::Length);
    }
    Ok(())
}

// Whether a secondary time is in form, by the flags' format.
pub fn secondary_time_ok(flags: u8, time: u64) -> bool
    ensures { result ≡ secondary_time_ok flags time }
{
    time_ok(TimeRule::from(2 + flags / 4 % 4), time)
}

// The rule of message times.
pub fn message_rule(flags: u8) -> TimeRule
    ensures { result ≡ message_rule flags }
{
    if flags / 64 % 2 == 0 {
        return TimeRule::from(1);
    }
    TimeRule::from(2 + flags / 4 % 4)
}
