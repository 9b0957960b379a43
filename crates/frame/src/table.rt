// The table of refusals, 2 to 14, on a window's bytes.
ghost use Rattle.std.specs.Prelude.{◌≡◌, ◌*◌, ◌+◌, ◌≤◌, length, IfOk};
ghost use Rattle.terms.specs.Numbers.{told};
ghost use Rattle.units.specs.Units.{summed};
ghost use Rattle.units.specs.Choice.{pick};
ghost use Rattle.frame.specs.Rules.{data_summed, filler_ok};
ghost use Rattle.frame.specs.Table.{first, head_lines, values_in, secondary_lines, trailer_lines, frame_lines};

use crate::Layout;
use crate::framed::Framed;
use crate::head::synced;
use crate::rules::{secondary_time_ok, value_refusal};
use crate::sums::{HEADER_WORDS, SECONDARY_WORDS, Width, header_sum};
use terms::Number;
use units::{InBytes, all_zero, lanes};

// The window that has passed 2 to 14, or the first that applies. Inlined, so that a slice and a number's two bytes are handed about in
// registers: out of line, its answer stands in memory.
#[inline(always)]
pub fn frame(w: &[u8]) -> Result<Framed, Number>
    ensures told { told result ≡ first (frame_lines w.now) }
    ensures bytes { IfOk result (λ framed. framed.bytes.now ≡ w.now) }
{
    frame_refusal(w)?;
    Ok(Framed { bytes: w })
}

// The first of 2 to 14 that applies.
fn frame_refusal(w: &[u8]) -> Result<(), Number>
    ensures { told result ≡ first (frame_lines w.now) }
{
    head_refusal(w)?;
    value_refusal_in(w)?;
    if (w.len() as u64) < (u32::read(w, 4) as u64) {
        return Err(Number::Cut);
    }
    let framed = Framed { bytes: w };
    secondary_refusal(framed)?;
    trailer_refusal(framed)
}

// The first of 2 to 4 that applies.
#[tactic(auto, unfolding(crate::specs::Table::head_lines, crate::specs::Table::first))]
fn head_refusal(w: &[u8]) -> Result<(), Number>
    ensures { told result ≡ first (head_lines w.now) }
{
    if w.len() < 24 {
        return Err(Number::Short);
    }
    if !synced(w) {
        return Err(Number::Sync);
    }
    if !summed::<HEADER_WORDS>(w) {
        return Err(Number::HeaderSum);
    }
    Ok(())
}

// Whether the word behind the first N words of a header is their sum.
#[tactic(auto, unfolding(units::specs::Units::summed))]
fn summed<const N: usize>(header: &[u8]) -> bool
    requires { 2 * N + 2 ≤ length header.now }
    ensures { result ≡ summed 2 N header.now }
{
    header_sum::<N>(header) == u16::read(header, 2 * N)
}

// The first of 5 to 9 that applies to a header.
fn value_refusal_in(w: &[u8]) -> Result<(), Number>
    requires { 24 ≤ length w.now }
    ensures { told result ≡ first (values_in w.now) }
{
    value_refusal(
        u16::read(w, 2),
        w[12],
        w[14],
        w[15],
        u32::read(w, 4) as u64,
        u32::read(w, 8) as u64,
    )
}

// The first of 11 and 12 that applies.
#[tactic(auto, using(crate::proofs::Stages::no_secondary), unfolding(crate::specs::Table::secondary_lines, crate::specs::Table::first))]
fn secondary_refusal(framed: Framed) -> Result<(), Number>
    ensures { told result ≡ first (secondary_lines framed.entry.bytes.now) }
{
    let Some(secondary) = framed.secondary() else {
        return Ok(());
    };
    if !summed::<SECONDARY_WORDS>(secondary) {
        return Err(Number::SecondarySum);
    }
    let reserved = u16::read(secondary, 8);
    if (reserved != 0) | !secondary_time_ok(framed.bytes[14], u64::read(secondary, 0)) {
        return Err(Number::Secondary);
    }
    Ok(())
}

// The first of 13 and 14 that applies. The filler is looked at first, so that little is left to be kept beside the sum; as a `bool`
// the compiler would work it out anew for each byte of its loop.
#[tactic(auto, unfolding(crate::specs::Table::trailer_lines, crate::specs::Table::first))]
fn trailer_refusal(framed: Framed) -> Result<(), Number>
    ensures { told result ≡ first (trailer_lines framed.entry.bytes.now) }
{
    let cleared = filler_refusal(framed);
    if !data_summed(framed) {
        return Err(Number::DataSum);
    }
    cleared
}

#[tactic(auto, using(crate::proofs::Stages::sumless, units::proofs::Parts::field_one))]
fn data_summed(framed: Framed) -> bool
    ensures { result ≡ data_summed framed.entry.bytes.now }
{
    let w = framed.bytes;
    let Some(width) = Width::of(w[14]) else {
        return true;
    };
    let Layout { body, sum, .. } = framed.measure();
    let filled = &w[body..sum];
    match width {
        Width::Bits8 => w[sum] == lanes::<u8>(filled, filled.len()),
        Width::Bits16 => u16::read(w, sum) == lanes::<u16>(filled, filled.len() / 2),
        Width::Bits32 => u32::read(w, sum) == lanes::<u32>(filled, filled.len() / 4),
    }
}

// 14, where it applies.
fn filler_refusal(framed: Framed) -> Result<(), Number>
    ensures { told result ≡ pick (filler_ok framed.entry.bytes.now) 0 14 }
{
    let Layout { filler, sum, .. } = framed.measure();
    if all_zero(&framed.bytes[filler..sum]) {
        Ok(())
    } else {
        Err(Number::Filler)
    }
}
