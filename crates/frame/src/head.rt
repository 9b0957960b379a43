// The sync bytes, and the data sum as it is stored.
ghost use Rattle.std.specs.Prelude.{◌≡◌, ◌+◌, ◌≤◌, length};
ghost use Rattle.units.specs.Units.{field, splice};
ghost use Rattle.frame.specs.Sums.{code_in, sum_width};
ghost use Rattle.frame.specs.Rules.{synced};
ghost use Rattle.frame.specs.Header.{sync};

use crate::sums::Width;
use units::{InBytes, copy_at};

// The sync bytes in their order (11.2.1.1 a).
const SYNC: [u8; 2] = [0x25, 0xEB];

pub fn synced(w: &[u8]) -> bool
    requires { 2 ≤ length w.now }
    ensures { result ≡ synced w.now }
{
    (w[0] == SYNC[0]) & (w[1] == SYNC[1])
}

pub fn put_sync(out: &mut [u8])
    requires { 2 ≤ length out.old }
    ensures { out.new ≡ splice out.old 0 sync }
{
    copy_at(out, 0, &SYNC);
}

// The data sum in the bytes from `at` on; 0 if there is none.
#[tactic(auto, using(units::proofs::Parts::field_one), unfolding(units::specs::Units::num))]
pub fn read_sum(w: &[u8], at: usize, width: Option<Width>) -> u32
    requires { at + sum_width (code_in width) ≤ length w.now }
    ensures { result ≡ field w.now at (sum_width (code_in width)) }
{
    match width {
        Some(Width::Bits8) => w[at] as u32,
        Some(Width::Bits16) => u16::read(w, at) as u32,
        Some(Width::Bits32) => u32::read(w, at),
        None => 0,
    }
}
