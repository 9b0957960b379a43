// The three sums of a packet.
ghost use Rattle.std.specs.Prelude.{◌≡◌, ◌+◌, ◌*◌, ◌-◌, ◌≤◌, length, MatchOption};
ghost use Rattle.units.specs.Units.{bytes_of, checksum, part, splice};
ghost use Rattle.frame.specs.Sums.{code_of, sum_width, data_sum};
ghost use Rattle.frame.specs.Header.{sum_code};

use units::{InBytes, lanes, sum};

// The words of a header ahead of its own sum.
pub const HEADER_WORDS: usize = 11;

pub const SECONDARY_WORDS: usize = 5;

// The sum of the first N words of a header, added where they are lent: nothing is copied (02 §3).
pub fn header_sum<const N: usize>(header: &[u8]) -> u16
    requires { 2 * N ≤ length header.now }
    ensures { result ≡ checksum 2 N header.now }
{
    sum(header, N)
}

// The data sum's width.
#[derive(Clone, Copy)]
pub enum Width {
    Bits8,
    Bits16,
    Bits32,
}

impl Width {
    // By bits 1-0 of the flags, where there is a data sum.
    pub fn of(flags: u8) -> Option<Width>
        ensures { MatchOption result (sum_code flags ≡ 0) (λ width. code_of width ≡ sum_code flags) }
    {
        match flags % 4 {
            1 => Some(Width::Bits8),
            2 => Some(Width::Bits16),
            3 => Some(Width::Bits32),
            _ => None,
        }
    }
}

// Writes the data sum of the bytes from `at` on up to `end`, behind them.
pub fn put_data_sum(out: &mut [u8], at: usize, end: usize, width: Width)
    requires { (at ≤ end) × (end + sum_width (code_of width) ≤ length out.old) }
    ensures { out.new ≡ splice out.old end (bytes_of (sum_width (code_of width)) (data_sum (code_of width) (part out.old at (end - at)))) }
{
    let filled = &out[at..end];
    match width {
        Width::Bits8 => {
            let sum = lanes::<u8>(filled, filled.len());
            out[end] = sum;
        }
        Width::Bits16 => {
            let sum = lanes::<u16>(filled, filled.len() / 2);
            u16::put(out, end, sum);
        }
        Width::Bits32 => {
            let sum = lanes::<u32>(filled, filled.len() / 4);
            u32::put(out, end, sum);
        }
    }
}
