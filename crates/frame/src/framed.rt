// A window that begins with a whole packet: what it holds, and where its parts stand.
ghost use Rattle.std.specs.Prelude.{◌≡◌, [], length, MatchOption};
ghost use Rattle.frame.specs.Header.{secondary_in, data_sum_in, time_in, fields_in};
ghost use Rattle.frame.specs.inner.Lengths.{Sound, Measured};

use crate::head::read_sum;
use crate::rules::{body_at, sum_length};
use crate::sums::Width;
use crate::{Fields, Layout};
use units::{InBytes, read48};

// Its bytes, after 2 to 10 of the table: all the packet's declared parts are in them.
#[derive(Clone, Copy)]
pub struct Framed<'a> {
    pub bytes: &'a [u8],
    pub ghost sound: { Sound bytes.now },
}

impl<'a> Framed<'a> {
    // Where body, filler and sum begin.
    pub fn measure(self) -> Layout
        ensures { Measured self.entry.bytes.now result }
    {
        let w = self.bytes;
        let flags = w[14];
        let body = body_at(flags);
        let p = u32::read(w, 4) as u64;
        let d = u32::read(w, 8) as u64;
        Layout {
            body: body as usize,
            filler: (body + d) as usize,
            sum: (p - sum_length(flags)) as usize,
        }
    }

    // The header's numbers that are not worked out, and the secondary time.
    pub fn fields(self) -> Fields
        ensures { result ≡ fields_in self.entry.bytes.now }
    {
        let w = self.bytes;
        Fields {
            channel: u16::read(w, 2),
            version: w[12],
            sequence: w[13],
            flags: w[14],
            kind: w[15],
            rtc: read48(w, 16),
            time: self.time(),
        }
    }

    // The data sum as stored, 0 if absent.
    #[tactic(auto, using(crate::proofs::Stages::no_stored))]
    pub fn stored_sum(self) -> u32
        ensures { result ≡ data_sum_in self.entry.bytes.now }
    {
        read_sum(self.bytes, self.measure().sum, Width::of(self.bytes[14]))
    }

    // The secondary header, if there is one.
    pub fn secondary(self) -> Option<&'a [u8]>
        ensures { MatchOption result (secondary_in self.entry.bytes.now ≡ []) (λ s. (s.now ≡ secondary_in self.entry.bytes.now) × (length s.now ≡ 12)) }
    {
        if self.bytes[14] / 128 % 2 == 0 {
            return None;
        }
        Some(&self.bytes[24..36])
    }

    // The secondary time, 0 if absent.
    #[tactic(auto, using(crate::proofs::Stages::none_in))]
    fn time(self) -> u64
        ensures { result ≡ time_in self.entry.bytes.now }
    {
        match self.secondary() {
            Some(secondary) => u64::read(secondary, 0),
            None => 0,
        }
    }
}
