// What the table takes from the reader.
ghost use Rattle.std.specs.Prelude.{◌≡◌};
ghost use Rattle.packet.specs.Read.{read_packet};
ghost use Rattle.renewal.specs.inner.Passing.{pass_of};

use packet::{pass_bytes, window_bytes};
use terms::{Refusal, recorded};

// The length of the packet at the start of a window, or the reader's refusal: packet::read_packet without the record. Inlined: out of line
// adding and renewing take up to 16 % more.
#[inline(always)]
pub fn pass_window(buf: &[u8], start: usize, end: usize, base: u64) -> Result<u32, Refusal>
    ensures { result ≡ pass_of (read_packet buf.now start end base) }
{
    let w = window_bytes(buf, start, end, base)?;
    match pass_bytes(w) {
        Ok(length) => Ok(length),
        Err(refusal) => Err(recorded(refusal, start, base)),
    }
}
