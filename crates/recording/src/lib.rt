// A whole recording: packets one behind the other in a window.
#![tactic(auto)]

ghost use Rattle.std.specs.Prelude.{◌≡◌, true};
ghost use Rattle.packet.specs.Read.{inside};
ghost use Rattle.recording.specs.Reading.{read_recording};

use packet::{Placed, pass_bytes, window_bytes};
use terms::{Refusal, no_refusal, recorded};

// What the reading of a recording gives, never zeroed: the number of packets accepted, the place reached (the first byte of the
// refused packet, or the end), in the buffer and in the recording, and the refusal as the one-packet reader gave it, with its own
// places; all 0 at the exact end, as the theorems have it (`HandsOut`, `Recorded`).
#[derive(Clone, Copy)]
pub struct Recording {
    pub accepted: usize,
    pub reached: usize,
    pub recording_reached: u64,
    pub refusal: Refusal,
}

// Reads the packets of a window from its start, each at the end of the one before; the first that is refused ends the reading.
// A window outside its buffer, or one whose end would pass 2^64 - 1 in the recording: none, the start, and refusal 1 there. An empty
// window in its buffer: none, the start, no refusal.
pub fn read_recording(buf: &[u8], start: usize, end: usize, base: u64) -> Recording
    ensures { result ≡ read_recording buf.now start end base }
{
    match window_bytes(buf, start, end, base) {
        Ok(_) => read_packets(buf, start, end, base),
        Err(refusal) => Recording {
            accepted: 0,
            reached: start,
            recording_reached: base,
            refusal,
        },
    }
}

// The packets of a window that is in its buffer. Each stands where the one before ends, and the place outlives the loop: an iterator would
// keep the same place, count and end.
fn read_packets(buf: &[u8], start: usize, end: usize, base: u64) -> Recording
    requires { inside buf.now start end base ≡ true }
    ensures { result ≡ read_recording buf.now start end base }
{
    let mut accepted = 0;
    let mut at = start;
    while at < end {
        match pass_bytes(Placed {
            bytes: &buf[at..end],
            at,
        }) {
            Ok(length) => {
                accepted += 1;
                at += length as usize;
            }
            Err(refusal) => {
                return Recording {
                    accepted,
                    reached: at,
                    recording_reached: base + (at - start) as u64,
                    refusal: recorded(refusal, start, base),
                };
            }
        }
    }
    Recording {
        accepted,
        reached: at,
        recording_reached: base + (at - start) as u64,
        refusal: no_refusal(),
    }
}
