// What a packet is framed in: its headers, lengths, sums and filler, but not its body's inside.
// A window's bytes are taken from the packet's first on; places are counted from it.
#![tactic(auto)]

pub mod framed;
pub mod head;
pub mod rules;
pub mod sums;
pub mod table;

// What a packet holds but for its body, and what a writer is told: the primary header's numbers that are not worked out, and
// the secondary header's time (0 if absent). A type or version is any byte, also one that the rules refuse (`value_lines`).
#[derive(Clone, Copy)]
pub struct Fields {
    pub channel: u16,
    pub version: u8,
    pub sequence: u8,
    pub flags: u8,
    pub kind: u8,
    pub rtc: u64,
    pub time: u64,
}

// Where body, filler and sum begin.
#[derive(Clone, Copy)]
pub struct Layout {
    pub body: usize,
    pub filler: usize,
    pub sum: usize,
}
