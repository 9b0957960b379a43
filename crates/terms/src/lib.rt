// What the crates above answer in and judge times by: a refusal, and a time rule.
#![tactic(auto)]

ghost use Rattle.std.specs.Prelude.{◌≡◌, ◌+◌, ◌-◌, ◌^◌, ◌≤◌, ◌<◌};
ghost use Rattle.terms.specs.Numbers.{number_of, reason_of};
ghost use Rattle.terms.specs.Refusals.{no_refusal, refused, fault, needing, placed, moved, recorded};

pub mod time;

// How the times of a body's messages, or a secondary header's time, are formed.
#[derive(Clone, Copy)]
pub enum TimeRule {
    Counter,
    Chapter4,
    Ieee1588,
    Extended,
}

// Why a call says no: the numbers of document 01, and of document 02 from 18 on.
#[derive(Clone, Copy)]
pub enum Number {
    State = 1,
    Short = 2,
    Sync = 3,
    HeaderSum = 4,
    Version = 5,
    Type = 6,
    Flags = 7,
    Channel = 8,
    Length = 9,
    Cut = 10,
    SecondarySum = 11,
    Secondary = 12,
    DataSum = 13,
    Filler = 14,
    Layout = 15,
    Room = 16,
    Range = 17,
    Full = 19,
    NoEntry = 20,
    Long = 21,
}

// Which rule of its layout an opened body breaks (document 02 §2).
#[derive(Clone, Copy)]
pub enum Reason {
    ChannelWord = 1,
    CutShort = 2,
    Time = 3,
    LengthZero = 4,
    Pad = 5,
    LeftOver = 6,
    Missing = 7,
}

// A refusal: document 01's number, the reason (15; otherwise 0), the place in the buffer, the room needed (16; otherwise 0), and the
// place in the recording. The two small numbers stand together, so that there is less to copy. They stay numbers, as the theorems say
// them (promises' `Reasons`, `Endings`, `Ahead`) and C gives them; 0 is that of `no_refusal`.
#[derive(Clone, Copy)]
pub struct Refusal {
    pub number: u8,
    pub reason: u8,
    pub place: usize,
    pub room: usize,
    pub recording_place: u64,
}

// No refusal: what stands for one where an answer has its place.
pub fn no_refusal() -> Refusal
    ensures { result ≡ no_refusal }
{
    Refusal {
        number: 0,
        reason: 0,
        place: 0,
        room: 0,
        recording_place: 0,
    }
}

// A refusal of this number, at this place of the buffer.
pub fn refuse_number(number: u8, place: usize) -> Refusal
    ensures { result ≡ refused number place }
{
    Refusal {
        number,
        place,
        ..no_refusal()
    }
}

// The same, of a number by its name.
pub fn refuse(number: Number, place: usize) -> Refusal
    ensures { result ≡ refused (number_of number) place }
{
    refuse_number(number as u8, place)
}

// The same, of a number that a table of tests found.
pub fn refuse_found(number: Number, place: usize) -> Refusal
    ensures { result ≡ refused (number_of number) place }
{
    refuse_number(byte_of(number), place)
}

// A number's byte, looked up out of line: in a caller its switch keeps the compiler from inlining that (28-byte-none +32 %).
#[cold]
#[inline(never)]
fn byte_of(number: Number) -> u8
    ensures { result ≡ number_of number }
{
    number as u8
}

// 15: an opened body breaks its layout there, for the reason of this number.
pub fn fault_number(place: usize, reason: u8) -> Refusal
    ensures { result ≡ fault place reason }
{
    Refusal {
        reason,
        ..refuse(Number::Layout, place)
    }
}

// The same, of a reason by its name.
pub fn fault(place: usize, reason: Reason) -> Refusal
    ensures { result ≡ fault place (reason_of reason) }
{
    fault_number(place, reason as u8)
}

// 16: so much room is needed.
pub fn no_room(place: usize, room: usize) -> Refusal
    ensures { result ≡ needing room (refused 16 place) }
{
    Refusal {
        room,
        ..refuse(Number::Room, place)
    }
}

// The same refusal, at another place.
pub fn placed(refusal: Refusal, place: usize) -> Refusal
    ensures { result ≡ placed place refusal }
{
    Refusal { place, ..refusal }
}

// The same refusal, so many bytes on. Callers hand a refusal on by this and by `recorded` in a `match`: tried by `map_err`, where the
// proof didn't close, since a closure whose call asks something has no nameable result.
pub fn moved(refusal: Refusal, by: usize) -> Refusal
    requires { by + refusal.place < 2 ^ 64 }
    ensures { result ≡ moved by refusal }
{
    placed(refusal, by + refusal.place)
}

// The same refusal, with its place in the recording: a base plus the distance from the window's start (document 02 §9).
pub fn recorded(refusal: Refusal, start: usize, base: u64) -> Refusal
    requires start_le_place { start ≤ refusal.place }
    requires start_bound { base + (refusal.place - start) < 2 ^ 64 }
    ensures { result ≡ recorded base start refusal }
{
    Refusal {
        recording_place: base + (refusal.place - start) as u64,
        ..refusal
    }
}
