// The rows of a table, and the slots that are looked for.
ghost use Rattle.std.specs.Prelude.{◌≡◌, ◌≤◌, length, drop, position};
ghost use Rattle.packet.specs.Read.{packet_in};
ghost use Rattle.renewal.specs.Table.{entry_of, free, live, named, home_of};
ghost use Rattle.renewal.specs.inner.Slots.{Found};

use std::marker::Model;
use units::{InBytes, read48};

// A slot's row, as C lends it: whether its entry lives (any number but 0), recording number, place, P, channel, sequence, RTC. Seven words
// in their order, so that what a contract says of the list of them holds of the memory that is lent.
#[repr(C)]
#[derive(Clone, Copy, Default, PartialEq, Eq, PartialOrd, Ord, Hash, Debug)]
pub struct Row {
    pub words: [u64; 7],
}

// Where the words stand that are looked at. LENGTH is P's.
pub const LIVE: usize = 0;

pub const RECORDING: usize = 1;

pub const PLACE: usize = 2;

pub const LENGTH: usize = 3;

impl Model for Row {
    ghost use Rattle.std.specs.Prelude.{ℕ, List};

    ghost Value = { List ℕ };

    ghost view = { λ r. r.words };

    ghost inverse = { λ ws. record { words = ws } };
}

pub type Table = [Row; 64];

impl Row {
    // That of a free slot.
    pub(crate) const FREE: Row = Row { words: [0; 7] };

    // The entry of the packet at the start of a window's bytes, which stands at this place in this recording.
    pub(crate) fn of_packet(recording: u64, place: u64, w: &[u8]) -> Row
        requires { 24 ≤ length w.now }
        ensures { result ≡ entry_of recording (packet_in w.now 0 place) }
    {
        Row {
            words: [
                1,
                recording,
                place,
                u64::from(u32::read(w, 4)),
                u64::from(u16::read(w, 2)),
                u64::from(w[13]),
                read48(w, 16),
            ],
        }
    }

    // Whether no entry lives here.
    fn is_free(&self) -> bool
        ensures { result ≡ free self.now }
    {
        self.words[LIVE] == 0
    }

    // Whether an entry of this name lives here. The place stands first: it differs most often, and the compiled search stops there.
    fn is_named(&self, recording: u64, place: u64) -> bool
        ensures { result ≡ named recording place self.now }
    {
        self.words[PLACE] == place && self.words[RECORDING] == recording && self.words[LIVE] != 0
    }
}

// Where a name is held.
pub fn slot_of(table: &Table, recording: u64, place: u64) -> Option<usize>
    ensures { result ≡ position (named recording place) table.now }
{
    table.iter().position(|row| row.is_named(recording, place))
}

// The lowest free slot.
fn free_slot(table: &Table) -> Option<usize>
    ensures { result ≡ position free table.now }
{
    table.iter().position(|row| row.is_free())
}

// The first of these rows whose entry lives.
fn first_live(rows: &[Row]) -> Option<usize>
    ensures { result ≡ position live rows.now }
{
    rows.iter().position(|row| !row.is_free())
}

// How far behind this slot the next entry that lives stands, 0 where it stands in it. By a part of the table: `skip` takes longer.
pub fn live_behind(table: &Table, from: usize) -> Option<usize>
    ensures { result ≡ position live (drop from table.now) }
{
    let rows = &table[..];
    first_live(&rows[from.min(64)..])
}

// Where a name is to be held.
#[tactic(auto, using(crate::proofs::Seeking::found_own, crate::proofs::Seeking::found_free))]
pub fn home_of(table: &Table, recording: u64, place: u64) -> Option<usize>
    ensures { Found (home_of recording place table.now) result }
{
    slot_of(table, recording, place).or_else(|| free_slot(table))
}
