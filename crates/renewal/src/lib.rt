// The renewal table (document 02 §13): up to 64 entries, lent and changed in place as rows of words, and the packets' bytes in a lent
// store of 64 slots of 1,024 bytes. An entry's name is its recording number and place, and the place is the base of the window read.
#![tactic(auto)]

ghost use Rattle.std.specs.Prelude.{Ok, ◌≡◌, length, take, ◌≤◌, ◌<◌};
ghost use Rattle.terms.specs.Numbers.{number_of};
ghost use Rattle.packet.specs.Read.{window, packet_in, read_packet};
ghost use Rattle.renewal.specs.Table.{entry_of, empty_table, next_live, slot_of};
ghost use Rattle.renewal.specs.Renewal.{barred, store_small, put_answer, add_entry, entry_in, own_bytes, table_added, store_added, holds, judged, renew_entry, table_renewed};

use packet::window_bytes;
use terms::{Number, Refusal, no_refusal, no_room, recorded, refuse};
use units::{copy_at, equal};

mod reading;
pub mod slots;

use reading::pass_window;
pub use slots::{Row, Table};
use slots::{LENGTH, home_of, live_behind, slot_of};

// What became of an entry: it lives on; or it is dropped, with the reader's refusal or `no_refusal`, as the theorem
// `answers_dropped` tells it.
#[derive(Clone, Copy)]
pub enum Renewed {
    Lives,
    Dropped(Refusal),
}

// A table of 64 free slots.
pub fn empty() -> Table
    ensures { result ≡ empty_table }
{
    [Row::FREE; 64]
}

// The lowest slot at or behind this one whose entry lives, 64 if there is none: so C has it (ch11_renewal_next).
#[tactic(auto, using(crate::proofs::Seeking::next_found, crate::proofs::Seeking::next_none))]
pub fn next_live(table: &Table, from: usize) -> usize
    ensures { result ≡ next_live table.now from }
{
    match live_behind(table, from) {
        Some(k) => from + k,
        None => 64,
    }
}

// A refusal at the window's start, whose place in the recording is the name's.
fn bar(number: Number, start: usize, place: u64) -> Refusal
    ensures { result ≡ barred (number_of number) start place }
{
    recorded(refuse(number, start), start, place)
}

// 16, for a store under 65,536 bytes.
fn store_small(start: usize, place: u64) -> Refusal
    ensures { result ≡ store_small start place }
{
    recorded(no_room(start, 65536), start, place)
}

// Adds the packet at the start of a window's bytes, of n bytes: 21, then 19; or it goes into its slot.
#[tactic(auto, unfolding(crate::specs::Renewal::table_added, crate::specs::Renewal::store_added), using(crate::proofs::Adding::put_long, crate::proofs::Adding::put_full, crate::proofs::Adding::put_goes))]
fn put_packet(
    table: &mut Table,
    store: &mut [u8],
    recording: u64,
    place: u64,
    w: &[u8],
    start: usize,
    n: usize,
) -> Result<usize, Refusal>
    requires { (65536 ≤ length store.old) × (24 ≤ length w.now) × (n ≤ length w.now) }
    ensures value { result ≡ put_answer table.old recording place start n }
    ensures table_after { table.new ≡ table_added result table.old (entry_of recording (packet_in w.now 0 place)) }
    ensures store_after { store.new ≡ store_added result store.old (take n w.now) }
{
    if 1024 < n {
        return Err(bar(Number::Long, start, place));
    }
    let Some(k) = home_of(table, recording, place) else {
        return Err(bar(Number::Full, start, place));
    };
    copy_at(store, k * 1024, &w[0..n]);
    table[k] = Row::of_packet(recording, place, w);
    Ok(k)
}

// Adds the packet at the start of a window, which stands at this place in the recording; the answer is its slot. A name already held is
// replaced in its own slot. 16, the reader's refusals, 21 for a packet over 1,024 bytes, 19 where 64 other entries live; table and store
// are then as they were. Of the store the packet's own bytes are written and no others. Name and window stay parameters, as C gives
// them: the place is the name's and the window's base.
pub fn add(
    table: &mut Table,
    store: &mut [u8],
    recording: u64,
    place: u64,
    buf: &[u8],
    start: usize,
    end: usize,
) -> Result<usize, Refusal>
    ensures value { result ≡ add_entry table.old (length store.old) recording place buf.now start end }
    ensures table_after { table.new ≡ table_added result table.old (entry_in recording place buf.now start end) }
    ensures store_after { store.new ≡ store_added result store.old (own_bytes (window buf.now start end)) }
{
    if store.len() < 65536 {
        return Err(store_small(start, place));
    }
    let n = pass_window(buf, start, end, place)? as usize;
    put_packet(table, store, recording, place, &buf[start..end], start, n)
}

// Whether an entry of n bytes in slot k holds just these bytes. An n past 1,024 is forged. Three functions ask for k below 64 and for a
// store of 65,536 bytes: types for the two would wrap what `position` gives, and the store once as lent for writing, once for reading.
fn held(store: &[u8], k: usize, n: u64, bytes: &[u8]) -> bool
    requires { (65536 ≤ length store.now) × (k < 64) }
    ensures { result ≡ holds store.now k n bytes.now }
{
    if 1024 < n {
        return false;
    }
    if n != bytes.len() as u64 {
        return false;
    }
    let at = k * 1024;
    equal(&store[at..at + n as usize], bytes)
}

// What becomes of an entry of n bytes in slot k, by the packet at the start of a window that is in its buffer.
fn judge(
    store: &[u8],
    k: usize,
    n: u64,
    buf: &[u8],
    start: usize,
    end: usize,
    place: u64,
) -> Renewed
    requires { (65536 ≤ length store.now) × (k < 64) }
    ensures { Ok result ≡ judged (read_packet buf.now start end place) store.now k n (window buf.now start end) }
{
    match pass_window(buf, start, end, place) {
        Err(refusal) => Renewed::Dropped(refusal),
        Ok(length) => {
            if held(store, k, n, &buf[start..start + length as usize]) {
                Renewed::Lives
            } else {
                Renewed::Dropped(no_refusal())
            }
        }
    }
}

// The table after that.
#[tactic(auto, unfolding(crate::specs::Renewal::table_renewed))]
fn settle(table: &mut Table, k: usize, told: Renewed)
    requires { k < 64 }
    ensures { table.new ≡ table_renewed (Ok told) table.old k }
{
    match told {
        Renewed::Dropped(_) => table[k] = Row::FREE,
        Renewed::Lives => {}
    }
}

// Renews the entry of this name by a window as the store filled it now: it lives on exactly when the packet at the window's start is
// accepted and equals the held bytes, and is dropped otherwise. 16, then 20 where there is no such entry, then 1; the table is then as
// it was.
pub fn renew(
    table: &mut Table,
    store: &[u8],
    recording: u64,
    place: u64,
    buf: &[u8],
    start: usize,
    end: usize,
) -> Result<Renewed, Refusal>
    ensures value { result ≡ renew_entry table.old store.now recording place buf.now start end }
    ensures table_after { table.new ≡ table_renewed result table.old (slot_of recording place table.old) }
{
    if store.len() < 65536 {
        return Err(store_small(start, place));
    }
    let Some(k) = slot_of(table, recording, place) else {
        return Err(bar(Number::NoEntry, start, place));
    };
    window_bytes(buf, start, end, place)?;
    let row = &table[k];
    let told = judge(store, k, row.words[LENGTH], buf, start, end, place);
    settle(table, k, told);
    Ok(told)
}
