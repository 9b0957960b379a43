// 02 §13's promises are theorems: specs/Renewal.antt, on the definitions that the contracts of the renewal table's calls cite. The functions
// here tie them to the code: each makes one public call, and promises of it what specs/Calls.antt says, and of its table what the theorems
// ask for: 64 rows. So every theorem applies to every run.
#![tactic(auto)]

ghost use Rattle.std.specs.Prelude.{◌≡◌, length};
ghost use Rattle.renewal_promises.specs.Calls.{Empty, Next, Add, Renew};

use renewal::{Renewed, Table, add, empty, next_live, renew};
use terms::Refusal;

pub fn starts_empty() -> Table
    ensures { Empty result }
{
    empty()
}

pub fn finds_next(table: &Table, from: usize) -> usize
    ensures next { Next table.now from result }
    ensures table_len { length table.now ≡ 64 }
{
    next_live(table, from)
}

pub fn adds_entry(
    table: &mut Table,
    store: &mut [u8],
    recording: u64,
    place: u64,
    buf: &[u8],
    start: usize,
    end: usize,
) -> Result<usize, Refusal>
    ensures add { Add table.old store.old recording place buf.now start end result table.new store.new }
    ensures table_len { length table.old ≡ 64 }
{
    add(table, store, recording, place, buf, start, end)
}

pub fn renews_entry(
    table: &mut Table,
    store: &[u8],
    recording: u64,
    place: u64,
    buf: &[u8],
    start: usize,
    end: usize,
) -> Result<Renewed, Refusal>
    ensures renew { Renew table.old store.now recording place buf.now start end result table.new }
    ensures table_len { length table.old ≡ 64 }
{
    renew(table, store, recording, place, buf, start, end)
}
