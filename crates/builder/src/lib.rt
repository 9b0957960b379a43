// The body builder: makes 0x30 (type 00) and 0x50 bodies in a lent buffer.
// A body's state goes into each step by value and comes back: the new one, or beside a refusal the one given; a refused step leaves
// the buffer as it was.
#![tactic(auto)]

ghost use Rattle.std.specs.Prelude.{◌≡◌, ◌+◌, ◌^◌, ◌<◌, ◌≤◌, length};
ghost use Rattle.units.specs.Units.{bytes_of, splice};
ghost use Rattle.body.specs.Blocks.{block_bytes};
ghost use Rattle.body.specs.Walk.{stamp_length, block_size};
ghost use Rattle.builder.specs.Build.{form_of, counts, makes, bad_draft, fresh_draft, open_step, open_word, bad_block, bad_time, stray_time, grown, add_step, entry_of, close_step, counter_bytes, buf_after};

use body::Form;
use terms::time::time_ok;
use terms::{Number, Reason, Refusal, TimeRule, fault, no_room, refuse};
use units::{InBytes, clear_at, copy_at};

// A body that is being built: its bytes used so far, its blocks, its type and its time rule
// (0 none, 1 a counter below 2^48, 2 Chapter 4, 3 IEEE 1588, 4 extended counter). Type and rule are any bytes: those that are none are
// answered with 1 and 17 (`bad_draft`, `open_step`).
#[derive(Clone, Copy)]
pub struct Draft {
    pub used: usize,
    pub blocks: u64,
    pub kind: u8,
    pub rule: u8,
}

impl Draft {
    // A blank state: nothing is open.
    pub fn fresh() -> Draft
        ensures { result ≡ fresh_draft }
    {
        Draft {
            used: 0,
            blocks: 0,
            kind: 0,
            rule: 0,
        }
    }

    // Opens a body of this type and time rule at the buffer's first byte: its channel word, counter 0.
    // 17 for another type, a reserved time format or no rule in 0x30, then 16. The state given has no say.
    pub fn open(self, buf: &mut [u8], kind: u8, rule: u8) -> Result<Draft, (Refusal, Draft)>
        ensures value { result ≡ open_step self kind rule (length buf.old) }
        ensures buf_after { buf.new ≡ buf_after result buf.old 0 (bytes_of 4 (open_word kind rule)) }
    {
        if !makes_body(kind, rule) {
            return Err((refuse(Number::Range, 0), self));
        }
        if buf.len() < 4 {
            return Err((no_room(0, 4), self));
        }
        u32::put(buf, 0, open_word(kind, rule));
        Ok(Draft {
            used: 4,
            blocks: 0,
            kind,
            rule,
        })
    }

    // Adds a block: its time (0 where none is stored), the upper half of its ID word, and its bytes.
    // 1, then 17, then 15 for a time out of form (17 for a time where none is stored), then 16.
    pub fn add(
        self,
        buf: &mut [u8],
        time: u64,
        upper: u16,
        bytes: &[u8],
    ) -> Result<Draft, (Refusal, Draft)>
        ensures value { result ≡ add_step self (length buf.old) time (length bytes.now) }
        ensures buf_after { buf.new ≡ buf_after result buf.old self.used (block_bytes (form_of self) (entry_of time upper bytes.now)) }
    {
        let added = self.judge_add(buf.len(), time, bytes.len())?;
        put_block(buf, self.used, self.form(), time, upper, bytes);
        Ok(added)
    }

    // Closes a body: writes the counter in 0x30, nothing in 0x50. 1, then 15 where there is no block.
    pub fn close(self, buf: &mut [u8]) -> Result<Draft, (Refusal, Draft)>
        ensures value { result ≡ close_step self (length buf.old) }
        ensures buf_after { buf.new ≡ buf_after result buf.old 0 (counter_bytes self) }
    {
        if self.is_bad(buf.len()) {
            return Err((refuse(Number::State, 0), self));
        }
        if self.used == 4 {
            return Err((fault(0, Reason::Missing), self));
        }
        if counts_blocks(self.kind) {
            u16::put(buf, 0, (self.blocks % 0x1_0000) as u16);
        }
        Ok(self)
    }

    // Whether the state is refused with 1, in a buffer of this length.
    fn is_bad(self, len: usize) -> bool
        ensures { result ≡ bad_draft self len }
    {
        (len < self.used)
            | (self.used < 4)
            | !makes_body(self.kind, self.rule)
            | (counts_blocks(self.kind) & (65535 < self.blocks))
    }

    // Whether a block of n bytes is refused with 17.
    fn bad_block(self, n: usize) -> bool
        ensures { result ≡ bad_block self n }
    {
        (n == 0) | (65535 < n) | (counts_blocks(self.kind) & (65535 <= self.blocks))
    }

    // The form of the body's blocks: times are stored where there is a rule.
    fn form(self) -> Form
        ensures { result ≡ form_of self }
    {
        if 0 < self.rule {
            Form::Stamped
        } else {
            Form::Plain
        }
    }

    // The used count with a block of n bytes more.
    fn used_after(self, n: usize) -> usize
        requires { (self.used < 2 ^ 63) × (n < 2 ^ 16) }
        ensures { result ≡ grown self n }
    {
        self.used + (self.form().stamp_length() + 4 + n + n % 2)
    }

    // The state after a block of n bytes is added in a buffer of this length.
    fn judge_add(self, len: usize, time: u64, n: usize) -> Result<Draft, (Refusal, Draft)>
        requires { len < 2 ^ 63 }
        ensures { result ≡ add_step self len time n }
    {
        if self.is_bad(len) {
            return Err((refuse(Number::State, 0), self));
        }
        if self.bad_block(n) {
            return Err((refuse(Number::Range, 0), self));
        }
        if bad_time(self.rule, time) {
            return Err((fault(0, Reason::Time), self));
        }
        if stray_time(self.rule, time) {
            return Err((refuse(Number::Range, 0), self));
        }
        let used = self.used_after(n);
        if len < used {
            return Err((no_room(0, used), self));
        }
        Ok(Draft {
            used,
            blocks: self.blocks.wrapping_add(1),
            ..self
        })
    }
}

// Whether opening takes this type and time rule.
fn makes_body(kind: u8, rule: u8) -> bool
    ensures { result ≡ makes kind rule }
{
    (((kind == 0x30) & (0 < rule)) | (kind == 0x50)) & (rule < 5)
}

// Whether blocks of this type are counted.
fn counts_blocks(kind: u8) -> bool
    ensures { result ≡ counts kind }
{
    kind == 0x30
}

// The channel word that opening writes.
fn open_word(kind: u8, rule: u8) -> u32
    ensures { result ≡ open_word kind rule }
{
    if (kind == 0x50) & (0 < rule) {
        0x8000_0000
    } else {
        0
    }
}

// Whether a time that is stored is out of form: 15.
fn bad_time(rule: u8, time: u64) -> bool
    ensures { result ≡ bad_time rule time }
{
    (0 < rule) & !time_ok(TimeRule::from(rule), time)
}

// Whether a time is given where none is stored: 17.
fn stray_time(rule: u8, time: u64) -> bool
    ensures { result ≡ stray_time rule time }
{
    !(0 < rule) & !(time == 0)
}

// Writes the time stamp of a block, if it has one.
fn put_stamp(buf: &mut [u8], at: usize, form: Form, time: u64)
    requires { at + stamp_length form ≤ length buf.old }
    ensures { buf.new ≡ splice buf.old at (bytes_of (stamp_length form) time) }
{
    match form {
        Form::Stamped => u64::put(buf, at, time),
        Form::Plain => (),
    }
}

// Writes a block.
fn put_block(buf: &mut [u8], at: usize, form: Form, time: u64, upper: u16, bytes: &[u8])
    requires { (length bytes.now < 2 ^ 16) × (at + block_size form (length bytes.now) ≤ length buf.old) }
    ensures { buf.new ≡ splice buf.old at (block_bytes form (entry_of time upper bytes.now)) }
{
    let head = at + form.stamp_length();
    let n = bytes.len();
    put_stamp(buf, at, form, time);
    u32::put(buf, head, (upper as u32) * 0x1_0000 + (n as u32));
    copy_at(buf, head + 4, bytes);
    clear_at(buf, head + 4 + n, n % 2);
}
