// One block, and the walk over all blocks of a body.
ghost use Rattle.std.specs.Prelude.{ℕ, ◌≡◌, ◌+◌, ◌^◌, ◌≤◌, ◌<◌, length};
ghost use Rattle.body.specs.Kinds.{type_of};
ghost use Rattle.body.specs.inner.Walks.{faulted, reached, walked, answered};
ghost use Rattle.body.specs.Walk.{stamp_length, head_at, block_end, judge, block_at, stop_at, walk};
ghost use Rattle.body.specs.Answers.{check_body};

use crate::opening::open_body;
use crate::{Form, Kind, Message, Shape};
use terms::time::TimeTest;
use terms::{Reason, Refusal, TimeRule, fault, fault_number};
use units::{InBytes, all_zero};

// What the head of a block at `at` says.
#[tactic(auto, unfolding(crate::specs::Walk::head_at, crate::specs::Walk::stamp_length))]
pub fn head_at(body: &[u8], at: usize, form: Form) -> Message
    requires { at + stamp_length form + 4 ≤ length body.now }
    ensures { result ≡ head_at form body.now at }
{
    match form {
        Form::Stamped => {
            let time = u64::read(body, at);
            let id = u32::read(body, at + 8);
            Message {
                time,
                id,
                start: at + 8 + 4,
                length: form.length_by(id),
            }
        }
        Form::Plain => {
            let id = u32::read(body, at);
            Message {
                time: 0,
                id,
                start: at + 4,
                length: form.length_by(id),
            }
        }
    }
}

// The place behind a block, by what its head says.
pub fn block_end(m: Message) -> usize
    requires { block_end m < 2 ^ 64 }
    ensures { result ≡ block_end m }
{
    m.start + m.length + m.length % 2
}

// The place behind a block, by what its head says, or the rule that it breaks. The time is looked at first, and told of after the
// cut: the other way the compiler keeps what the cut says beside the walk (docs/DECISIONS.md, "Speed").
#[tactic(auto, unfolding(crate::specs::Walk::judge))]
fn judge_block(body: &[u8], test: TimeTest, m: Message) -> Result<usize, Reason>
    requires { (m.start ≤ length body.now) × (m.length < 2 ^ 16) }
    ensures { (at : ℕ) → faulted at result ≡ reached (judge test.rule body.now at m) }
{
    let pad = m.start + m.length;
    let next = block_end(m);
    let cut = body.len() < next;
    if !test.passes(m.time) {
        if cut {
            return Err(Reason::CutShort);
        }
        return Err(Reason::Time);
    }
    if cut {
        return Err(Reason::CutShort);
    }
    if m.length == 0 {
        return Err(Reason::LengthZero);
    }
    if !all_zero(&body[pad..next]) {
        return Err(Reason::Pad);
    }
    Ok(next)
}

// The place behind the block at `at`, or the rule that it breaks.
#[tactic(auto, unfolding(crate::specs::Walk::block_at, crate::specs::Walk::head_at))]
fn next_block(body: &[u8], at: usize, shape: Shape, test: TimeTest) -> Result<usize, Reason>
    requires test_value { test.rule ≡ shape.rule }
    requires at_in_bounds { at ≤ length body.now }
    ensures { faulted at result ≡ reached (block_at shape body.now at) }
{
    let form = shape.form;
    if body.len() < at + form.stamp_length() + 4 {
        if body.len() <= at {
            return Err(Reason::Missing);
        }
        return Err(Reason::CutShort);
    }
    judge_block(body, test, head_at(body, at, form))
}

// Whether no more blocks are to come after k, where the next would stand at `at`.
#[tactic(auto, unfolding(crate::specs::Walk::stop_at))]
fn stop_at(shape: Shape, len: usize, k: usize, at: usize) -> bool
    ensures { result ≡ stop_at shape len k at }
{
    match shape.count {
        Some(count) => count <= k,
        None => (0 < k) & (len <= at),
    }
}

// The number of blocks behind the channel word, or the first fault. A `while`, since the count or the place ends it, and both are
// in what it tells.
fn count_blocks(body: &[u8], shape: Shape) -> Result<usize, Refusal>
    requires { 4 ≤ length body.now }
    ensures { result ≡ walk shape body.now }
{
    let test = TimeTest::from(shape.rule);
    let mut k: usize = 0;
    let mut at: usize = 4;
    while !stop_at(shape, body.len(), k, at) {
        at = next_block(body, at, shape, test).map_err(|reason| fault(at, reason))?;
        k += 1;
    }
    if at == body.len() {
        Ok(k)
    } else {
        Err(fault(at, Reason::LeftOver))
    }
}

// The messages of a body of an opened type, or its first fault.
fn walk_shape(body: &[u8], kind: Kind, rule: TimeRule) -> Result<usize, Refusal>
    ensures { result ≡ check_body (type_of kind) rule body.now }
{
    let shape = open_body(body, kind, rule).ok_or(fault(0, Reason::ChannelWord))?;
    count_blocks(body, shape)
}

// A walk's answer in two numbers, which are returned in registers: 0 and how many messages there are; or the reason of the first
// fault and its place. A `Result` is returned through memory: tried, 30 instructions more for each body, 10 % of 40-byte-uart.
#[derive(Clone, Copy)]
struct Walked {
    reason: u8,
    number: usize,
}

impl From<Result<usize, Refusal>> for Walked {
    ghost from_gives = { λ answer w. w ≡ walked answer };

    fn from(answer: Result<usize, Refusal>) -> Walked {
        match answer {
            Ok(number) => Walked { reason: 0, number },
            Err(f) => Walked {
                reason: f.reason,
                number: f.place,
            },
        }
    }
}

impl Walked {
    fn answer(self) -> Result<usize, Refusal>
        ensures { result ≡ answered self }
    {
        if self.reason == 0 {
            return Ok(self.number);
        }
        Err(fault_number(self.number, self.reason))
    }
}

// The one copy of the walk in the library.
#[inline(never)]
fn walk_whole(body: &[u8], kind: Kind, rule: TimeRule) -> Walked
    ensures { result ≡ walked (check_body (type_of kind) rule body.now) }
{
    Walked::from(walk_shape(body, kind, rule))
}

// The walk over a body of an opened type: the number of its messages, or its first fault.
#[inline(always)]
pub fn walk_body(body: &[u8], kind: Kind, rule: TimeRule) -> Result<usize, Refusal>
    ensures { result ≡ check_body (type_of kind) rule body.now }
{
    walk_whole(body, kind, rule).answer()
}
