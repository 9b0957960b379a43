// Opened bodies: how many messages a body holds, one by its number, and all their places.
// A body is taken with its type and the rule of its time stamps; places are counted from its first byte.
#![tactic(auto)]

ghost use Rattle.std.specs.Prelude.{◌≡◌, ◌+◌, ◌≤◌, ◌^◌, length, false, MatchResult};
ghost use Rattle.body.specs.declared.Unlisted.TheVariants.{Faulty};
ghost use Rattle.body.specs.Kinds.{type_of};
ghost use Rattle.body.specs.Walk.{opens, stamp_length, length_by};
ghost use Rattle.body.specs.Answers.{check_body, message_at, list_of, message_in, filled_after, starts_of, lengths_of};

mod list;
pub mod opening;
pub mod walk;

use list::Messages;
use terms::{Refusal, TimeRule};
use walk::walk_body;

// The types that are opened.
#[derive(Clone, Copy)]
pub enum Kind {
    Message = 0x30,
    Uart = 0x50,
}

impl TryFrom<u8> for Kind {
    type Error = ();

    ghost try_from_gives = { λ kind opened. MatchResult opened (λ k. type_of k ≡ kind) (λ _. opens kind ≡ false) };

    fn try_from(kind: u8) -> Result<Kind, ()> {
        match kind {
            0x30 => Ok(Kind::Message),
            0x50 => Ok(Kind::Uart),
            _ => Err(()),
        }
    }
}

// How a block is formed, which is all that differs between the blocks of the opened types: without a time stamp ahead of its ID
// word, or with one.
#[derive(Clone, Copy)]
pub enum Form {
    Plain,
    Stamped,
}

#[tactic(auto, unfolding(crate::specs::Walk::stamp_length, crate::specs::Walk::length_by))]
impl Form {
    // The bytes of a block's time stamp.
    pub fn stamp_length(self) -> usize
        ensures { (result ≡ stamp_length self) × (result ≤ 8) }
    {
        match self {
            Form::Stamped => 8,
            Form::Plain => 0,
        }
    }

    // n, by the ID word: its bits 15-0, in either form.
    fn length_by(self, id: u32) -> usize
        ensures { result ≡ length_by self id }
    {
        (id % 0x1_0000) as usize
    }
}

// What the channel word says of the blocks behind it: their form, how many there are (none said: one or more, to the end of the
// body), and the rule of their times.
#[derive(Clone, Copy)]
pub struct Shape {
    pub form: Form,
    pub count: Option<usize>,
    pub rule: TimeRule,
}

// One message: its time (0 if none is stored), its ID word, and the place and number of its bytes.
#[derive(Clone, Copy)]
pub struct Message {
    pub time: u64,
    pub id: u32,
    pub start: usize,
    pub length: usize,
}

// Why no message is listed: the body's refusal, or the number that there is no room for (16).
#[derive(Clone, Copy)]
pub enum Unlisted {
    Faulty(Refusal),
    NoRoom(usize),
}

impl From<Refusal> for Unlisted {
    ghost from_gives = { λ refusal unlisted. unlisted ≡ Faulty refusal };

    fn from(refusal: Refusal) -> Unlisted {
        Unlisted::Faulty(refusal)
    }
}

// The number of messages of a body, 0 for a type that isn't opened, or refusal 15 with its place and reason.
// Body, type and rule stay apart here and below: what is made of them together is `Messages`.
#[tactic(auto, unfolding(crate::specs::Answers::check_body, crate::specs::Walk::open_body))]
pub fn check_body(body: &[u8], kind: u8, rule: TimeRule) -> Result<usize, Refusal>
    ensures { result ≡ check_body kind rule body.now }
{
    let Ok(kind) = Kind::try_from(kind) else {
        return Ok(0);
    };
    walk_body(body, kind, rule)
}

// The message of this number, from 0; none where there are fewer.
pub fn message_at(
    body: &[u8],
    kind: u8,
    rule: TimeRule,
    number: usize,
) -> Result<Option<Message>, Refusal>
    ensures { result ≡ message_at kind rule body.now number }
{
    let mut all = Messages::of(body, kind, rule)?;
    if all.left() <= number {
        return Ok(None);
    }
    Ok(all.nth(number))
}

// Fills two lists with the start of each message, counted from `base` bytes ahead of the body, and its length.
// Starts are 32-bit numbers, so the body ends within 2^32 bytes of where they are counted from.
// All is counted first, so that the lists stay untouched unless there is room for all. Two lists, since C lends two.
pub fn list_messages(
    body: &[u8],
    base: usize,
    kind: u8,
    rule: TimeRule,
    starts: &mut [u32],
    lengths: &mut [u32],
) -> Result<usize, Unlisted>
    requires { base + length body.now ≤ 2 ^ 32 }
    ensures value { result ≡ list_of kind rule body.now (length starts.old) (length lengths.old) }
    ensures starts_after { starts.new ≡ filled_after result (starts_of base (message_in kind rule body.now)) starts.old }
    ensures lengths_after { lengths.new ≡ filled_after result (lengths_of (message_in kind rule body.now)) lengths.old }
{
    let all = Messages::of(body, kind, rule)?;
    let n = all.left();
    if starts.len().min(lengths.len()) < n {
        return Err(Unlisted::NoRoom(n));
    }
    for (k, m) in all.enumerate() {
        starts[k] = (base + m.start) as u32;
        lengths[k] = m.length as u32;
    }
    Ok(n)
}
