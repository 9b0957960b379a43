// The structs of include/ch11.h: an answer as the words of its struct, the refusal's first, then its own. Functions, no `From`: the types
// are other crates', and the words arrays. Their matches differ in the words that they set, and no two take the same value.
#![tactic(auto)]

ghost use Rattle.std.specs.Prelude.{Ok, Err, ◌≡◌, ◌+◌, ◌-◌, ◌≤◌, ◌++◌, length, replicate};
ghost use Rattle.units.specs.Units.{splice};
ghost use Rattle.builder.specs.Build.{step_told};
ghost use Rattle.packet.specs.Read.{packet_told};
ghost use Rattle.packet.specs.Messages.{list_told, message_told};
ghost use Rattle.packet.specs.Write.{write_told};
ghost use Rattle.ch11_words.specs.Words.{refusal_size, refusal_words, packet_words, list_words, message_words, recording_words, written_words, state_words, draft_words, added_words, renewed_words};
ghost use Rattle.renewal.specs.Renewal.{add_told, renew_told};
ghost use Rattle.renewal.specs.declared.Renewed.TheVariants.{Lives, Dropped};

use body::Message;
use builder::Draft;
use packet::Packet;
use recording::Recording;
use terms::Refusal;

// The words of each struct of include/ch11.h.
pub const REFUSAL: usize = 5;

pub const FIELDS: usize = 7;

pub const PACKET: usize = REFUSAL + FIELDS + 15;

// Of the structs that are a refusal and a number.
pub const COUNT: usize = REFUSAL + 1;

pub const LIST: usize = COUNT;

pub const WRITTEN: usize = COUNT;

pub const ADDED: usize = COUNT;

pub const MESSAGE: usize = REFUSAL + 4;

pub const RECORDING: usize = REFUSAL + 3;

pub const DRAFT: usize = REFUSAL + 4;

pub const RENEWED: usize = REFUSAL + 1 + REFUSAL;

// struct ch11_refusal, the first words of every other struct.
pub fn put_refusal(words: &mut [u64], f: Refusal)
    requires { refusal_size ≤ length words.old }
    ensures { words.new ≡ splice words.old 0 (refusal_words f) }
{
    words[0] = f.number as u64;
    words[1] = f.place as u64;
    words[2] = f.room as u64;
    words[3] = f.reason as u64;
    words[4] = f.recording_place;
}

// A struct of N words of a refusal: all others are 0.
fn refusal_alone<const N: usize>(f: Refusal) -> [u64; N]
    requires { refusal_size ≤ N }
    ensures { result ≡ refusal_words f ++ replicate (N - refusal_size) 0 }
{
    let mut words = [0; N];
    put_refusal(&mut words, f);
    words
}

// struct ch11_packet of an accepted packet.
pub fn packet_words(p: Packet) -> [u64; PACKET]
    ensures { result ≡ packet_words (packet_told (Ok p)) }
{
    [
        0,
        0,
        0,
        0,
        0,
        p.fields.channel as u64,
        p.fields.version as u64,
        p.fields.sequence as u64,
        p.fields.flags as u64,
        p.fields.kind as u64,
        p.fields.rtc,
        p.fields.time,
        p.length as u64,
        p.data_length as u64,
        p.header_sum as u64,
        p.data_sum as u64,
        p.recording_place,
        p.header.at as u64,
        p.header.length as u64,
        p.secondary.at as u64,
        p.secondary.length as u64,
        p.body.at as u64,
        p.body.length as u64,
        p.filler.at as u64,
        p.filler.length as u64,
        p.sum.at as u64,
        p.sum.length as u64,
    ]
}

// struct ch11_packet of a refusal. Apart from the accepted packet's: a struct made of both would be copied.
pub fn refused_words(f: Refusal) -> [u64; PACKET]
    ensures { result ≡ packet_words (packet_told (Err f)) }
{
    refusal_alone(f)
}

// struct ch11_list, ch11_written and ch11_added: a number behind the refusal.
pub fn count_words(answer: Result<usize, Refusal>) -> [u64; COUNT]
    ensures list { result ≡ list_words (list_told answer) }
    ensures written { result ≡ written_words (write_told answer) }
    ensures added { result ≡ added_words (add_told answer) }
{
    let mut words = [0; COUNT];
    match answer {
        Ok(count) => {
            words[REFUSAL] = count as u64;
            words
        }
        Err(f) => {
            put_refusal(&mut words, f);
            words
        }
    }
}

// struct ch11_message.
pub fn message_words(answer: Result<Message, Refusal>) -> [u64; MESSAGE]
    ensures { result ≡ message_words (message_told answer) }
{
    let mut words = [0; MESSAGE];
    match answer {
        Ok(m) => {
            words[REFUSAL] = m.time;
            words[REFUSAL + 1] = m.id as u64;
            words[REFUSAL + 2] = m.start as u64;
            words[REFUSAL + 3] = m.length as u64;
            words
        }
        Err(f) => {
            put_refusal(&mut words, f);
            words
        }
    }
}

// struct ch11_recording.
pub fn recording_words(answer: Recording) -> [u64; RECORDING]
    ensures { result ≡ recording_words answer }
{
    let f = answer.refusal;
    let mut words = [0; RECORDING];
    put_refusal(&mut words, f);
    words[REFUSAL] = answer.accepted as u64;
    words[REFUSAL + 1] = answer.reached as u64;
    words[REFUSAL + 2] = answer.recording_reached;
    words
}

// struct ch11_draft.
pub fn step_words(step: Result<Draft, (Refusal, Draft)>) -> [u64; DRAFT]
    ensures { result ≡ draft_words (step_told step) }
{
    let mut words = [0; DRAFT];
    match step {
        Ok(d) => {
            put_state(&mut words, d);
            words
        }
        Err((f, d)) => {
            put_refusal(&mut words, f);
            put_state(&mut words, d);
            words
        }
    }
}

// The state in struct ch11_draft.
fn put_state(words: &mut [u64], d: Draft)
    requires { refusal_size + 4 ≤ length words.old }
    ensures { words.new ≡ splice words.old refusal_size (state_words d) }
{
    words[REFUSAL] = d.used as u64;
    words[REFUSAL + 1] = d.blocks;
    words[REFUSAL + 2] = d.kind as u64;
    words[REFUSAL + 3] = d.rule as u64;
}

// struct ch11_renewed of an entry that lives on. Apart from the others: a struct made of all three would be copied.
pub fn lives_words() -> [u64; RENEWED]
    ensures { result ≡ renewed_words (renew_told (Ok Lives)) }
{
    let mut words = [0; RENEWED];
    words[REFUSAL] = 1;
    words
}

// struct ch11_renewed of an entry that is dropped: the reader's refusal, or none, stands last.
pub fn dropped_words(f: Refusal) -> [u64; RENEWED]
    ensures { result ≡ renewed_words (renew_told (Ok (Dropped f))) }
{
    let mut words = [0; RENEWED];
    put_refusal(&mut words[REFUSAL + 1..RENEWED], f);
    words
}

// struct ch11_renewed of a refusal.
pub fn unrenewed_words(f: Refusal) -> [u64; RENEWED]
    ensures { result ≡ renewed_words (renew_told (Err f)) }
{
    refusal_alone(f)
}
