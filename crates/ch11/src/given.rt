// The writer and the builder's steps on what they are given as words.
ghost use Rattle.std.specs.Prelude.{Err, Some, None, ◌≡◌, not, ◌||◌, ◌≤◌, length, ltb};
ghost use Rattle.units.specs.Choice.{pick};
ghost use Rattle.units.specs.Units.{bytes_of};
ghost use Rattle.body.specs.Blocks.{block_bytes};
ghost use Rattle.builder.specs.Build.{form_of, open_step, open_word, entry_of, close_step, counter_bytes, buf_after, step_told};
ghost use Rattle.frame.specs.Contents.{contents};
ghost use Rattle.packet_bytes.specs.Bytes.{packet_bytes};
ghost use Rattle.packet.specs.Write.{out_after};
ghost use Rattle.ch11_words.specs.Words.{draft_words};
ghost use Rattle.ch11.specs.Given.{fields_of, fields_fit, write_given, draft_of, add_given};

use builder::Draft;
use ch11_words::{DRAFT, FIELDS, REFUSAL, put_refusal, step_words};
use frame::Fields;
use packet::write_packet;
use terms::{Number, Refusal, refuse};

// The fields in these words, where each can hold its word. No `TryFrom`: the type is another crate's, the words are an array; and one test
// for all, since with a `try_from` for each every field would leave by a way of its own.
fn fields_of(ws: &[u64; FIELDS]) -> Option<Fields>
    ensures { result ≡ pick (not (fields_fit (fields_of ws.now))) None (Some (fields_of ws.now)) }
{
    if (ws[0] < 65536) & (ws[1] < 256) & (ws[2] < 256) & (ws[3] < 256) & (ws[4] < 256) {
        return Some(Fields {
            channel: ws[0] as u16,
            version: ws[1] as u8,
            sequence: ws[2] as u8,
            flags: ws[3] as u8,
            kind: ws[4] as u8,
            rtc: ws[5],
            time: ws[6],
        });
    }
    None
}

// Writes a packet; first 17 where a field can't hold its word.
pub fn write_given(ws: &[u64; FIELDS], body: &[u8], out: &mut [u8]) -> Result<usize, Refusal>
    ensures value { result ≡ write_given (contents (fields_of ws.now) body.now) (length out.old) }
    ensures out_after { out.new ≡ out_after result out.old (packet_bytes (contents (fields_of ws.now) body.now)) }
{
    match fields_of(ws) {
        Some(fields) => write_packet(fields, body, out),
        None => Err(refuse(Number::Range, 0)),
    }
}

// The words of a refused step: this refusal, and the state as it was given.
fn denied_words(f: Refusal, ws: [u64; DRAFT]) -> [u64; DRAFT]
    ensures { result ≡ draft_words (step_told (Err (f, draft_of ws))) }
{
    let mut words = ws;
    put_refusal(&mut words, f);
    words
}

// Whether a type or a time rule is over 255, and so none that opening takes.
fn over_byte(kind: u64, rule: u64) -> bool
    ensures { result ≡ (ltb 255 kind || ltb 255 rule) }
{
    (255 < kind) | (255 < rule)
}

// The state in these words, where its type and time rule fit.
fn draft_of(ws: [u64; DRAFT]) -> Option<Draft>
    ensures { result ≡ pick (ltb 255 (draft_of ws).kind || ltb 255 (draft_of ws).rule) None (Some (draft_of ws)) }
{
    if over_byte(ws[REFUSAL + 2], ws[REFUSAL + 3]) {
        return None;
    }
    Some(Draft {
        used: ws[REFUSAL] as usize,
        blocks: ws[REFUSAL + 1],
        kind: ws[REFUSAL + 2] as u8,
        rule: ws[REFUSAL + 3] as u8,
    })
}

// Opens a body. The state in these words has no say, and is handed back on a refusal.
pub fn open_given(ws: [u64; DRAFT], buf: &mut [u8], kind: u64, rule: u64) -> [u64; DRAFT]
    ensures value { result ≡ draft_words (step_told (open_step (draft_of ws) kind rule (length buf.old))) }
    ensures buf_after { buf.new ≡ buf_after (open_step (draft_of ws) kind rule (length buf.old)) buf.old 0 (bytes_of 4 (open_word kind rule)) }
{
    if over_byte(kind, rule) {
        return denied_words(refuse(Number::Range, 0), ws);
    }
    let step = Draft::fresh().open(buf, kind as u8, rule as u8);
    match step {
        Ok(_) => step_words(step),
        Err((f, _)) => denied_words(f, ws),
    }
}

// How many of n bytes adding is given: none beside an upper half that does not fit.
fn bytes_beside(upper: u64, n: usize) -> usize
    ensures value { result ≡ pick (ltb 65535 upper) 0 n }
    ensures upper_bound { result ≤ n }
{
    if 65535 < upper { 0 } else { n }
}

// Adds a block; an upper half that does not fit is refused as a block of no bytes is: 1, then 17.
pub fn add_given(
    ws: [u64; DRAFT],
    buf: &mut [u8],
    time: u64,
    upper: u64,
    bytes: &[u8],
) -> [u64; DRAFT]
    ensures value { result ≡ draft_words (step_told (add_given (draft_of ws) (length buf.old) time upper (length bytes.now))) }
    ensures buf_after { buf.new ≡ buf_after (add_given (draft_of ws) (length buf.old) time upper (length bytes.now)) buf.old (draft_of ws).used (block_bytes (form_of (draft_of ws)) (entry_of time upper bytes.now)) }
{
    match draft_of(ws) {
        Some(draft) => {
            let n = bytes_beside(upper, bytes.len());
            step_words(draft.add(buf, time, (upper % 0x1_0000) as u16, &bytes[0..n]))
        }
        None => denied_words(refuse(Number::State, 0), ws),
    }
}

// Closes a body.
pub fn close_given(ws: [u64; DRAFT], buf: &mut [u8]) -> [u64; DRAFT]
    ensures value { result ≡ draft_words (step_told (close_step (draft_of ws) (length buf.old))) }
    ensures buf_after { buf.new ≡ buf_after (close_step (draft_of ws) (length buf.old)) buf.old 0 (counter_bytes (draft_of ws)) }
{
    match draft_of(ws) {
        Some(draft) => step_words(draft.close(buf)),
        None => denied_words(refuse(Number::State, 0), ws),
    }
}
