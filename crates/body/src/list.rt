// The messages of a body, one behind the other.
ghost use Rattle.std.specs.Prelude.{Ok, Err, ◌≡◌, true, MatchResult};
ghost use Rattle.std.specs.Iterator.{YieldsFirst, at_most};
ghost use Rattle.body.specs.Answers.{check_body, message_in, tab};
ghost use Rattle.body.specs.inner.Heads.{heads, all_whole};

use crate::opening::form_in;
use crate::walk::{block_end, head_at, walk_body};
use crate::{Form, Kind, Message};
use terms::{Refusal, TimeRule};

// The messages still to come, so many: their blocks are whole, so that each head tells the way to the next.
#[derive(Clone, Copy)]
pub struct Messages<'a> {
    body: &'a [u8],
    form: Form,
    at: usize,
    left: usize,
    ghost whole: { all_whole form body.now at left ≡ true },
}

impl<'a> Messages<'a> {
    // All messages of a body of this type and time rule; none of a type that isn't opened.
    pub fn of(body: &'a [u8], kind: u8, rule: TimeRule) -> Result<Messages<'a>, Refusal>
        ensures { MatchResult result (λ all. (check_body kind rule body.now ≡ Ok all.left) × (heads all.form all.body.now all.at all.left ≡ tab all.left (message_in kind rule body.now))) (λ refusal. check_body kind rule body.now ≡ Err refusal) }
    {
        let Ok(opened) = Kind::try_from(kind) else {
            return Ok(Messages {
                body,
                form: Form::Plain,
                at: 4,
                left: 0,
            });
        };
        let left = walk_body(body, opened, rule)?;
        Ok(Messages {
            body,
            form: form_in(body, kind),
            at: 4,
            left,
        })
    }

    // How many.
    pub fn left(&self) -> usize
        ensures { result ≡ self.now.left }
    {
        self.left
    }
}

impl<'a> Iterator for Messages<'a> {
    type Item = Message;

    ghost next_gives = { YieldsFirst (λ s. heads s.form s.body.now s.at s.left) };

    ghost remaining = { λ s. at_most s.left };

    fn next(&mut self) -> Option<Message> {
        if self.left == 0 {
            return None;
        }
        let m = head_at(self.body, self.at, self.form);
        self.at = block_end(m);
        self.left -= 1;
        Some(m)
    }
}
