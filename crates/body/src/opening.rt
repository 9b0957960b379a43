// The channel word of an opened body.
#![tactic(auto, unfolding(crate::specs::Walk::message_shape, crate::specs::Walk::uart_shape, crate::specs::Walk::open_body))]

ghost use Rattle.std.specs.Prelude.{◌≡◌, ◌≤◌, length};
ghost use Rattle.body.specs.Kinds.{type_of};
ghost use Rattle.body.specs.Walk.{counter_ok, message_shape, uart_form, uart_shape, open_body};
ghost use Rattle.body.specs.inner.Walks.{form_in, opened};

use crate::{Form, Kind, Shape};
use terms::TimeRule;
use units::InBytes;

// Whether the counter of a 0x30 body fits its type, bits 17-16 of the channel word.
fn counter_ok(bits: u32, counter: u32) -> bool
    ensures { result ≡ counter_ok bits counter }
{
    if bits == 0 {
        return 0 < counter;
    }
    if bits == 1 {
        return counter == 1;
    }
    1 < counter
}

// 0x30: the type and the counter.
fn message_shape(rule: TimeRule, word: u32) -> Option<Shape>
    ensures { opened result ≡ message_shape rule word }
{
    let bits = word / 0x1_0000;
    let counter = word % 0x1_0000;
    if !((word < 0x4_0000) & counter_ok(bits, counter)) {
        return None;
    }
    let count = if bits == 0 { counter as usize } else { 1 };
    Some(Shape {
        form: Form::Stamped,
        count: Some(count),
        rule,
    })
}

// 0x50: whether its blocks have time stamps.
fn uart_form(word: u32) -> Form
    ensures { result ≡ uart_form word }
{
    if 0x8000_0000 <= word {
        Form::Stamped
    } else {
        Form::Plain
    }
}

// 0x50: the form of its blocks, one or more.
fn uart_shape(rule: TimeRule, word: u32) -> Option<Shape>
    ensures { opened result ≡ uart_shape rule word }
{
    if word % 0x8000_0000 == 0 {
        return Some(Shape {
            form: uart_form(word),
            count: None,
            rule,
        });
    }
    None
}

// What the channel word says of a body of an opened type; none where it is wrong.
pub fn open_body(body: &[u8], kind: Kind, rule: TimeRule) -> Option<Shape>
    ensures { opened result ≡ open_body (type_of kind) rule body.now }
{
    if body.len() < 4 {
        return None;
    }
    let word = u32::read(body, 0);
    match kind {
        Kind::Message => message_shape(rule, word),
        Kind::Uart => uart_shape(rule, word),
    }
}

// The form of the blocks of a body of an opened type.
pub fn form_in(body: &[u8], kind: u8) -> Form
    requires { 4 ≤ length body.now }
    ensures { result ≡ form_in kind body.now }
{
    if kind == 0x30 {
        Form::Stamped
    } else {
        uart_form(u32::read(body, 0))
    }
}
