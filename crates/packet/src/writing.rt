// The writer's tests.
ghost use Rattle.std.specs.Prelude.{◌≡◌, ◌^◌, ◌<◌, length};
ghost use Rattle.terms.specs.Numbers.{told};
ghost use Rattle.frame.specs.Contents.{contents};
ghost use Rattle.packet.specs.Read.{contents_checked};
ghost use Rattle.packet.specs.Write.{in_range, writer_refusal, fitted};

use body::check_body;
use frame::Fields;
use frame::rules::{length_for, message_rule, secondary_time_ok, value_refusal};
use terms::{Number, Refusal, no_room, placed};

// The first of 17, 5 to 9 and 12 that applies for a body of d bytes.
pub fn writer_refusal(fields: Fields, d: u64) -> Result<(), Number>
    requires { d < 2 ^ 63 }
    ensures { told result ≡ writer_refusal fields d }
{
    if !in_range(fields) {
        return Err(Number::Range);
    }
    value_refusal(
        fields.channel,
        fields.version,
        fields.flags,
        fields.kind,
        length_for(fields.flags, d),
        d,
    )?;
    if !secondary_time_ok(fields.flags, fields.time) {
        return Err(Number::Secondary);
    }
    Ok(())
}

fn in_range(fields: Fields) -> bool
    ensures { result ≡ in_range fields }
{
    (fields.rtc < 0x1_0000_0000_0000) & ((fields.flags / 128 % 2 == 1) | (fields.time == 0))
}

// 15, then 16 for a packet of this length in an output of this room, or its length.
pub fn fit(fields: Fields, body: &[u8], length: usize, room: usize) -> Result<usize, Refusal>
    ensures { result ≡ fitted (contents_checked (contents fields body.now)) length room }
{
    match check_body(body, fields.kind, message_rule(fields.flags)) {
        Ok(_) => {
            if room < length {
                return Err(no_room(0, length));
            }
            Ok(length)
        }
        Err(f) => Err(placed(f, 0)),
    }
}
