// Time rules, for message times and the secondary time alike.
ghost use Rattle.std.specs.Prelude.{◌≡◌};
ghost use Rattle.terms.specs.Times.{time_ok, rule_of};
ghost use Rattle.terms.specs.inner.Masks.{mask_of, limit_of};

use crate::TimeRule;

// Whether a time is in form.
pub fn time_ok(rule: TimeRule, time: u64) -> bool
    ensures { result ≡ time_ok rule time }
{
    TimeTest::from(rule).passes(time)
}

// A rule and its test in two numbers: the bits of a time under the mask stay below the limit. A loop makes it once.
#[derive(Clone, Copy)]
pub struct TimeTest {
    pub rule: TimeRule,
    mask: u64,
    limit: u64,
    ghost tests: { (mask ≡ mask_of rule) × (limit ≡ limit_of rule) },
}

impl From<TimeRule> for TimeTest {
    ghost from_gives = { λ rule test. test.rule ≡ rule };

    fn from(rule: TimeRule) -> TimeTest {
        TimeTest {
            rule,
            mask: mask_of(rule),
            limit: limit_of(rule),
        }
    }
}

impl TimeTest {
    // Whether a time is in form.
    pub fn passes(self, time: u64) -> bool
        ensures { result ≡ time_ok self.rule time }
    {
        time & self.mask < self.limit
    }
}

fn mask_of(rule: TimeRule) -> u64
    ensures { result ≡ mask_of rule }
{
    match rule {
        TimeRule::Counter => 0xFFFF_FFFF_FFFF_FFFF,
        TimeRule::Chapter4 => 0xFFFF,
        TimeRule::Ieee1588 => 0xFFFF_FFFF,
        TimeRule::Extended => 0,
    }
}

fn limit_of(rule: TimeRule) -> u64
    ensures { result ≡ limit_of rule }
{
    match rule {
        TimeRule::Counter => 0x1_0000_0000_0000,
        TimeRule::Chapter4 => 1,
        TimeRule::Ieee1588 => 1_000_000_000,
        TimeRule::Extended => 1,
    }
}

// The rule of a number: 1 the counter, else 2 and the time format.
impl From<u8> for TimeRule {
    ghost from_gives = { λ number rule. rule ≡ rule_of number };

    fn from(number: u8) -> TimeRule {
        if number == 1 {
            return TimeRule::Counter;
        }
        if number == 2 {
            return TimeRule::Chapter4;
        }
        if number == 3 {
            return TimeRule::Ieee1588;
        }
        TimeRule::Extended
    }
}
