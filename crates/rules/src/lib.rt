// What a field holds by its rule: a number within its limits, a word, anything, nothing. Which record has which rules is not told here.
#![tactic(auto)]

mod words;

ghost use Rattle.std.specs.Prelude.{◌≡◌, not};
ghost use Rattle.meaning.specs.Words.{◌=?◌};
ghost use Rattle.meaning.specs.Records.{is_malformed, is_outside, units_of, faulty_field, outside_field, value_of};
ghost use Rattle.amounts.specs.Values.{value_is};
ghost use Rattle.rules.specs.Rules.{rule_by, FieldIs, WordIs, FewPlaces};

use amounts::Fault;
use refusals::Refusal;

// What a field may hold: nothing; anything, since it is not read; a number with so many places, from a lowest to a highest value; or a word of so many characters,
// likewise, behind the number by which another one is refused.
#[derive(Clone, Copy)]
pub enum Rule {
    Unnamed,
    NotRead,
    Limited(u64, u64, u64),
    Worded(u64, u64, u64, u64),
}

// The value that a field holds, and whether it is outside its limits (refusal 7).
#[derive(Clone, Copy)]
pub struct Held {
    pub value: u64,
    pub outside: bool,
}

// What a field holds that is not read, or is blank as it must be.
const NOTHING: Held = Held {
    value: 0,
    outside: false,
};

// A value, by the limits of its field; no value at a fault (refusal 6).
fn limit_value(v: Result<u64, Fault>, low: u64, high: u64) -> Option<Held>
    ensures { FieldIs result (is_malformed (value_is v)) (is_outside low high (value_is v)) (units_of (value_is v)) }
{
    match v {
        Err(Fault::Malformed) => None,
        Err(Fault::Negative) => Some(Held {
            value: 0,
            outside: true,
        }),
        Ok(value) => Some(Held {
            value,
            outside: value < low || high < value,
        }),
    }
}

// Another word than may stand in a field, refused by 6, or else by 7.
fn other_word(refusal: u64) -> Option<Held>
    ensures { FieldIs result (refusal =? 6) (not (refusal =? 6)) 0 }
{
    if refusal == Refusal::Malformed.number() {
        return None;
    }
    Some(Held {
        value: 0,
        outside: true,
    })
}

// A word, by the limits of its field.
fn limit_word(v: Result<u64, Fault>, refusal: u64, low: u64, high: u64) -> Option<Held>
    ensures { WordIs result refusal low high (value_is v) }
{
    match limit_value(v, low, high) {
        Some(held) if !held.outside => Some(held),
        _ => other_word(refusal),
    }
}

// A field, by its rule; no value at a fault (refusal 6).
pub fn read_field(r: Rule, f: &[u8]) -> Option<Held>
    requires { FewPlaces (rule_by r) }
    ensures { FieldIs result (faulty_field (rule_by r) f.now) (outside_field (rule_by r) f.now) (value_of (rule_by r) f.now) }
{
    match r {
        Rule::Unnamed => f.is_empty().then_some(NOTHING),
        Rule::NotRead => Some(NOTHING),
        Rule::Limited(places, low, high) => limit_value(amounts::read_value(f, places), low, high),
        Rule::Worded(refusal, most, low, high) => {
            limit_word(words::read_word(f, most), refusal, low, high)
        }
    }
}
