// The value of a field: its number in units of the last of the places that the field allows. How a number is read from bytes is not told here.
#![tactic(auto)]

ghost use Rattle.std.specs.Prelude.{◌≡◌, ◌^◌, ◌≤◌, ◌<◌, Some};
ghost use Rattle.meaning.specs.Numbers.{number_of, in_units};
ghost use Rattle.numbers.specs.Reading.{number_is};
ghost use Rattle.amounts.specs.Values.{value_is};

use numbers::Decimal;

// Why a field has no value.
#[derive(Clone, Copy)]
pub enum Fault {
    Malformed,
    Negative,
}

// A match: `pow` multiplies in a loop, and this is done for every value of a deck.
fn ten_to(k: u64) -> u64
    requires { k ≤ 4 }
    ensures { result ≡ 10 ^ k }
{
    match k {
        0 => 1,
        1 => 10,
        2 => 100,
        3 => 1000,
        _ => 10000,
    }
}

// A number in units of the last of the places allowed.
fn in_units(allowed: u64, number: Decimal) -> Result<u64, Fault>
    requires { (allowed ≤ 4) × (number.digits < 10 ^ 9) }
    ensures { value_is result ≡ in_units allowed (number_is (Some number)) }
{
    if allowed < number.places {
        return Err(Fault::Malformed);
    }
    if number.minus && 0 < number.digits {
        return Err(Fault::Negative);
    }
    Ok(number.digits * ten_to(allowed - number.places))
}

// The value of a field that allows so many places, in units of the last of them.
pub fn read_value(f: &[u8], allowed: u64) -> Result<u64, Fault>
    requires { allowed ≤ 4 }
    ensures { value_is result ≡ in_units allowed (number_of f.now) }
{
    match numbers::read_number(f) {
        Some(number) => in_units(allowed, number),
        None => Err(Fault::Malformed),
    }
}
