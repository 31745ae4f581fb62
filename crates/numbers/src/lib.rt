// Numbers as fields hold them: an optional sign, a run of digits, an optional point and a second run. What is read is the value and the places left
// after trailing zeros of the fraction are taken off; how many places a field allows is not told here.
#![tactic(auto)]

ghost use Rattle.std.specs.Prelude.{◌≡◌, ◌^◌, ◌≤◌, ◌<◌, length};
ghost use Rattle.meaning.specs.Fields.{trim_end};
ghost use Rattle.meaning.specs.Numbers.{is_zero, number_of, decimal_of};
ghost use Rattle.numbers.specs.Reading.{number_is, sign_length, digits_from, counted};

// A number: whether it is below 0, the digits that are left and how many of them stand behind the point.
#[derive(Clone, Copy)]
pub struct Decimal {
    pub minus: bool,
    pub digits: u64,
    pub places: u64,
}

// A run of digits: where it ends, and the number that it reads on to.
#[derive(Clone, Copy)]
pub struct Digits {
    pub end: usize,
    pub value: u64,
}

// The run of digits that `s` begins with, read on behind `start`.
fn read_digits(s: &[u8], start: u64) -> Digits
    requires { (length s.now ≤ 10) × (start < 10 ^ 9) }
    ensures { result ≡ digits_from s.now 0 start }
{
    let mut value = start;
    for (i, &b) in s.iter().enumerate() {
        if !b.is_ascii_digit() {
            return Digits { end: i, value };
        }
        value = 10 * value + (b - b'0') as u64;
    }
    Digits {
        end: s.len(),
        value,
    }
}

// How many places are left of a fraction when its trailing zeros are taken off.
fn places_left(fraction: &[u8]) -> usize
    ensures { result ≡ length (trim_end is_zero fraction.now) }
{
    slices::trim_end(fraction, b'0').len()
}

// A number without a fraction has one digit at least and nine at most.
fn count_digits(minus: bool, digits: u64, count: usize) -> Option<Decimal>
    ensures { number_is result ≡ counted minus digits count 0 }
{
    match count {
        1..=9 => Some(Decimal {
            minus,
            digits,
            places: 0,
        }),
        _ => None,
    }
}

// The number that stands behind a sign, if there was one. With a fraction it has one digit at least, and not ten: there is no room for them beside the point.
// Trailing zeros are digits, so that they have their part in that room, but are not read.
fn read_unsigned(minus: bool, s: &[u8]) -> Option<Decimal>
    requires { length s.now ≤ 10 }
    ensures { number_is result ≡ decimal_of minus s.now }
{
    let whole = read_digits(s, 0);
    match &s[whole.end..] {
        [] | [b'.'] => count_digits(minus, whole.value, whole.end),
        [b'.', fraction @ ..] => {
            let places = places_left(fraction);
            let left = read_digits(&fraction[..places], whole.value);
            if left.end < places {
                return None;
            }
            Some(Decimal {
                minus,
                digits: left.value,
                places: places as u64,
            })
        }
        _ => None,
    }
}

// How many bytes a sign takes, if `b` is one.
fn sign_length(b: u8) -> usize
    ensures { result ≡ sign_length b }
{
    match b {
        b'+' | b'-' => 1,
        _ => 0,
    }
}

// The number in a field, which has no blanks around it. Nine digits and a point are ten bytes: what is longer, without its sign, is none.
pub fn read_number(f: &[u8]) -> Option<Decimal>
    ensures { number_is result ≡ number_of f.now }
{
    let Some(&b) = f.first() else {
        return Some(Decimal {
            minus: false,
            digits: 0,
            places: 0,
        });
    };
    let s = &f[sign_length(b)..];
    if 10 < s.len() {
        return None;
    }
    read_unsigned(b == b'-', s)
}
