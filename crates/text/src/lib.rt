// Bytes, texts and numbers in decimal, written into lent bytes from a place on; and a text without the blanks at its end.
// Each function that writes answers the place behind what it wrote.
#![tactic(auto)]

ghost use Rattle.std.specs.Prelude.{◌≡◌, [], ◌∷◌, ◌++◌, ◌+◌, ◌<◌, ◌≤◌, length};
ghost use Rattle.meaning.specs.Lines.{blank};
ghost use Rattle.meaning.specs.Fields.{trim_end, is_blank};
ghost use Rattle.meaning.specs.Listing.{digit, whole, two_places};
ghost use Rattle.meaning.specs.Sheet.{six_places};
ghost use Rattle.text.specs.Digits.{three_digits};
ghost use Rattle.text.specs.Line.{line};
ghost use Rattle.text.specs.Written.{Written};

pub fn write_byte(out: &mut [u8], at: usize, b: u8) -> usize
    requires { at < length out.old }
    ensures { Written out.old at (b ∷ []) out.new result }
{
    out[at] = b;
    at + 1
}

pub fn write_text(out: &mut [u8], at: usize, text: &[u8]) -> usize
    requires { at + length text.now ≤ length out.old }
    ensures { Written out.old at text.now out.new result }
{
    let end = at + text.len();
    out[at..end].copy_from_slice(text);
    end
}

fn digit_of(d: u64) -> u8
    requires { d < 10 }
    ensures { result ≡ digit d }
{
    b'0' + d as u8
}

// A number in decimal: the digits of its tenth, then the last one.
pub fn write_whole(out: &mut [u8], at: usize, x: u64) -> usize
    requires { at + length (whole x) ≤ length out.old }
    ensures { Written out.old at (whole x) out.new result }
{
    if x < 10 {
        return write_byte(out, at, digit_of(x));
    }
    let next = write_whole(out, at, x / 10);
    write_byte(out, next, digit_of(x % 10))
}

// Hundredths, with two places.
pub fn write_two_places(out: &mut [u8], at: usize, x: u64) -> usize
    requires { at + length (two_places x) ≤ length out.old }
    ensures { Written out.old at (two_places x) out.new result }
{
    let point = write_whole(out, at, x / 100);
    let tenths = write_byte(out, point, b'.');
    let hundredths = write_byte(out, tenths, digit_of(x / 10 % 10));
    write_byte(out, hundredths, digit_of(x % 10))
}

// The last three digits, zeros too.
fn write_three_digits(out: &mut [u8], at: usize, x: u64) -> usize
    requires { at + 3 ≤ length out.old }
    ensures { Written out.old at (three_digits x) out.new result }
{
    let second = write_byte(out, at, digit_of(x / 100 % 10));
    let third = write_byte(out, second, digit_of(x / 10 % 10));
    write_byte(out, third, digit_of(x % 10))
}

// Millionths, with six places.
pub fn write_six_places(out: &mut [u8], at: usize, x: u64) -> usize
    requires { at + length (six_places x) ≤ length out.old }
    ensures { Written out.old at (six_places x) out.new result }
{
    let point = write_whole(out, at, x / 1_000_000);
    let places = write_byte(out, point, b'.');
    let last = write_three_digits(out, places, x / 1_000);
    write_three_digits(out, last, x)
}

// A blank and a number.
pub fn write_number(out: &mut [u8], at: usize, x: u64) -> usize
    requires { at + length (blank ∷ whole x) ≤ length out.old }
    ensures { Written out.old at (blank ∷ whole x) out.new result }
{
    let next = write_byte(out, at, b' ');
    write_whole(out, next, x)
}

// A blank and hundredths.
pub fn write_amount(out: &mut [u8], at: usize, x: u64) -> usize
    requires { at + length (blank ∷ two_places x) ≤ length out.old }
    ensures { Written out.old at (blank ∷ two_places x) out.new result }
{
    let next = write_byte(out, at, b' ');
    write_two_places(out, next, x)
}

// The line of a word and a number.
pub fn write_told(out: &mut [u8], at: usize, word: &[u8], x: u64) -> usize
    requires { at + length (line (word.now ++ whole x)) ≤ length out.old }
    ensures { Written out.old at (line (word.now ++ whole x)) out.new result }
{
    let number = write_text(out, at, word);
    let end = write_whole(out, number, x);
    write_byte(out, end, b'\n')
}

// Without the blanks at the end.
pub fn trim_blanks(s: &[u8]) -> &[u8]
    ensures { result.now ≡ trim_end is_blank s.now }
{
    slices::trim_end(s, b' ')
}
