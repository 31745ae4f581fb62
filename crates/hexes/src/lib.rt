// Bytes in print: each in two hexadecimal digits.
#![tactic(auto)]

ghost use Rattle.std.specs.Prelude.{◌≡◌, ◌+◌, ◌*◌, ◌<◌, ◌≤◌, length};
ghost use Rattle.text.specs.Line.{line};
ghost use Rattle.text.specs.Written.{Written};
ghost use Rattle.hexes.specs.Hex.{byte_size, hex_digit, hex, hex_all};

fn hex_digit(d: u8) -> u8
    requires { d < 16 }
    ensures { result ≡ hex_digit d }
{
    if d < 10 { b'0' + d } else { b'a' + (d - 10) }
}

fn write_hex(out: &mut [u8], at: usize, b: u8) -> usize
    requires { at + byte_size ≤ length out.old }
    ensures { Written out.old at (hex b) out.new result }
{
    let low = text::write_byte(out, at, hex_digit(b / 16));
    text::write_byte(out, low, hex_digit(b % 16))
}

// The line of some bytes.
pub fn write_bytes(out: &mut [u8], start: usize, bytes: &[u8]) -> usize
    requires { start + byte_size * length bytes.now + 1 ≤ length out.old }
    ensures text { Written out.old start (line (hex_all bytes.now)) out.new result }
    ensures short { result ≤ start + byte_size * length bytes.now + 1 }
{
    let mut at = start;
    for &byte in bytes {
        at = write_hex(out, at, byte);
    }
    text::write_byte(out, at, b'\n')
}
