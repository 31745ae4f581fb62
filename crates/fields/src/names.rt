// The name on a KK line: the line's first field, and whether it is one.
ghost use Rattle.std.specs.Prelude.{◌≡◌, ◌≤◌, length};
ghost use Rattle.meaning.specs.Records.{bad_name};
ghost use Rattle.fields.specs.Spans.{form_of};
ghost use Rattle.fields.specs.Names.{name_span};

use super::Span;

// Where the name stands; a line that ends before its first field has none.
pub fn name_span(free: bool, l: &[u8]) -> Span
    requires { length l.now ≤ 80 }
    ensures { result ≡ name_span (form_of free) l.now }
{
    let c = super::first_place(free, l);
    if l.len() <= c {
        return Span {
            from: 0,
            to: 0,
            next: c,
        };
    }
    super::span_at(free, l, 0, c)
}

// A name has 1 to 6 bytes and no blank among them.
pub fn bad_name(name: &[u8]) -> bool
    ensures { result ≡ bad_name name.now }
{
    match name.len() {
        1..=6 => name.contains(&b' '),
        _ => true,
    }
}
