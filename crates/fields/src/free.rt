// Free form: where a value ends, and what separates it from the next.
ghost use Rattle.std.specs.Prelude.{◌≡◌, not};
ghost use Rattle.fields.specs.Spans.{in_value, value_end, gap_end};

use super::{past_blanks, rest_from};

// A byte behind a value: a blank or a comma.
fn ends_value(b: u8) -> bool
    ensures { result ≡ not (in_value b) }
{
    b == b' ' || b == b','
}

// The first blank or comma from `at` on, or the end.
pub fn value_end(l: &[u8], at: usize) -> usize
    ensures { result ≡ value_end l.now at }
{
    let rest = rest_from(l, at);
    at + rest
        .iter()
        .position(|b| ends_value(*b))
        .unwrap_or(rest.len())
}

// Past what separates two values: blanks, one comma at most, blanks.
pub fn past_gap(l: &[u8], at: usize) -> usize
    ensures { result ≡ gap_end l.now at }
{
    let i = past_blanks(l, at);
    if rest_from(l, i).starts_with(b",") {
        return past_blanks(l, i + 1);
    }
    i
}
