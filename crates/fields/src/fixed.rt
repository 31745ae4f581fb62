// Fixed form: the columns of a field.
ghost use Rattle.std.specs.Prelude.{◌≡◌, ◌<◌, length};
ghost use Rattle.fields.specs.Spans.{fixed_span};

use super::{Span, past_blanks, text_end};

// In fixed form: the columns from `c` up to `next`, blanks around the value dropped.
pub fn fixed_span(l: &[u8], c: usize, next: usize) -> Span
    requires { (c < length l.now) × (c < next) }
    ensures { result ≡ fixed_span l.now c next }
{
    let end = slices::smaller(next, l.len());
    let p = &l[c..end];
    let skipped = past_blanks(p, 0);
    let kept = text_end(p, skipped);
    Span {
        from: c + skipped,
        to: c + kept,
        next,
    }
}
