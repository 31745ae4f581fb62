// A deck's bytes, line by line. Refusal 3 and the line's end are found in one run over the line: it goes on while bytes are plain, and what stands where
// it stops says what the line is.
#![tactic(auto)]

ghost use Rattle.std.specs.Prelude.{◌≡◌, ◌+◌, ◌≤◌, ◌<◌, length, drop};
ghost use Rattle.sequences.specs.Runs.{run};
ghost use Rattle.refusals.specs.declared.Refusal.TheVariants.{ForeignLine};
ghost use Rattle.lines.specs.Line.{is_plain, line_at};

use refusals::Refusal;

// A line's bytes end at `end`, and the next line starts at `next`.
#[derive(Clone, Copy)]
pub struct Line {
    pub end: usize,
    pub next: usize,
}

// A line that meets refusal 3: its plain bytes stop at `end`.
#[derive(Clone, Copy)]
pub struct Foreign {
    pub end: usize,
}

impl From<Foreign> for Refusal {
    ghost from_gives = { λ _ refusal. refusal ≡ ForeignLine };

    fn from(_foreign: Foreign) -> Refusal {
        Refusal::ForeignLine
    }
}

// A printing byte, or a blank.
fn is_plain(b: u8) -> bool
    ensures { result ≡ is_plain b }
{
    matches!(b, b' '..=b'~')
}

// Where the plain bytes from `at` on stop.
fn plain_end(s: &[u8], at: usize) -> usize
    requires { at ≤ length s.now }
    ensures { result ≡ at + run is_plain (drop at s.now) }
{
    let rest = &s[at..];
    at + rest
        .iter()
        .position(|b| !is_plain(*b))
        .unwrap_or(rest.len())
}

// The line that starts at `at`, behind whose plain bytes the deck ends, or LF stands, or CR and LF; else it meets refusal 3, and where they stop is told.
pub fn line_at(s: &[u8], at: usize) -> Result<Line, Foreign>
    requires { at < length s.now }
    ensures { result ≡ line_at s.now at }
{
    let end = plain_end(s, at);
    if 80 < end - at {
        return Err(Foreign { end });
    }
    if end == s.len() {
        return Ok(Line { end, next: end });
    }
    let rest = &s[end..];
    if rest.starts_with(b"\n") {
        return Ok(Line { end, next: end + 1 });
    }
    if rest.starts_with(b"\r\n") {
        return Ok(Line { end, next: end + 2 });
    }
    Err(Foreign { end })
}
