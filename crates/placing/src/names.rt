// The name on a KK line, copied out of it.
ghost use Rattle.std.specs.Prelude.{◌≡◌, [], ◌≤◌, length};
ghost use Rattle.meaning.specs.Fields.{name_in};
ghost use Rattle.fields.specs.Spans.{form_of};
ghost use Rattle.blocks.specs.Meant.{name_is};
ghost use Rattle.placing.specs.Labels.{Labels};

use blocks::Name;
use refusals::Refusal;

// The name where no block is named yet.
pub fn no_name() -> Name
    ensures { (name_is result ≡ []) × (result.letters ≤ 6) }
{
    Name {
        bytes: [0u8; 6],
        letters: 0,
    }
}

// A name copied out of its line.
fn copy_name(f: &[u8]) -> Name
    requires { length f.now ≤ 6 }
    ensures { (name_is result ≡ f.now) × (result.letters ≤ 6) }
{
    let mut bytes = [0u8; 6];
    let letters = f.len();
    bytes[..letters].copy_from_slice(f);
    Name { bytes, letters }
}

// The name that a KK line gives, where it is one.
pub fn read_name(free: bool, l: &[u8]) -> Result<Name, Refusal>
    requires { length l.now ≤ 80 }
    ensures { Labels (name_in (form_of free) l.now) result }
{
    let span = fields::name_span(free, l);
    let from = span.from;
    let to = span.to;
    let f = &l[from..to];
    if fields::bad_name(f) {
        return Err(Refusal::Malformed);
    }
    Ok(copy_name(f))
}
