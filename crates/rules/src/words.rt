// Words as fields hold them: a word is the number of its bytes, the first the highest.
ghost use Rattle.std.specs.Prelude.{◌≡◌, ◌≤◌};
ghost use Rattle.meaning.specs.Records.{word_in};
ghost use Rattle.amounts.specs.Values.{value_is};

use amounts::Fault;

// The word in a field of at most so many characters. Eight bytes at most, so that the number fits.
pub fn read_word(f: &[u8], most: u64) -> Result<u64, Fault>
    requires { most ≤ 8 }
    ensures { value_is result ≡ word_in most f.now }
{
    if most < f.len() as u64 {
        return Err(Fault::Malformed);
    }
    let mut word = 0;
    for &b in f {
        if b == b' ' {
            return Err(Fault::Malformed);
        }
        word = word * 256 + b as u64;
    }
    Ok(word)
}
