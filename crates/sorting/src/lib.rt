// What a line comes to where the reading stands, before its name or its fields are read: it is identified (4) and placed (5).
#![tactic(auto)]

ghost use Rattle.std.specs.Prelude.{◌≡◌, false};
ghost use Rattle.meaning.specs.Lines.{foreign};
ghost use Rattle.blocks.specs.Cards.{Readable};
ghost use Rattle.sorting.specs.Sorted.{SortedIs};

use placing::{Placed, Reading};
use refusals::Refusal;

// A line that passed 3. The reading passes a line of blanks, and goes on in the same form.
pub fn sort_line(r: Reading, cards: &[u64], l: &[u8]) -> Result<Placed, Refusal>
    requires { (foreign l.now ≡ false) × Readable cards.now }
    ensures { SortedIs result r cards.now l.now }
{
    match identifiers::head_of(l)? {
        None => Ok(Placed::Passed(r.free)),
        Some(k) => placing::place_record(r, cards, k),
    }
}
