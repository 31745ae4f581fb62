// What a round is lent of the room for results, how many rounds there are, and of two rounds that which is met first.
#![tactic(auto)]

ghost use Rattle.std.specs.Prelude.{◌≡◌, ◌-◌, ◌≤◌, ◌++◌, length, take, replicate, is_err};
ghost use Rattle.meaning.specs.Blocks.{or_whole};
ghost use Rattle.meaning.specs.Run.{most_blocks};
ghost use Rattle.blocks.specs.Meant.{ratios_is};
ghost use Rattle.passes.specs.Apart.{rank_of, comes_first};
ghost use Rattle.lending.specs.Lent.{ordinates_from, records_from};
ghost use Rattle.lending.specs.Sooner.{sooner_of, blocks_in};

use blocks::Ratios;
use refusals::{Refusal, Refused};
use turns::Worked;

// Where the ordinates begin that a round is lent: at the first where its ratio is wanted, or the last one is; else behind the last. Once the deck is refused none are lent.
pub fn ordinates_from(refused: bool, ratio: usize, place: usize, n: usize) -> usize
    requires { place ≤ 9 }
    ensures { result ≡ ordinates_from refused ratio place n }
{
    if !refused && (ratio == 0 || ratio == place + 1) {
        0
    } else {
        n
    }
}

// Where the records begin that a round is lent: behind those of the rounds before it, if there are such.
pub fn records_from(found: Result<Worked, Refused>, place: usize, m: usize) -> usize
    requires { (blocks_in found ≤ most_blocks) × (place ≤ 9) }
    ensures { result ≡ records_from (is_err found) (blocks_in found) place m }
{
    match found {
        Ok(worked) => (results::RECORD * (worked.blocks * place)).min(m),
        Err(_) => m,
    }
}

// The ordinates from one on, zeroed.
pub fn clear_from(ordinates: &mut [u64], from: usize)
    requires { from ≤ length ordinates.old }
    ensures { ordinates.new ≡ take from ordinates.old ++ replicate (length ordinates.old - from) 0 }
{
    slices::zero_words(&mut ordinates[from..]);
}

// The rank of a number on its line: the number itself, but 20, which flows decide, has the place of 13.
fn rank_of(number: u64) -> u64
    ensures { result ≡ rank_of number }
{
    if number == Refusal::Overtopped.number() {
        13
    } else {
        number
    }
}

// Whether of two refusals the first one is met first: on an earlier line, or on the same line by a rank that is not above. Line 0 is that of a missing ZZ, and comes last.
fn comes_first(a: Refused, b: Refused) -> bool
    ensures { result ≡ comes_first a.number a.line b.number b.line }
{
    if a.line == b.line {
        rank_of(a.number) <= rank_of(b.number)
    } else {
        a.line != 0 && (b.line == 0 || a.line < b.line)
    }
}

// What two rounds come to: the refusal that is met first; where none is refused, what the first came to.
pub fn sooner(
    found: Result<Worked, Refused>,
    next: Result<Worked, Refused>,
) -> Result<Worked, Refused>
    ensures { result ≡ sooner_of found next }
{
    match (found, next) {
        (Err(a), Err(b)) if comes_first(a, b) => found,
        (_, Err(_)) => next,
        _ => found,
    }
}

// How many ratios there are: without JR there is one.
pub fn count_of(ratios: Ratios) -> usize
    requires { ratios.count ≤ 9 }
    ensures { result ≡ length (or_whole (ratios_is ratios)) }
{
    ratios.count.max(1)
}
