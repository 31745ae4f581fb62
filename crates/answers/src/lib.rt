// What a run answers: the answer itself, the refusals that go by sizes alone (1, 2 and 17), the refusal that leaves zeros in all that was lent, and the end of a run
// whose deck is sound.
#![tactic(auto)]

ghost use Rattle.std.specs.Prelude.{◌≡◌, ◌≤◌};
ghost use Rattle.meaning.specs.Run.{refused, most_blocks};
ghost use Rattle.refusals.specs.Numbers.{refusal_in};
ghost use Rattle.answers.specs.Answers.{outcome_is, lent_as, lacking, size_refusal, settled_as};

use refusals::{Refusal, Refused};

// The words that a run works in, and the bytes that a deck may have.
pub const WORK: usize = 6_000;

const DECK: usize = 60_000;

// A deck accepted: the ordinates of each hydrograph, the blocks and the ratios.
#[derive(Clone, Copy, PartialEq, Eq)]
pub struct Accepted {
    pub ordinates: usize,
    pub blocks: usize,
    pub ratios: usize,
}

// The answer to a deck.
pub type Answer = Result<Accepted, Refused>;

// What the ordinates are wanted of: a block and a ratio, each by its number from 1; 0 stands for the last.
#[derive(Clone, Copy)]
pub struct Wanted {
    pub block: usize,
    pub ratio: usize,
}

// What is refused before the deck is read: too few words to work in, a deck too long.
pub fn size_refusal(work: usize, deck: usize) -> Result<(), Refusal>
    ensures { refusal_in result ≡ size_refusal work deck }
{
    if work < WORK {
        return Err(Refusal::LittleWork);
    }
    if DECK < deck {
        return Err(Refusal::LongDeck);
    }
    Ok(())
}

// Refuses by any number, and leaves nothing in what was lent.
pub fn refuse(reason: Refused, words: &mut [u64], flows: &mut [u64], bytes: &mut [u8]) -> Answer
    ensures { outcome_is result words.new flows.new bytes.new ≡ refused reason.number reason.line (lent_as words.old flows.old bytes.old) }
{
    slices::zero_words(words);
    slices::zero_words(flows);
    slices::fill_bytes(bytes, 0);
    Err(reason)
}

// Whether what was lent is too short for the results, or no such block or ratio is there to be named.
fn lacks_room(found: Accepted, wanted: Wanted, ordinates: usize, records: usize) -> bool
    requires { (found.blocks ≤ most_blocks) × (found.ratios ≤ 9) }
    ensures { result ≡ lacking found.ordinates found.blocks found.ratios wanted.block wanted.ratio ordinates records }
{
    ordinates < found.ordinates
        || records < results::RECORD * (found.blocks * found.ratios)
        || found.blocks < wanted.block
        || found.ratios < wanted.ratio
}

// The end of a run whose deck is sound: refused by 17 where there is no room for the results, else accepted with the results as they stand.
pub fn settle(
    found: Accepted,
    wanted: Wanted,
    work: &mut [u64],
    ordinates: &mut [u64],
    records: &mut [u8],
) -> Answer
    requires { (found.blocks ≤ most_blocks) × (found.ratios ≤ 9) }
    ensures { outcome_is result work.new ordinates.new records.new ≡ settled_as found.ordinates found.blocks found.ratios wanted.block wanted.ratio work.old ordinates.old records.old }
{
    if lacks_room(found, wanted, ordinates.len(), records.len()) {
        return refuse(Refusal::LittleRoom.at_line(0), work, ordinates, records);
    }
    slices::zero_words(work);
    Ok(found)
}
