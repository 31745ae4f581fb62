// What stands where: what a record does where the reading stands.
ghost use Rattle.std.specs.Prelude.{◌≡◌, List, ℕ, ◌<◌};
ghost use Rattle.meaning.specs.Words.{◌<?◌};
ghost use Rattle.meaning.specs.Blocks.{repeated};
ghost use Rattle.identifiers.specs.Heads.{record_is, OfTable};
ghost use Rattle.records.specs.Rows.{items};
ghost use Rattle.blocks.specs.Meant.{time_is};
ghost use Rattle.blocks.specs.Cards.{block_of, Readable};
ghost use Rattle.placing.specs.Readings.{reading_is};
ghost use Rattle.placing.specs.Places.{before_time, after_time, before_blocks, in_block, PlacedIs, MayRead};

use super::{Phase, Placed, Reading};
use identifiers::Record;
use refusals::Refusal;

// A record that stands only before IT, and IT itself.
fn before_time(phase: Phase, then: Placed) -> Result<Placed, Refusal>
    ensures { result ≡ before_time phase then }
{
    match phase {
        Phase::BeforeTime => Ok(then),
        _ => Err(Refusal::Misplaced),
    }
}

// One that stands only after it.
fn after_time(phase: Phase, then: Placed) -> Result<Placed, Refusal>
    ensures { result ≡ after_time phase then }
{
    match phase {
        Phase::BeforeTime => Err(Refusal::Misplaced),
        _ => Ok(then),
    }
}

// The ratios stand between the time control and the first block, and only if none are listed yet.
fn before_blocks(phase: Phase, listed: usize) -> Result<Placed, Refusal>
    ensures { result ≡ before_blocks phase (0 <? listed) }
{
    match phase {
        Phase::BeforeBlocks if listed == 0 => Ok(Placed::Fields(records::JR)),
        _ => Err(Refusal::Misplaced),
    }
}

// A record of a block stands in one, and one that stands once is not there yet.
fn in_block(phase: Phase, cards: &[u64], item: usize) -> Result<Placed, Refusal>
    requires { (item < items) × Readable cards.now }
    ensures { (name : List ℕ) → result ≡ in_block phase (repeated item (block_of name cards.now)) item }
{
    match phase {
        Phase::InBlock if !blocks::is_repeated(cards, item) => Ok(Placed::Fields(item)),
        _ => Err(Refusal::Misplaced),
    }
}

// What a record does where the reading stands.
pub fn place_record(r: Reading, cards: &[u64], k: Record) -> Result<Placed, Refusal>
    requires { OfTable k × Readable cards.now }
    ensures { PlacedIs result (reading_is r cards.now) (record_is k) × MayRead result r.phase (time_is r.time) cards.now }
{
    let phase = r.phase;
    match k {
        Record::Id => before_time(phase, Placed::Passed(r.free)),
        Record::It => before_time(phase, Placed::Fields(records::IT)),
        Record::Jr => before_blocks(phase, r.time.ratios.count),
        Record::Kk => after_time(phase, Placed::Named),
        Record::Km => Ok(Placed::Passed(r.free)),
        Record::Zz => after_time(phase, Placed::Last),
        Record::Free => Ok(Placed::Passed(true)),
        Record::Fix => Ok(Placed::Passed(false)),
        Record::Of(item) => in_block(phase, cards, item),
    }
}
