// The rounds of a run: a walk over the deck under each ratio in turn, and of what they come to that which is met first.
#![tactic(auto)]

ghost use Rattle.std.specs.Prelude.{◌≡◌, ◌+◌, ◌≤◌, ◌<◌, length, replicate};
ghost use Rattle.meaning.specs.Records.{table};
ghost use Rattle.meaning.specs.Run.{work_size};
ghost use Rattle.records.specs.Rows.{words_of};
ghost use Rattle.passes.specs.Apart.{ratio_count};
ghost use Rattle.rounds.specs.Rounds.{Rounds, Begun};
ghost use Rattle.rounds.specs.Every.{EveryIs};

use answers::Wanted;
use refusals::Refused;
use turns::Worked;
use walking::Walked;

// The first round. What is lent for results holds zeros before.
fn walk_first(
    deck: &[u8],
    wanted: Wanted,
    work: &mut [u64],
    ordinates: &mut [u64],
    records: &mut [u8],
    cards: &mut [u64],
) -> Walked
    requires work_size_in_bounds { (work_size ≤ length work.old) × (words_of table ≤ length cards.old) }
    requires ordinates_value { (ordinates.old ≡ replicate (length ordinates.old) 0) × (records.old ≡ replicate (length records.old) 0) }
    ensures { Begun deck.now wanted (length ordinates.old) (length records.old) result ordinates.new records.new }
{
    let from = lending::ordinates_from(false, wanted.ratio, 0, ordinates.len());
    walking::walk_deck(
        deck,
        wanted.block,
        0,
        work,
        &mut ordinates[from..],
        records,
        cards,
    )
}

// Another round, and what all of them have come to.
fn walk_next(
    deck: &[u8],
    wanted: Wanted,
    place: usize,
    found: Result<Worked, Refused>,
    work: &mut [u64],
    ordinates: &mut [u64],
    records: &mut [u8],
    cards: &mut [u64],
) -> Result<Worked, Refused>
    requires work_size_in_bounds { (work_size ≤ length work.old) × (words_of table ≤ length cards.old) }
    requires place_bound { (place < ratio_count deck.now) × (place ≤ 9) }
    requires rounds { Rounds deck.now wanted (length ordinates.old) (length records.old) place found ordinates.old records.old }
    ensures { Rounds deck.now wanted (length ordinates.old) (length records.old) (place + 1) result ordinates.new records.new }
{
    let from = lending::ordinates_from(found.is_err(), wanted.ratio, place, ordinates.len());
    let behind = lending::records_from(found, place, records.len());
    lending::clear_from(ordinates, from);
    let walked = walking::walk_deck(
        deck,
        wanted.block,
        place,
        work,
        &mut ordinates[from..],
        &mut records[behind..],
        cards,
    );
    lending::sooner(found, walked.worked)
}

// A round under every ratio. A refusal does not end them, since that of another ratio may be met on an earlier line. What is lent for results holds zeros before.
pub fn walk_every(
    deck: &[u8],
    wanted: Wanted,
    work: &mut [u64],
    ordinates: &mut [u64],
    records: &mut [u8],
) -> Walked
    requires work_size_in_bounds { work_size ≤ length work.old }
    requires ordinates_value { (ordinates.old ≡ replicate (length ordinates.old) 0) × (records.old ≡ replicate (length records.old) 0) }
    ensures { EveryIs deck.now wanted (length ordinates.old) (length records.old) result ordinates.new records.new }
{
    let mut cards = [0u64; records::WORDS];
    let first = walk_first(deck, wanted, work, ordinates, records, &mut cards);
    let ratios = first.ratios;
    let mut worked = first.worked;
    for place in 1..lending::count_of(ratios) {
        worked = walk_next(
            deck, wanted, place, worked, work, ordinates, records, &mut cards,
        );
    }
    Walked { worked, ratios }
}
