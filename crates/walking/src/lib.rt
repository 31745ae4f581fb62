// The walk over a deck: its blocks read one after the other, each closed as the next is opened, and what comes of them.
#![tactic(auto)]

ghost use Rattle.std.specs.Prelude.{◌≡◌, ◌≤◌, length, replicate};
ghost use Rattle.meaning.specs.Records.{table};
ghost use Rattle.meaning.specs.Run.{work_size};
ghost use Rattle.records.specs.Rows.{words_of};
ghost use Rattle.blocks.specs.Meant.{time_is};
ghost use Rattle.placing.specs.Readings.{block_is};
ghost use Rattle.walking.specs.Going.{MayFinish, Finishes, MayClose, ClosedBy, Going, reading_under, TurnIs, WalkedIs};

use blocks::Ratios;
use placing::{Phase, Reading};
use reading::Event;
use refusals::{Refusal, Refused};
use stack::Stack;
use turns::{State, Turn, Worked};
use writing::Asked;

// The open block, before which `k` blocks were closed, closed; and, if it was not refused, its result written.
fn finish_block(
    r: Reading,
    held: Stack,
    k: usize,
    asked: Asked,
    work: &mut [u64],
    ordinates: &mut [u64],
    records: &mut [u8],
    cards: &[u64],
) -> Result<Stack, Refusal>
    requires { MayFinish r held k asked.place work.old cards.now }
    ensures { Finishes (time_is r.time) (block_is r cards.now) held asked.named asked.place k result work.old work.new ordinates.old ordinates.new records.old records.new }
{
    let closed = closing::close_block(work, held, r.time, cards)?;
    writing::write_result(r.name, closed, k, asked, r.time, work, ordinates, records);
    Ok(closed.held)
}

// The reading with the ratio at that place in force.
fn read_under(r: Reading, place: usize) -> Reading
    requires { r.time.ratios.count ≤ 9 }
    ensures { result ≡ reading_under place r }
{
    let ratio = blocks::ratio_at(r.time.ratios, place);
    Reading {
        time: blocks::under(r.time, ratio),
        ..r
    }
}

// Where KK or ZZ closes a block under a ratio, if one is open.
fn close_open(
    r: Reading,
    held: Stack,
    blocks: usize,
    asked: Asked,
    work: &mut [u64],
    ordinates: &mut [u64],
    records: &mut [u8],
    cards: &[u64],
) -> Result<Stack, Refusal>
    requires { MayClose (reading_under asked.place r) held blocks asked.place work.old cards.now }
    ensures { ClosedBy r.phase (reading_under asked.place r) held blocks asked.named asked.place result work.old work.new ordinates.old ordinates.new records.old records.new cards.now }
{
    match r.phase {
        Phase::BeforeTime | Phase::BeforeBlocks => Ok(held),
        Phase::InBlock => {
            let under = read_under(r, asked.place);
            finish_block(
                under,
                held,
                blocks - 1,
                asked,
                work,
                ordinates,
                records,
                cards,
            )
        }
    }
}

// Reads on to the next block's opening or the deck's end, and does what is due there.
fn step(
    deck: &[u8],
    named: usize,
    place: usize,
    s: State,
    work: &mut [u64],
    ordinates: &mut [u64],
    records: &mut [u8],
    cards: &mut [u64],
) -> Result<Turn, Refused>
    requires { Going deck.now named place (length ordinates.old) (length records.old) s work.old ordinates.old records.old cards.old }
    ensures { TurnIs deck.now named place (length ordinates.old) (length records.old) s result work.new ordinates.new records.new cards.new }
{
    let got = reading::read_on(deck, s.at, s.line, s.reading, cards);
    let line = got.line;
    let r = got.reading;
    let asked = Asked { named, place };
    match got.event {
        Event::Opened(name) => {
            let closed = close_open(r, s.held, s.blocks, asked, work, ordinates, records, cards);
            let told = closed.map_err(Refusal::number);
            let next = turns::open_next(s, r, name, got.at, line, told, cards)?;
            Ok(Turn::GoesOn(next))
        }
        Event::Ended => {
            let closed = close_open(r, s.held, s.blocks, asked, work, ordinates, records, cards);
            let told = closed.map_err(Refusal::number);
            let worked = turns::end_deck(s, r.time.ordinates, line, told, named, work, ordinates)?;
            Ok(Turn::Ended(worked))
        }
        Event::Refused(refusal) => turns::stop(refusal.number(), line),
        Event::Missing => turns::stop(Refusal::NoLastLine.number(), 0),
    }
}

// A deck walked: what it came to, and the ratios in force where it did, none before its first block.
#[derive(Clone, Copy)]
pub struct Walked {
    pub worked: Result<Worked, Refused>,
    pub ratios: Ratios,
}

// The whole deck, block after block, under the ratio at a place. What is lent for results holds zeros before.
pub fn walk_deck(
    deck: &[u8],
    named: usize,
    place: usize,
    work: &mut [u64],
    ordinates: &mut [u64],
    records: &mut [u8],
    cards: &mut [u64],
) -> Walked
    requires work_size_in_bounds { (work_size ≤ length work.old) × (words_of table ≤ length cards.old) }
    requires ordinates_value { (ordinates.old ≡ replicate (length ordinates.old) 0) × (records.old ≡ replicate (length records.old) 0) }
    requires place_bound { place ≤ 9 }
    ensures { WalkedIs deck.now named place (length ordinates.old) (length records.old) result ordinates.new records.new }
{
    let mut s = turns::first_state(cards);
    loop {
        let worked = match step(deck, named, place, s, work, ordinates, records, cards) {
            Ok(Turn::GoesOn(next)) => {
                s = next;
                continue;
            }
            Ok(Turn::Ended(worked)) => Ok(worked),
            Err(refused) => Err(refused),
        };
        let ratios = s.reading.time.ratios;
        return Walked { worked, ratios };
    }
}
