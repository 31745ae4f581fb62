// The hydrograph of one block of a deck in print. The engine is run; where it accepts the deck, the ordinates that it leaves for the block are written, each behind
// its interval and the end of it.
#![tactic(auto)]

ghost use Rattle.std.specs.Prelude.{◌≡◌, ◌+◌, ◌≤◌, ◌<◌, length};
ghost use Rattle.meaning.specs.Lines.{lines_of};
ghost use Rattle.meaning.specs.Fields.{Fixed};
ghost use Rattle.meaning.specs.Records.{most_ordinates};
ghost use Rattle.meaning.specs.Run.{BeforeTime};
ghost use Rattle.meaning.specs.Hydrograph.{ordinate_line, hydrograph_text, hydrograph};
ghost use Rattle.text.specs.Written.{Written};
ghost use Rattle.text.specs.Counted.{Counted};
ghost use Rattle.finding.specs.Place.{block_at};
ghost use Rattle.graphing.specs.Sizes.{most_minutes, line_size, hydrograph_size};
ghost use Rattle.graphing.specs.Texts.{minutes_at};

use cells::Measure;
use listing::{ORDINATES, RECORDS};

// The bytes that any hydrograph has room in: a head, and for each ordinate a line of four figures.
pub const HYDROGRAPH: usize = 27 + (4 * cells::CELL) * ORDINATES;

// The line of the ordinate that stands behind `i` others: its interval, the minutes at its end, its flow.
fn write_ordinate(out: &mut [u8], at: usize, minutes: u64, i: u64, flow: u64) -> usize
    requires { (minutes ≤ most_minutes) × (i < most_ordinates) × (at + line_size ≤ length out.old) }
    ensures { Written out.old at (ordinate_line minutes (i + 1) flow) out.new result }
{
    let interval = i + 1;
    let second = text::write_whole(out, at, interval);
    let third = cells::write_count(out, second, minutes * interval);
    let fourth = cells::write_flow(out, third, Measure::Customary, flow);
    let end = cells::write_flow(out, fourth, Measure::Units, flow);
    text::write_byte(out, end, b'\n')
}

// The head, and the lines of all ordinates.
fn write_hydrograph(out: &mut [u8], minutes: u64, flows: &[u64]) -> usize
    requires { (minutes ≤ most_minutes) × (length flows.now ≤ most_ordinates) × (hydrograph_size ≤ length out.old) }
    ensures { Written out.old 0 (hydrograph_text minutes flows.now) out.new result }
{
    let mut at = text::write_text(out, 0, b"interval,minutes,cfs,units\n");
    for (i, &flow) in flows.iter().enumerate() {
        at = write_ordinate(out, at, minutes, i as u64, flow);
    }
    at
}

// The minutes of an interval: those under which the deck's first block closes; 0 where none does.
fn minutes_of(deck: &[u8]) -> u64
    ensures { (result ≡ minutes_at (block_at (lines_of deck.now) (BeforeTime Fixed) 1)) × (result ≤ most_minutes) }
{
    let mut cards = [0u64; records::WORDS];
    match finding::find_block(deck, 1, &mut cards) {
        Some(found) => found.time.minutes,
        None => 0,
    }
}

// The hydrograph of a deck's block under a ratio, both by their numbers, or the line of its refusal. With 6,000 words, 300 ordinates and the records of 200 blocks
// under nine ratios 1 is not met, and 17 only where there is no such block or ratio.
pub fn hydrograph_deck(deck: &[u8], named: usize, ratio: usize, out: &mut [u8]) -> usize
    requires { hydrograph_size ≤ length out.old }
    ensures told { Written out.old 0 (hydrograph deck.now named ratio) out.new result }
    ensures counted { Counted result out.new }
{
    let mut work = [0u64; answers::WORK];
    let mut ordinates = [0u64; ORDINATES];
    let mut records = [0u8; RECORDS];
    let answer = engine::run(deck, named, ratio, &mut work, &mut ordinates, &mut records);
    match answer {
        Ok(accepted) => {
            let minutes = minutes_of(deck);
            write_hydrograph(out, minutes, &ordinates[..accepted.ordinates])
        }
        Err(refused) => printing::write_refusal(out, refused.number, refused.line),
    }
}
