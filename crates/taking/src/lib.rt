// A line's values taken, once its fields are read without a fault: into the time control, or into the open block.
#![tactic(auto)]

ghost use Rattle.std.specs.Prelude.{◌≡◌, ℕ, ◌≤◌, ◌<◌, List, length, get_or};
ghost use Rattle.meaning.specs.Records.{most_ordinates};
ghost use Rattle.records.specs.Rows.{items};
ghost use Rattle.blocks.specs.Meant.{ratios_is, time_is};
ghost use Rattle.scanning.specs.Scans.{scanned_of};
ghost use Rattle.placing.specs.Readings.{Ready};
ghost use Rattle.placing.specs.Places.{Due, DueTime};
ghost use Rattle.taking.specs.Taken.{with_time, TimeTaken, RatiosTaken, Passed, LineTaken, stays};

use blocks::{Ratios, Time};
use placing::{Phase, Reading};
use refusals::Refusal;
use scanning::Scan;

// A value outside its limits.
const OUTSIDE: Refusal = Refusal::OutsideLimits;

// A reading behind IT, under that time control.
fn with_time(r: Reading, time: Time) -> Reading
    ensures { result ≡ with_time r time }
{
    Reading {
        phase: Phase::BeforeBlocks,
        time,
        ..r
    }
}

// IT taken: minutes and ordinates.
fn take_time(r: Reading, values: &[u64]) -> Reading
    requires { (length values.now ≡ 10) × (get_or values.now 3 0 ≤ most_ordinates) }
    ensures { TimeTaken r values.now result }
{
    let time = Time {
        minutes: values[0],
        ordinates: values[3] as usize,
        ratio: 100,
        ratios: blocks::no_ratios(),
    };
    with_time(r, time)
}

// Ratios copied out of a line's values.
fn copy_ratios(listed: &[u64]) -> Ratios
    requires { length listed.now ≤ 9 }
    ensures { (ratios_is result ≡ listed.now) × (result.count ≤ 9) }
{
    let mut values = [0u64; 9];
    slices::copy_words(&mut values, listed);
    Ratios {
        values: values,
        count: listed.len(),
    }
}

// JR taken: behind the word the line's ratios, of which there is one at least, and none is 0, as a blank one between others is.
fn take_ratios(r: Reading, values: &[u64], count: usize) -> Result<Reading, Refusal>
    requires { (length values.now ≡ 10) × (count ≤ 10) }
    ensures { RatiosTaken r count values.now result }
{
    if count < 2 {
        return Err(OUTSIDE);
    }
    let listed = &values[1..count];
    if listed.contains(&0) {
        return Err(OUTSIDE);
    }
    let time = Time {
        ratios: copy_ratios(listed),
        ..r.time
    };
    Ok(with_time(r, time))
}

// The values of IT or JR, read without a fault: outside their limits they are refused by 7, else they are taken.
pub fn take_control(r: Reading, item: usize, values: &[u64], scan: Scan) -> Result<Reading, Refusal>
    requires { DueTime r.phase (time_is r.time) item × Passed item (scanned_of values.now scan) }
    ensures { (w : List ℕ) → Ready r w → LineTaken r item (scanned_of values.now scan) result w w }
{
    if scan.outside {
        return Err(OUTSIDE);
    }
    match r.phase {
        Phase::BeforeTime => Ok(take_time(r, values)),
        Phase::BeforeBlocks => take_ratios(r, values, scan.count),
        Phase::InBlock => unreachable!(),
    }
}

// The values of a record of the open block, read without a fault: outside their limits they are refused by 7, else they are taken, or refused by 8.
// The reading stays where it stands, and is not answered: such lines are most of a deck.
pub fn take_item(
    r: Reading,
    item: usize,
    values: &[u64],
    scan: Scan,
    cards: &mut [u64],
) -> Result<(), Refusal>
    requires item_lt { (item < items) × Ready r cards.old × Due r.phase (time_is r.time) item cards.old }
    requires passed { Passed item (scanned_of values.now scan) }
    ensures { LineTaken r item (scanned_of values.now scan) (stays r result) cards.old cards.new }
{
    if scan.outside {
        return Err(OUTSIDE);
    }
    blocks::take_values(cards, item, values, scan.count, r.time.ordinates)
}
