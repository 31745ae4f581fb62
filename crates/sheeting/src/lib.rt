// The hand sheet of one block of a deck. The engine is run; where it accepts the deck, the block is found, its columns are made, and they are put in print.
// Each function writes from the first byte on and answers the place behind what it wrote.
#![tactic(auto)]

ghost use Rattle.std.specs.Prelude.{◌≡◌, ◌++◌, ◌-◌, ◌≤◌, length};
ghost use Rattle.meaning.specs.Lines.{lines_of};
ghost use Rattle.meaning.specs.Fields.{Fixed};
ghost use Rattle.meaning.specs.Records.{most_ordinates};
ghost use Rattle.meaning.specs.Run.{BeforeTime};
ghost use Rattle.meaning.specs.Sheet.{Units, Customary, table_of, sheet_text, sheet};
ghost use Rattle.blocks.specs.Meant.{time_is, name_is};
ghost use Rattle.blocks.specs.Cards.{block_of};
ghost use Rattle.shaping.specs.Limits.{Read};
ghost use Rattle.text.specs.Written.{Written};
ghost use Rattle.text.specs.Counted.{Counted};
ghost use Rattle.sheets.specs.Tables.{RuledColumns, columns_are};
ghost use Rattle.finding.specs.Place.{block_at};
ghost use Rattle.listing.specs.Naming.{number_of};
ghost use Rattle.sheeting.specs.Sizes.{sheet_size};
ghost use Rattle.sheeting.specs.Texts.{block_text, sheet_at};

use blocks::{Name, Time};
use cells::Measure;
use listing::{ORDINATES, RECORDS};
use sheets::Columns;

// The bytes that any sheet has room in: two tables with their titles.
pub const SHEET: usize = 2 * (sheets::TITLE + sheets::TABLE);

// The tables of a block in both measures, from its columns.
fn write_tables(out: &mut [u8], ratio: u64, name: &[u8], columns: &Columns) -> usize
    requires ruled { RuledColumns columns.now }
    requires sums_len { (length columns.now.sums.now ≡ length columns.now.excesses.now) × (length columns.now.excesses.now ≤ most_ordinates) × (length name.now ≤ 6) × (sheet_size ≤ length out.old) }
    ensures { Written out.old 0 (block_text ratio name.now (columns_are columns.now) columns.now.sums.now) out.new result }
{
    let exact = sheets::write_title(out, 0, Measure::Units, ratio, name);
    let next = sheets::write_table(out, exact, Measure::Units, columns);
    let rounded = sheets::write_title(out, next, Measure::Customary, ratio, name);
    sheets::write_table(out, rounded, Measure::Customary, columns)
}

// The same of the runoff block that the cards hold, with words lent for its columns.
fn write_columns(
    out: &mut [u8],
    time: Time,
    name: Name,
    cards: &[u64],
    rains: &mut [u64],
    losses: &mut [u64],
    excesses: &mut [u64],
    sums: &mut [u64],
) -> usize
    requires read { Read (time_is time) cards.now }
    requires rains_len { (length rains.old ≡ time.ordinates) × (length losses.old ≡ time.ordinates) × (length excesses.old ≡ time.ordinates) × (length sums.old ≡ time.ordinates) }
    requires letters_bound { (name.letters ≤ 6) × (sheet_size ≤ length out.old) }
    ensures { Written out.old 0 (table_of Units (time_is time) (block_of (name_is name) cards.now) ++ table_of Customary (time_is time) (block_of (name_is name) cards.now)) out.new result }
{
    columns::fill_columns(rains, losses, excesses, sums, time, cards);
    let letters = name.letters;
    let bytes = name.bytes;
    let units = blocks::values(cards, records::UI);
    let columns = Columns {
        units,
        rains,
        losses,
        excesses,
        sums,
    };
    write_tables(out, time.ratio, &bytes[..letters], &columns)
}

// The tables of the runoff block that the cards hold.
fn write_runoff(out: &mut [u8], time: Time, name: Name, cards: &[u64]) -> usize
    requires read { Read (time_is time) cards.now }
    requires letters_bound { (name.letters ≤ 6) × (sheet_size ≤ length out.old) }
    ensures { Written out.old 0 (table_of Units (time_is time) (block_of (name_is name) cards.now) ++ table_of Customary (time_is time) (block_of (name_is name) cards.now)) out.new result }
{
    let n = time.ordinates;
    let mut rains = [0u64; ORDINATES];
    let mut losses = [0u64; ORDINATES];
    let mut excesses = [0u64; ORDINATES];
    let mut sums = [0u64; ORDINATES];
    write_columns(
        out,
        time,
        name,
        cards,
        &mut rains[..n],
        &mut losses[..n],
        &mut excesses[..n],
        &mut sums[..n],
    )
}

// The sheet of the block that the cards hold: only a runoff block has one.
fn write_sheet(out: &mut [u8], time: Time, name: Name, cards: &[u64]) -> usize
    requires read { Read (time_is time) cards.now }
    requires letters_bound { (name.letters ≤ 6) × (sheet_size ≤ length out.old) }
    ensures { Written out.old 0 (sheet_text (time_is time) (block_of (name_is name) cards.now)) out.new result }
{
    let kind = shaping::number_of(kinds::kind_of(cards));
    if kind == 1 {
        return write_runoff(out, time, name, cards);
    }
    sheets::write_no_sheet(out, 0, kind as u64)
}

// The sheet of the block of that number under the ratio of that number, both from 1; nothing where the block is not found.
fn sheet_block(deck: &[u8], number: usize, ratio: usize, out: &mut [u8]) -> usize
    requires { sheet_size ≤ length out.old }
    ensures { Written out.old 0 (sheet_at (ratio - 1) (block_at (lines_of deck.now) (BeforeTime Fixed) number)) out.new result }
{
    let mut cards = [0u64; records::WORDS];
    let Some(found) = finding::find_block(deck, number, &mut cards) else {
        return 0;
    };
    let rate = blocks::ratio_at(found.time.ratios, ratio.saturating_sub(1));
    write_sheet(out, blocks::under(found.time, rate), found.name, &cards)
}

// The number of what is named; 0 names the last of so many.
fn number_of(named: usize, count: usize) -> usize
    ensures { result ≡ number_of named count }
{
    if named == 0 { count } else { named }
}

// The sheet of a deck's block under a ratio, both by their numbers, or the line of its refusal. With 6,000 words, 300 ordinates and the records of 200 blocks
// under nine ratios 1 is not met, and 17 only where there is no such block or ratio.
pub fn sheet_deck(deck: &[u8], named: usize, ratio: usize, out: &mut [u8]) -> usize
    requires { sheet_size ≤ length out.old }
    ensures told { Written out.old 0 (sheet deck.now named ratio) out.new result }
    ensures counted { Counted result out.new }
{
    let mut work = [0u64; answers::WORK];
    let mut ordinates = [0u64; ORDINATES];
    let mut records = [0u8; RECORDS];
    let answer = engine::run(deck, named, ratio, &mut work, &mut ordinates, &mut records);
    match answer {
        Ok(accepted) => {
            let block = number_of(named, accepted.blocks);
            let rate = number_of(ratio, accepted.ratios);
            sheet_block(deck, block, rate, out)
        }
        Err(refused) => printing::write_refusal(out, refused.number, refused.line),
    }
}
