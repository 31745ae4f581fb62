// The hand sheet of a runoff block in print: a title, and a table with a row for each interval that has excess. Or, of another block, that it has no sheet.
// Each function writes from a place on and answers the place behind it.
#![tactic(auto)]

ghost use Rattle.std.specs.Prelude.{◌≡◌, ◌++◌, ◌+◌, ◌*◌, ◌<◌, ◌≤◌, length};
ghost use Rattle.sequences.specs.Bounds.{AllUpTo};
ghost use Rattle.meaning.specs.Words.{bytes};
ghost use Rattle.meaning.specs.Sheet.{measure_name, title_line, head_line, cells_from, row_line, rows_from, sum_line, table_text, no_sheet_line};
ghost use Rattle.text.specs.Written.{Written};
ghost use Rattle.cells.specs.Sizes.{cell_size, most_depth, most_unit};
ghost use Rattle.cells.specs.Cells.{measure_is, share_by};
ghost use Rattle.sheets.specs.Sizes.{name_size, title_size, no_sheet_size, row_size, table_size};
ghost use Rattle.sheets.specs.Tables.{RuledColumns, columns_are, row_at};

use cells::Measure;

// What a table is made from: the unit ordinates, the rain, the loss and the excess of each interval, and the sum of each ordinate's column.
#[derive(Clone, Copy)]
pub struct Columns<'a> {
    pub units: &'a [u64],
    pub rains: &'a [u64],
    pub losses: &'a [u64],
    pub excesses: &'a [u64],
    pub sums: &'a [u64],
}

// The most ordinates that a deck has, and the bytes that their table has room in: a head, a row for each and the sums, of four cells and one for each ordinate.
const ORDINATES: usize = 300;

pub const TABLE: usize = cells::CELL * (ORDINATES + 4) * (ORDINATES + 2);

// The bytes that the title has room in where the name has at most six.
pub const TITLE: usize = 46;

// The measure's name, and the comma behind it.
fn write_measure(out: &mut [u8], at: usize, measure: Measure) -> usize
    requires { at + name_size ≤ length out.old }
    ensures { Written out.old at (measure_name (measure_is measure) ++ bytes ",") out.new result }
{
    match measure {
        Measure::Units => text::write_text(out, at, b"units,"),
        Measure::Customary => text::write_text(out, at, b"inches and cfs,"),
    }
}

// The title: the measure, the ratio in force, in hundredths, and the block's name.
pub fn write_title(out: &mut [u8], at: usize, measure: Measure, ratio: u64, name: &[u8]) -> usize
    requires { at + title_size (length name.now) ≤ length out.old }
    ensures { Written out.old at (title_line (measure_is measure) ratio name.now) out.new result }
{
    let second = write_measure(out, at, measure);
    let comma = text::write_two_places(out, second, ratio);
    let third = text::write_byte(out, comma, b',');
    let end = text::write_text(out, third, name);
    text::write_byte(out, end, b'\n')
}

// The line of a block of another kind.
pub fn write_no_sheet(out: &mut [u8], at: usize, kind: u64) -> usize
    requires { at + no_sheet_size ≤ length out.old }
    ensures { Written out.old at (no_sheet_line kind) out.new result }
{
    text::write_told(out, at, b"NO SHEET ", kind)
}

// The head of a table, with the numbers of `n` ordinates.
fn write_head(out: &mut [u8], start: usize, n: usize) -> usize
    requires { start + row_size n ≤ length out.old }
    ensures { Written out.old start (head_line n) out.new result }
{
    let mut at = text::write_text(out, start, b"interval,rain,loss,excess");
    for i in 0..n {
        at = cells::write_count(out, at, (i + 1) as u64);
    }
    text::write_byte(out, at, b'\n')
}

// The shares of interval `k`, with its excess, in `n` ordinates.
fn write_shares(
    out: &mut [u8],
    start: usize,
    measure: Measure,
    units: &[u64],
    excess: u64,
    k: usize,
    n: usize,
) -> usize
    requires { AllUpTo most_unit units.now × (excess ≤ most_depth) × (start + cell_size * n ≤ length out.old) }
    ensures { Written out.old start (cells_from (share_by (measure_is measure) units.now excess k) 0 n) out.new result }
{
    let mut at = start;
    for i in 0..n {
        at = cells::write_share(out, at, measure, units, excess, k, i);
    }
    at
}

// The row of interval `k`.
fn write_row(out: &mut [u8], at: usize, measure: Measure, columns: &Columns, k: usize) -> usize
    requires ruled { RuledColumns columns.now }
    requires k_in_bounds { (k < length columns.now.excesses.now) × (at + row_size (length columns.now.excesses.now) ≤ length out.old) }
    ensures { Written out.old at (row_line (measure_is measure) (columns_are columns.now) k) out.new result }
{
    let number = k + 1;
    let depths = text::write_whole(out, at, number as u64);
    let rain = columns.rains[k];
    let loss = columns.losses[k];
    let excess = columns.excesses[k];
    let n = columns.excesses.len();
    let shares = cells::write_depths(out, depths, measure, rain, loss, excess);
    let end = write_shares(out, shares, measure, columns.units, excess, k, n);
    text::write_byte(out, end, b'\n')
}

// The same if the interval has excess: without it there is no row.
fn write_interval(out: &mut [u8], at: usize, measure: Measure, columns: &Columns, k: usize) -> usize
    requires ruled { RuledColumns columns.now }
    requires k_in_bounds { (k < length columns.now.excesses.now) × (at + row_size (length columns.now.excesses.now) ≤ length out.old) }
    ensures { Written out.old at (row_at (measure_is measure) (columns_are columns.now) k) out.new result }
{
    if columns.excesses[k] == 0 {
        return at;
    }
    write_row(out, at, measure, columns, k)
}

// The rows of all intervals.
fn write_rows(out: &mut [u8], start: usize, measure: Measure, columns: &Columns) -> usize
    requires ruled { RuledColumns columns.now }
    requires excesses_in_bounds { start + row_size (length columns.now.excesses.now) * length columns.now.excesses.now ≤ length out.old }
    ensures { Written out.old start (rows_from (measure_is measure) (columns_are columns.now) 0 (length columns.now.excesses.now)) out.new result }
{
    let mut at = start;
    for k in 0..columns.excesses.len() {
        at = write_interval(out, at, measure, columns, k);
    }
    at
}

// The last row: the sums of the columns.
fn write_sums(out: &mut [u8], start: usize, measure: Measure, sums: &[u64]) -> usize
    requires { start + row_size (length sums.now) ≤ length out.old }
    ensures { Written out.old start (sum_line (measure_is measure) sums.now (length sums.now)) out.new result }
{
    let mut at = text::write_text(out, start, b"sum,,,");
    for &sum in sums {
        at = cells::write_flow(out, at, measure, sum);
    }
    text::write_byte(out, at, b'\n')
}

// The table, behind its title: its columns are given.
pub fn write_table(out: &mut [u8], at: usize, measure: Measure, columns: &Columns) -> usize
    requires ruled { RuledColumns columns.now }
    requires sums_len { (length columns.now.sums.now ≡ length columns.now.excesses.now) × (at + table_size (length columns.now.excesses.now) ≤ length out.old) }
    ensures { Written out.old at (table_text (measure_is measure) (columns_are columns.now) columns.now.sums.now) out.new result }
{
    let rows = write_head(out, at, columns.excesses.len());
    let last = write_rows(out, rows, measure, columns);
    write_sums(out, last, measure, columns.sums)
}
