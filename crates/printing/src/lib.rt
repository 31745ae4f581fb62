// Records and refusals in print: a line for each record, under a line with its ratio where ratios are listed, and the block count; or one line for a refusal.
// Each function that writes does so from a place on and answers the place behind it.
#![tactic(auto)]

ghost use Rattle.std.specs.Prelude.{◌++◌, ◌+◌, ◌*◌, ◌≤◌, length};
ghost use Rattle.meaning.specs.Results.{record_size};
ghost use Rattle.meaning.specs.Listing.{refused_line, ratio_line, end_line};
ghost use Rattle.text.specs.Written.{Written};
ghost use Rattle.figures.specs.Line.{line_size};
ghost use Rattle.printing.specs.Sizes.{most_ratio, ratio_size, refusal_size, Roomy};
ghost use Rattle.printing.specs.Lines.{lines_to, under_to, blocks_text, listing_of};

use results::RECORD;

// The bytes that the line of any refusal has room in.
pub const REFUSAL: usize = 50;

// The lines of the first `blocks` records.
fn write_lines(out: &mut [u8], start: usize, records: &[u8], blocks: usize) -> usize
    requires { (record_size * blocks ≤ length records.now) × (start + line_size * blocks ≤ length out.old) }
    ensures { Written out.old start (lines_to blocks records.now) out.new result }
{
    let mut at = start;
    for record in records[..RECORD * blocks].chunks_exact(RECORD) {
        at = figures::write_line(out, at, record);
    }
    at
}

// The line of a ratio, in hundredths.
fn write_ratio(out: &mut [u8], at: usize, ratio: u64) -> usize
    requires { at + length (ratio_line ratio) ≤ length out.old }
    ensures { Written out.old at (ratio_line ratio) out.new result }
{
    let number = text::write_text(out, at, b"RATIO");
    let end = text::write_amount(out, number, ratio);
    text::write_byte(out, end, b'\n')
}

// The line of a ratio and the lines of its records behind it.
fn write_under(out: &mut [u8], at: usize, ratio: u64, records: &[u8], blocks: usize) -> usize
    requires { (ratio ≤ most_ratio) × (record_size * blocks ≤ length records.now) × (at + (ratio_size + line_size * blocks) ≤ length out.old) }
    ensures { Written out.old at (ratio_line ratio ++ lines_to blocks records.now) out.new result }
{
    let next = write_ratio(out, at, ratio);
    write_lines(out, next, records, blocks)
}

// The same for each ratio, whose records stand one ratio's behind another's.
fn write_ratios(out: &mut [u8], records: &[u8], blocks: usize, ratios: &[u64]) -> usize
    requires { Roomy ratios.now blocks (length records.now) (length out.old) }
    ensures { Written out.old 0 (under_to (length ratios.now) ratios.now blocks records.now) out.new result }
{
    let mut at = 0;
    for (i, &ratio) in ratios.iter().enumerate() {
        let p = RECORD * (blocks * i);
        at = write_under(out, at, ratio, &records[p..], blocks);
    }
    at
}

// The lines of all records: without ratios there is nothing but them.
fn write_blocks(out: &mut [u8], records: &[u8], blocks: usize, ratios: &[u64]) -> usize
    requires { Roomy ratios.now blocks (length records.now) (length out.old) }
    ensures { Written out.old 0 (blocks_text ratios.now blocks records.now) out.new result }
{
    if ratios.is_empty() {
        return write_lines(out, 0, records, blocks);
    }
    write_ratios(out, records, blocks, ratios)
}

// The last line.
fn write_end(out: &mut [u8], at: usize, blocks: u64) -> usize
    requires { at + length (end_line blocks) ≤ length out.old }
    ensures { Written out.old at (end_line blocks) out.new result }
{
    text::write_told(out, at, b"END ", blocks)
}

// The listing of an accepted run from its records, and from the ratios that are listed, if any are.
pub fn write_listing(out: &mut [u8], records: &[u8], blocks: usize, ratios: &[u64]) -> usize
    requires { Roomy ratios.now blocks (length records.now) (length out.old) }
    ensures { Written out.old 0 (listing_of ratios.now blocks records.now) out.new result }
{
    let at = write_blocks(out, records, blocks, ratios);
    write_end(out, at, blocks as u64)
}

// The listing of a refused deck.
pub fn write_refusal(out: &mut [u8], number: u64, line: u64) -> usize
    requires { refusal_size ≤ length out.old }
    ensures { Written out.old 0 (refused_line number line) out.new result }
{
    let first = text::write_text(out, 0, b"REFUSED ");
    let second = text::write_whole(out, first, number);
    let end = text::write_number(out, second, line);
    text::write_byte(out, end, b'\n')
}
