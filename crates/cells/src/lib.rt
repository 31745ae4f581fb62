// The cells of a runoff block's hand sheet: a figure in one of two measures, behind its comma. Each function writes from a place on and answers the place behind it.
#![tactic(auto)]

ghost use Rattle.std.specs.Prelude.{◌+◌, ◌≤◌, length};
ghost use Rattle.sequences.specs.Bounds.{AllUpTo};
ghost use Rattle.meaning.specs.Listing.{whole};
ghost use Rattle.meaning.specs.Sheet.{depth_text, flow_text};
ghost use Rattle.text.specs.Written.{Written};
ghost use Rattle.cells.specs.Sizes.{cell_size, depths_size, most_depth, most_unit};
ghost use Rattle.cells.specs.Cells.{measure_is, cell, figure_text, depths_text, share_by};

// The bytes that any cell has room in: a comma, 20 digits, a point, six places.
pub const CELL: usize = 28;

// Depth and flow units, exact; or inches and cfs to six places, half up.
#[derive(Clone, Copy)]
pub enum Measure {
    Units,
    Customary,
}

// A count, as it is.
pub fn write_count(out: &mut [u8], at: usize, x: u64) -> usize
    requires { at + cell_size ≤ length out.old }
    ensures { Written out.old at (cell (whole x)) out.new result }
{
    let next = text::write_byte(out, at, b',');
    text::write_whole(out, next, x)
}

// A figure, of which both are given: the units and the millionths of the other measure.
fn write_figure(out: &mut [u8], at: usize, measure: Measure, units: u64, millionths: u64) -> usize
    requires { at + cell_size ≤ length out.old }
    ensures { Written out.old at (cell (figure_text (measure_is measure) units millionths)) out.new result }
{
    let next = text::write_byte(out, at, b',');
    match measure {
        Measure::Units => text::write_whole(out, next, units),
        Measure::Customary => text::write_six_places(out, next, millionths),
    }
}

// A depth unit is ten sixths of a millionth of an inch.
pub fn write_depth(out: &mut [u8], at: usize, measure: Measure, depth: u64) -> usize
    requires { (depth ≤ most_depth) × (at + cell_size ≤ length out.old) }
    ensures { Written out.old at (cell (depth_text (measure_is measure) depth)) out.new result }
{
    write_figure(out, at, measure, depth, (10 * depth + 3) / 6)
}

// A flow unit is a sixtieth of a millionth of a cfs. What is left of a whole one is rounded by itself, so that no flow is too large.
pub fn write_flow(out: &mut [u8], at: usize, measure: Measure, flow: u64) -> usize
    requires { at + cell_size ≤ length out.old }
    ensures { Written out.old at (cell (flow_text (measure_is measure) flow)) out.new result }
{
    write_figure(out, at, measure, flow, flow / 60 + (flow % 60 + 30) / 60)
}

// The rain, the loss and the excess of an interval.
pub fn write_depths(
    out: &mut [u8],
    at: usize,
    measure: Measure,
    rain: u64,
    loss: u64,
    excess: u64,
) -> usize
    requires { (rain ≤ most_depth) × (loss ≤ most_depth) × (excess ≤ most_depth) × (at + depths_size ≤ length out.old) }
    ensures { Written out.old at (depths_text (measure_is measure) rain loss excess) out.new result }
{
    let second = write_depth(out, at, measure, rain);
    let third = write_depth(out, second, measure, loss);
    write_depth(out, third, measure, excess)
}

// The share that interval `k`, with its excess, has in ordinate `i`: the cell is empty before the interval, and behind its last unit ordinate.
pub fn write_share(
    out: &mut [u8],
    at: usize,
    measure: Measure,
    units: &[u64],
    excess: u64,
    k: usize,
    i: usize,
) -> usize
    requires { AllUpTo most_unit units.now × (excess ≤ most_depth) × (at + cell_size ≤ length out.old) }
    ensures { Written out.old at (cell (share_by (measure_is measure) units.now excess k i)) out.new result }
{
    if i < k {
        return text::write_byte(out, at, b',');
    }
    let j = i - k;
    if units.len() <= j {
        return text::write_byte(out, at, b',');
    }
    write_flow(out, at, measure, units[j] * excess)
}
