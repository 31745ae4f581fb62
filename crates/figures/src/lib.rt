// A record in print: one line, of its name and its figures. What is written stands from a place on, and the answer is the place behind it.
#![tactic(auto)]

ghost use Rattle.std.specs.Prelude.{◌≡◌, ◌+◌, ◌≤◌, length};
ghost use Rattle.meaning.specs.Results.{record_size};
ghost use Rattle.meaning.specs.Listing.{rounded};
ghost use Rattle.text.specs.Written.{Written};
ghost use Rattle.figures.specs.Line.{figures_of, figures_text, line_of};

// A flow in hundredths of a cfs, half up: one more where half of one or more is left.
fn round_flow(flow: u64) -> u64
    ensures { result ≡ rounded flow }
{
    flow / 600_000 + flow % 600_000 / 300_000
}

// The numbers of a line: area and peak in hundredths.
#[derive(Clone, Copy)]
struct Figures {
    pub kind: u64,
    pub area: u64,
    pub peak: u64,
    pub interval: u64,
    pub sum: u64,
}

fn read_figures(from: &[u8]) -> Figures
    requires { length from.now ≡ record_size }
    ensures { result ≡ figures_of from.now }
{
    Figures {
        kind: slices::read_le(&from[6..7]),
        area: slices::read_le(&from[8..12]),
        peak: round_flow(slices::read_le(&from[12..20])),
        interval: slices::read_le(&from[20..22]),
        sum: slices::read_le(&from[24..32]),
    }
}

// A line behind its name.
fn write_figures(out: &mut [u8], at: usize, f: Figures) -> usize
    requires { at + length (figures_text f) ≤ length out.old }
    ensures { Written out.old at (figures_text f) out.new result }
{
    let kind = text::write_number(out, at, f.kind);
    let area = text::write_amount(out, kind, f.area);
    let peak = text::write_amount(out, area, f.peak);
    let interval = text::write_number(out, peak, f.interval);
    let sum = text::write_number(out, interval, f.sum);
    text::write_byte(out, sum, b'\n')
}

// The line of one record.
pub fn write_line(out: &mut [u8], at: usize, from: &[u8]) -> usize
    requires { (length from.now ≡ record_size) × (at + length (line_of from.now) ≤ length out.old) }
    ensures { Written out.old at (line_of from.now) out.new result }
{
    let next = text::write_text(out, at, text::trim_blanks(&from[0..6]));
    write_figures(out, next, read_figures(from))
}
