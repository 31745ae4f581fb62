// A case of the program `rooms`: what it says before its deck, and what is printed of it.
#![tactic(auto)]

ghost use Rattle.std.specs.Prelude.{◌≡◌, ◌+◌, ◌*◌, ◌≤◌, length};
ghost use Rattle.meaning.specs.Run.{Accepted};
ghost use Rattle.answers.specs.Answers.{answer_is, outcome_is};
ghost use Rattle.text.specs.Line.{line};
ghost use Rattle.text.specs.Written.{Written};
ghost use Rattle.text.specs.Counted.{Counted};
ghost use Rattle.cases.specs.Case.{case_of};
ghost use Rattle.cases.specs.Sizes.{answer_size, ordinate_size, left_size, case_size};
ghost use Rattle.cases.specs.Text.{answer_line, number_at, numbers_from, left, left_lines, case_text};

use answers::Answer;

// The most that a case may ask for, and the bytes that its text has room in: the answer, 21 for an ordinate, 2 for a record byte, the ends of these lines, the rest.
pub const WORK: usize = 12_000;

pub const ORDINATES: usize = 600;

pub const RECORDS: usize = 72_000;

pub const TEXT: usize = 63 + (21 * ORDINATES + 1) + (2 * RECORDS + 1) + 24;

// What a case says before its deck: the block and the ratio that are named, the words, ordinates and bytes that are lent, and the deck's length.
#[derive(Clone, Copy)]
pub struct Case {
    pub named: usize,
    pub ratio: usize,
    pub work: usize,
    pub ordinates: usize,
    pub records: usize,
    pub size: usize,
}

// Six numbers, each in 4 bytes, the lowest first.
pub fn read_case(b: &[u8]) -> Case
    requires { 24 ≤ length b.now }
    ensures { result ≡ case_of b.now }
{
    Case {
        named: slices::number_at(b, 0),
        ratio: slices::number_at(b, 4),
        work: slices::number_at(b, 8),
        ordinates: slices::number_at(b, 12),
        records: slices::number_at(b, 16),
        size: slices::number_at(b, 20),
    }
}

// The line of an acceptance.
fn write_counts(out: &mut [u8], ordinates: u64, blocks: u64, ratios: u64) -> usize
    requires { answer_size ≤ length out.old }
    ensures { Written out.old 0 (answer_line (Accepted ordinates blocks ratios)) out.new result }
{
    let second = text::write_whole(out, 0, ordinates);
    let third = text::write_number(out, second, blocks);
    let end = text::write_number(out, third, ratios);
    text::write_byte(out, end, b'\n')
}

// The line of the answer.
fn write_answer(out: &mut [u8], answer: Answer) -> usize
    requires { answer_size ≤ length out.old }
    ensures text { Written out.old 0 (answer_line (answer_is answer)) out.new result }
    ensures short { result ≤ answer_size }
{
    match answer {
        Ok(accepted) => write_counts(
            out,
            accepted.ordinates as u64,
            accepted.blocks as u64,
            accepted.ratios as u64,
        ),
        Err(refused) => printing::write_refusal(out, refused.number, refused.line),
    }
}

// A blank before each number but the first.
fn write_ordinate(out: &mut [u8], at: usize, i: usize, x: u64) -> usize
    requires { at + ordinate_size ≤ length out.old }
    ensures { Written out.old at (number_at i x) out.new result }
{
    if i == 0 {
        return text::write_whole(out, at, x);
    }
    text::write_number(out, at, x)
}

// The line of the ordinates.
fn write_ordinates(out: &mut [u8], start: usize, ordinates: &[u64]) -> usize
    requires { start + ordinate_size * length ordinates.now + 1 ≤ length out.old }
    ensures text { Written out.old start (line (numbers_from 0 ordinates.now)) out.new result }
    ensures short { result ≤ start + ordinate_size * length ordinates.now + 1 }
{
    let mut at = start;
    for (i, x) in ordinates.iter().enumerate() {
        at = write_ordinate(out, at, i, *x);
    }
    text::write_byte(out, at, b'\n')
}

// How many words are not zero.
fn count_left(words: &[u64]) -> u64
    ensures { result ≡ left words.now }
{
    words.iter().filter(|w| **w != 0).count() as u64
}

// The line of the count, and the last one.
fn write_left(out: &mut [u8], at: usize, work: &[u64]) -> usize
    requires { at + left_size ≤ length out.old }
    ensures { Written out.old at (left_lines work.now) out.new result }
{
    let end = text::write_whole(out, at, count_left(work));
    let mark = text::write_byte(out, end, b'\n');
    text::write_text(out, mark, b"--\n")
}

// What is printed of a case.
pub fn write_case(
    out: &mut [u8],
    answer: Answer,
    work: &[u64],
    ordinates: &[u64],
    records: &[u8],
) -> usize
    requires { case_size (length ordinates.now) (length records.now) ≤ length out.old }
    ensures text { Written out.old 0 (case_text (outcome_is answer work.now ordinates.now records.now)) out.new result }
    ensures counted { Counted result out.new }
{
    let flows = write_answer(out, answer);
    let bytes = write_ordinates(out, flows, ordinates);
    let count = hexes::write_bytes(out, bytes, records);
    write_left(out, count, work)
}
