// A case of the program `mover`: what it says before its file, and what is printed of it.
#![tactic(auto)]

ghost use Rattle.std.specs.Prelude.{◌≡◌, ◌≤◌, length};
ghost use Rattle.text.specs.Written.{Written};
ghost use Rattle.text.specs.Counted.{Counted};
ghost use Rattle.moves.specs.Case.{move_case_of};
ghost use Rattle.moves.specs.Sizes.{answer_size, move_size};
ghost use Rattle.moves.specs.Told.{told_move, told_outcome};
ghost use Rattle.moves.specs.Text.{move_line, move_text};

// The most that a case may ask for, and the bytes that its text has room in: the answer, 2 for a byte of the room and the end of their line, the last line.
pub const ROOM: usize = 80_000;

pub const FILE: usize = 80_000;

pub const TEXT: usize = 29 + (2 * ROOM + 1) + 3;

// What a case says before its file: 0 for a move to the new form and 1 for one to the old, the bytes that are lent, and the file's length.
#[derive(Clone, Copy)]
pub struct Case {
    pub direction: usize,
    pub room: usize,
    pub size: usize,
}

// Three numbers, each in 4 bytes, the lowest first.
pub fn read_move(b: &[u8]) -> Case
    requires { 12 ≤ length b.now }
    ensures { result ≡ move_case_of b.now }
{
    Case {
        direction: slices::number_at(b, 0),
        room: slices::number_at(b, 4),
        size: slices::number_at(b, 8),
    }
}

// The line of the answer.
fn write_answer(out: &mut [u8], answer: Result<usize, u64>) -> usize
    requires { answer_size ≤ length out.old }
    ensures text { Written out.old 0 (move_line (told_move answer)) out.new result }
    ensures short { result ≤ answer_size }
{
    match answer {
        Ok(count) => text::write_told(out, 0, b"MOVED ", count as u64),
        Err(number) => text::write_told(out, 0, b"REFUSED ", number),
    }
}

// What is printed of a case, whose answer is the bytes moved or the number of a refusal, which may be any.
pub fn write_move(out: &mut [u8], answer: Result<usize, u64>, room: &[u8]) -> usize
    requires { move_size (length room.now) ≤ length out.old }
    ensures text { Written out.old 0 (move_text (told_outcome answer room.now)) out.new result }
    ensures counted { Counted result out.new }
{
    let bytes = write_answer(out, answer);
    let mark = hexes::write_bytes(out, bytes, room);
    text::write_text(out, mark, b"--\n")
}
