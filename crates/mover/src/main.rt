// Cases from standard input, each the direction (0 to the new form, 1 to the old), the bytes of room and the file's length, in 4 bytes each, and the file.
// The room is filled with ones before a move. Of each: the answer, all bytes of the room, and '--'.
#![tactic(auto)]

ghost use Rattle.std.specs.Prelude.{◌≤◌, length};

use forms::Fault;
use moves::Case;
use streams::Stop;

fn move_file(file: &[u8], direction: usize, room: &mut [u8]) -> Result<usize, Fault> {
    if direction == 0 {
        return moving::to_new(file, room);
    }
    moving::to_old(file, room)
}

fn run_case(rt: &HostRuntime, file: &[u8], direction: usize, room: &mut [u8])
    requires { length room.old ≤ 80_000 }
{
    let answer = move_file(file, direction, room).map_err(Fault::number);
    let mut out = [0u8; moves::TEXT];
    let n = moves::write_move(&mut out, answer, room);
    streams::print(rt, &out[..n]);
}

fn lend(rt: &HostRuntime, file: &[u8], case: Case)
    requires { case.room ≤ 80_000 }
{
    let n = case.room;
    let mut room = [1u8; moves::ROOM];
    run_case(rt, file, case.direction, &mut room[..n]);
}

// Answers whether the case has a known direction, asks no more than can be lent and has a file that can be held.
fn answer_next(rt: &HostRuntime, file: &mut [u8]) -> Result<bool, Stop> {
    let head = streams::read_head::<12>(rt)?;
    let case = moves::read_move(&head);
    if 1 < case.direction || moves::ROOM < case.room || moves::FILE < case.size {
        return Ok(false);
    }
    let kept = streams::read_deck(rt, file, case.size)?;
    lend(rt, &file[..kept], case);
    Ok(true)
}

fn main(rt: HostRuntime) {
    let mut file = [0u8; moves::FILE];
    streams::while_answered(&rt, || answer_next(&rt, &mut file));
}
