// What an office keeps, in bytes as they stand. Standard input is a number of 4 bytes, the lowest first, and what it is asked of up to the input's end.
// 0: a deck, whose records go to standard output. 1: a result file in the old form, which goes there in the new. 2: one in the new form, which goes there in the old.
// Where that is refused nothing goes there, and the refusal to standard error: for a deck its number and line, for a file its number, 0 for one too long.
#![tactic(auto)]

ghost use Rattle.std.specs.Prelude.{◌≡◌, length};
ghost use Rattle.moving.specs.Answers.{outcome_is};
ghost use Rattle.store.specs.Kept.{moved_as};

use forms::Fault;
use listing::{ORDINATES, RECORDS};
use refusals::Refused;
use results::RECORD;
use streams::Stop;

// The most bytes that a result file may have, and those that it may take in the other form.
const FILE: usize = 1_600_000;

// One byte more: with it a file is too long, whatever follows, and so is a deck.
const HELD: usize = FILE + 1;

// "REFUSED ", at most 20 digits, the line's end.
const TOLD: usize = 29;

// Their own function: a proof that sees how so many bytes came to be counts them one by one.
fn zeros() -> [u8; HELD] {
    [0u8; HELD]
}

fn tell_refusal(rt: &HostRuntime, refused: Refused) {
    let mut out = [0u8; printing::REFUSAL];
    let n = printing::write_refusal(&mut out, refused.number, refused.line);
    streams::say(rt, &out[..n]);
}

fn tell_number(rt: &HostRuntime, number: u64) {
    let mut out = [0u8; TOLD];
    let n = text::write_told(&mut out, 0, b"REFUSED ", number);
    streams::say(rt, &out[..n]);
}

// With 6,000 words, 300 ordinates and the records of 200 blocks under nine ratios neither refusal 1 nor 17 is met.
fn keep_records(rt: &HostRuntime, deck: &[u8]) {
    let mut work = [0u64; answers::WORK];
    let mut ordinates = [0u64; ORDINATES];
    let mut records = [0u8; RECORDS];
    match engine::run(deck, 0, 0, &mut work, &mut ordinates, &mut records) {
        Ok(accepted) => {
            let n = RECORD * (accepted.blocks * accepted.ratios);
            streams::print(rt, &records[..n]);
        }
        Err(refused) => tell_refusal(rt, refused),
    }
}

// 1 asks for the new form, 2 for the old.
fn move_file(asked: usize, file: &[u8], room: &mut [u8]) -> Result<usize, Fault>
    ensures { outcome_is result room.new ≡ moved_as asked file.now (length room.old) }
{
    if asked == 1 {
        return moving::to_new(file, room);
    }
    moving::to_old(file, room)
}

fn put_moved(rt: &HostRuntime, asked: usize, file: &[u8], room: &mut [u8]) {
    match move_file(asked, file, room) {
        Ok(n) => {
            streams::print(rt, &room[..n]);
        }
        Err(fault) => tell_number(rt, fault.number()),
    }
}

fn keep_moved(rt: &HostRuntime, asked: usize, file: &[u8]) {
    if FILE < file.len() {
        tell_number(rt, 0);
        return;
    }
    let mut room = zeros();
    put_moved(rt, asked, file, &mut room[..FILE]);
}

fn keep(rt: &HostRuntime, asked: usize) {
    let mut file = zeros();
    let got = streams::read_all(rt, &mut file);
    if got.failed {
        streams::explain(rt, Err(Stop::Failed));
        return;
    }
    let n = got.count;
    if asked == 0 {
        keep_records(rt, &file[..n]);
    } else {
        keep_moved(rt, asked, &file[..n]);
    }
}

// A number that asks for nothing is an input cut short.
fn answer(rt: &HostRuntime, asked: usize) {
    if 2 < asked {
        streams::explain(rt, Err(Stop::Cut));
    } else {
        keep(rt, asked);
    }
}

// And so is no number.
fn main(rt: HostRuntime) {
    match streams::read_number(&rt) {
        Ok(asked) => answer(&rt, asked),
        Err(Stop::Failed) => streams::explain(&rt, Err(Stop::Failed)),
        Err(_) => streams::explain(&rt, Err(Stop::Cut)),
    }
}
