// The mover: a result file from the old form to the new, and back, between lent bytes.
#![tactic(auto)]

ghost use Rattle.std.specs.Prelude.{ℕ, List, ◌≡◌, ◌≤◌, ◌<◌, ◌*◌, ◌/◌, ◌^◌, length, take};
ghost use Rattle.meaning.specs.Words.{◌<?◌, met};
ghost use Rattle.meaning.specs.Results.{record_size, old_record_size};
ghost use Rattle.meaning.specs.Moving.{Outcome, old_padding, new_form, old_form, records_in, filled, to_new, to_old};
ghost use Rattle.forms.specs.Fault.{fault_is, number_of, fault_of};
ghost use Rattle.moving.specs.Answers.{outcome_is, refused_in, moved_in};
ghost use Rattle.moving.specs.Records.{moved_by};
ghost use Rattle.moving.specs.Loops.{MovedTo};
ghost use Rattle.moving.specs.Faults.{new_faults, old_faults};
ghost use Rattle.moving.specs.Ways.{refusal_of, Way, new_way, old_way};
ghost use Rattle.moving.specs.Directions.{Judges, Counts, new_fault, new_judges, old_judges, new_counts, old_counts};

use forms::Fault;
use results::{OLD, RECORD};

// A direction: the bytes of a record here and there, what a record is refused for, and how it is put there.
trait Direction {
    ghost SIZE: { ℕ };

    const SIZE: usize;

    ghost TO: { ℕ };

    const TO: usize;

    ghost form: { List ℕ → List ℕ };

    ghost fault: { List ℕ → ℕ };

    ghost faults: { List (List ℕ) → ℕ };

    ghost way: { List ℕ → ℕ → Outcome };

    fn find_fault(from: &[u8]) -> Option<Fault>
        requires { length from.now ≡ SIZE }
        ensures { fault_is result ≡ fault from.now };

    fn put(to: &mut [u8], from: &[u8])
        requires { (length to.old ≡ TO) × (length from.now ≡ SIZE) }
        ensures { to.new ≡ form from.now };

    ghost is_way: { Way SIZE TO form faults way };

    ghost judges: { Judges fault faults };

    ghost counts: { Counts SIZE TO };
}

struct ToNew;

struct ToOld;

impl Direction for ToNew {
    ghost SIZE = { old_record_size };

    const SIZE: usize = OLD;

    ghost TO = { record_size };

    const TO: usize = RECORD;

    ghost form = { new_form };

    ghost fault = { new_fault };

    ghost faults = { new_faults };

    ghost way = { to_new };

    fn find_fault(from: &[u8]) -> Option<Fault> {
        if forms::is_filled(from) {
            return Some(Fault::Padding);
        }
        None
    }

    fn put(to: &mut [u8], from: &[u8]) {
        forms::put_new(to, from);
    }

    ghost is_way = { new_way };

    ghost judges = { new_judges };

    ghost counts = { new_counts };
}

impl Direction for ToOld {
    ghost SIZE = { record_size };

    const SIZE: usize = RECORD;

    ghost TO = { old_record_size };

    const TO: usize = OLD;

    ghost form = { old_form };

    ghost fault = { fault_of };

    ghost faults = { old_faults };

    ghost way = { to_old };

    fn find_fault(from: &[u8]) -> Option<Fault> {
        forms::fault_of(from)
    }

    fn put(to: &mut [u8], from: &[u8]) {
        forms::put_old(to, from);
    }

    ghost is_way = { old_way };

    ghost judges = { old_judges };

    ghost counts = { old_counts };
}

// What a file is refused for by its records. Padding in a later record comes before another ratio in an earlier one, so that is noted and the loop goes on.
fn find_fault<D: Direction>(file: &[u8]) -> Option<Fault>
    ensures { fault_is result ≡ D.faults (records_in D.SIZE file.now) }
{
    let mut found = None;
    let mut rest = file;
    while let Some((record, behind)) = rest.split_at_checked(D::SIZE) {
        let fault = D::find_fault(record);
        if fault == Some(Fault::Padding) {
            return fault;
        }
        found = fault.or(found);
        rest = behind;
    }
    found
}

// What is refused for the room, where so many bytes are to be moved.
fn check_room(moved: usize, room: usize) -> Option<Fault>
    ensures { fault_is result ≡ met (room <? moved) 4 }
{
    if room < moved {
        Some(Fault::Room)
    } else {
        None
    }
}

// What a file is refused for, with so much room.
fn judge<D: Direction>(file: &[u8], room: usize) -> Option<Fault>
    ensures { fault_is result ≡ refusal_of D.SIZE D.form D.faults file.now room }
{
    let size = file.len();
    if size % D::SIZE != 0 {
        return Some(Fault::Length);
    }
    let fault = find_fault::<D>(file);
    let short = check_room(size / D::SIZE * D::TO, room);
    fault.or(short)
}

// Every record of a file in the other form, from the front of the room on; how many bytes they are.
fn move_records<D: Direction>(file: &[u8], room: &mut [u8]) -> usize
    requires { length (moved_by D.form D.SIZE file.now) ≤ length room.old }
    ensures { MovedTo (moved_by D.form D.SIZE file.now) room.old room.new result }
{
    let mut n = 0;
    let mut left = file;
    while let Some((record, others)) = left.split_at_checked(D::SIZE) {
        D::put(&mut room[n..n + D::TO], record);
        n += D::TO;
        left = others;
    }
    n
}

// Nothing is left in the room.
fn refuse(fault: Fault, room: &mut [u8]) -> Result<usize, Fault>
    ensures { outcome_is result room.new ≡ refused_in (number_of fault) (length room.old) }
{
    slices::fill_bytes(room, 0);
    Err(fault)
}

// The first `n` bytes of the room were moved; nothing is left behind them.
fn settle(n: usize, room: &mut [u8]) -> Result<usize, Fault>
    requires { n ≤ length room.old }
    ensures { outcome_is result room.new ≡ moved_in (take n room.old) (length room.old) }
{
    slices::fill_bytes(&mut room[n..], 0);
    Ok(n)
}

// Nothing is moved before the whole file and the room are found good.
fn move_file<D: Direction>(file: &[u8], room: &mut [u8]) -> Result<usize, Fault>
    ensures { outcome_is result room.new ≡ D.way file.now (length room.old) }
{
    if let Some(fault) = judge::<D>(file, room.len()) {
        return refuse(fault, room);
    }
    let n = move_records::<D>(file, room);
    settle(n, room)
}

// A result file from the old form to the new: how many bytes were moved, or what the file is refused for.
pub fn to_new(file: &[u8], room: &mut [u8]) -> Result<usize, Fault>
    ensures { outcome_is result room.new ≡ to_new file.now (length room.old) }
{
    move_file::<ToNew>(file, room)
}

// A result file from the new form to the old, and the same.
pub fn to_old(file: &[u8], room: &mut [u8]) -> Result<usize, Fault>
    ensures { outcome_is result room.new ≡ to_old file.now (length room.old) }
{
    move_file::<ToOld>(file, room)
}
