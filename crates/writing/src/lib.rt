// What is written of a block once it is closed: the record in its place, and the ordinates if it is the block named.
#![tactic(auto)]

ghost use Rattle.std.specs.Prelude.{◌≡◌, ◌+◌, ◌-◌, ◌*◌, ◌≤◌, length};
ghost use Rattle.sequences.specs.Parts.{part};
ghost use Rattle.meaning.specs.Records.{most_ordinates};
ghost use Rattle.blocks.specs.Meant.{name_is};
ghost use Rattle.stack.specs.View.{Fits};
ghost use Rattle.writing.specs.WrittenResult.{record_told, record_put, copied_first, copied_named};

use blocks::{Name, Time};
use results::Label;
use stack::Stack;
use telling::Closed;

// What is asked for: the block whose ordinates are wanted, by its number from 1, and the place of the ratio on JR, counted from 0.
#[derive(Clone, Copy)]
pub struct Asked {
    pub named: usize,
    pub place: usize,
}

// The record of block `k`, counted from 0, where there is room for it: that there is none is found out only at the end.
fn write_record(records: &mut [u8], k: usize, name: Name, closed: Closed, label: Label)
    requires { (k ≤ 199) × (name.letters ≤ 6) }
    ensures { records.new ≡ record_put k (record_told (name_is name) label.ratio label.place closed) records.old }
{
    if records.len() >= results::RECORD * k + results::RECORD {
        results::record_at(
            records,
            k,
            &name.bytes[..name.letters],
            closed.kind,
            closed.area,
            closed.summary,
            label,
        );
    }
}

// The hydrograph held last, in front of the ordinates, where there is room for it.
pub fn copy_last(ordinates: &mut [u64], work: &[u64], held: Stack, nq: usize)
    requires { (1 ≤ held.depth) × Fits held.depth nq (length work.now) }
    ensures { ordinates.new ≡ copied_first nq (part (most_ordinates * (held.depth - 1)) nq work.now) ordinates.old }
{
    if ordinates.len() >= nq {
        let p = telling::last_place(held);
        ordinates[..nq].copy_from_slice(&work[p..p + nq]);
    }
}

// The same, if block `k`, counted from 0, is the one that is named by its number from 1.
fn copy_named(ordinates: &mut [u64], work: &[u64], held: Stack, nq: usize, named: usize, k: usize)
    requires k_bound { k ≤ 199 }
    requires le_depth { (1 ≤ held.depth) × Fits held.depth nq (length work.now) }
    ensures { ordinates.new ≡ copied_named named k nq (part (most_ordinates * (held.depth - 1)) nq work.now) ordinates.old }
{
    if named == k + 1 {
        copy_last(ordinates, work, held, nq);
    }
}

// The ratio in force, at a place counted from 0, as a record says it.
fn label_of(time: Time, place: usize) -> Label
    requires { place ≤ 9 }
    ensures { (result.ratio ≡ time.ratio) × (result.place ≡ place + 1) }
{
    Label {
        ratio: time.ratio,
        place: place as u64 + 1,
    }
}

// What is written of block `k`, counted from 0, once it is closed: its record and, where it is the one named, its ordinates.
pub fn write_result(
    name: Name,
    closed: Closed,
    k: usize,
    asked: Asked,
    time: Time,
    work: &[u64],
    ordinates: &mut [u64],
    records: &mut [u8],
)
    requires k_bound { (k ≤ 199) × (name.letters ≤ 6) × (asked.place ≤ 9) }
    requires le_depth { (1 ≤ closed.held.depth) × Fits closed.held.depth time.ordinates (length work.now) }
    ensures copied { ordinates.new ≡ copied_named asked.named k time.ordinates (part (most_ordinates * (closed.held.depth - 1)) time.ordinates work.now) ordinates.old }
    ensures written { records.new ≡ record_put k (record_told (name_is name) time.ratio (asked.place + 1) closed) records.old }
{
    write_record(records, k, name, closed, label_of(time, asked.place));
    copy_named(ordinates, work, closed.held, time.ordinates, asked.named, k);
}
