// What is told of the hydrograph held last: its place in the work words, its area and its summary; and the type of a closed block.
#![tactic(auto)]

ghost use Rattle.std.specs.Prelude.{◌≡◌, ◌-◌, ◌*◌, ◌≤◌, length, get_or};
ghost use Rattle.sequences.specs.Parts.{part};
ghost use Rattle.meaning.specs.Records.{most_ordinates};
ghost use Rattle.stack.specs.View.{Fits};
ghost use Rattle.summary.specs.Summary.{summary_within};

use stack::Stack;
use summary::Summary;

// A block closed and not refused: what is held then, the number of its kind, its area and the summary of its hydrograph, which is the last held.
#[derive(Clone, Copy)]
pub struct Closed {
    pub held: Stack,
    pub kind: u8,
    pub area: u32,
    pub summary: Summary,
}

// Where the hydrograph held last begins in the work words.
pub fn last_place(held: Stack) -> usize
    requires { (1 ≤ held.depth) × (held.depth ≤ 20) }
    ensures { result ≡ most_ordinates * (held.depth - 1) }
{
    stack::PLACE * (held.depth - 1)
}

// The area of the hydrograph held last.
pub fn last_area(held: Stack) -> u32
    requires { (1 ≤ held.depth) × (held.depth ≤ 20) }
    ensures { result ≡ get_or held.areas (held.depth - 1) 0 }
{
    held.areas[held.depth - 1]
}

// The summary of the hydrograph held last, none where it passes the limit of a flow.
pub fn summarize_last(work: &[u64], held: Stack, nq: usize) -> Option<Summary>
    requires { (1 ≤ held.depth) × Fits held.depth nq (length work.now) }
    ensures { result ≡ summary_within (part (most_ordinates * (held.depth - 1)) nq work.now) }
{
    let p = last_place(held);
    summary::summarize(&work[p..p + nq])
}
