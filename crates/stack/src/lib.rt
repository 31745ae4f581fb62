// The hydrographs held: their areas by value and their ordinates in the lent work words, as many words to a place as a hydrograph has at most. A function for each
// kind of block works on those held last, in the part of the work words from their place on.
#![tactic(auto)]

ghost use Rattle.std.specs.Prelude.{◌≡◌, ◌∷◌, ℕ, ◌+◌, ◌-◌, ◌*◌, ◌≤◌, ◌<◌, ◌^◌, length, take, drop, get_or};
ghost use Rattle.sequences.specs.Bounds.{AllUpTo};
ghost use Rattle.sequences.specs.Parts.{part, put};
ghost use Rattle.meaning.specs.Water.{inflow_of, plus, routed_of};
ghost use Rattle.meaning.specs.Pool.{rows_of, ponded_of, overtopped};
ghost use Rattle.meaning.specs.Blocks.{total};
ghost use Rattle.meaning.specs.Records.{most_ordinates};
ghost use Rattle.routing.specs.Soundness.{Reach};
ghost use Rattle.pond.specs.Tables.{PondTable};
ghost use Rattle.runoff.specs.Storm.{StormWithin, storm_runoff};
ghost use Rattle.stack.specs.View.{Fits, view, none_held, pushed, held_of, routed_held, ponded_held};
ghost use Rattle.stack.specs.Joining.{joined_pair, joined_words, joined_stack, joined_all_words};
ghost use Rattle.stack.specs.Limits.{Tops, Within, Added};

use excess::Storm;

// The words of a place: the most ordinates that a hydrograph has.
pub const PLACE: usize = 300;

// Those of two places.
const PAIR: usize = 2 * PLACE;

// How many are held, and the area of each in hundredths of a square mile, the first held first.
#[derive(Clone, Copy)]
pub struct Stack {
    pub areas: [u32; 20],
    pub depth: usize,
}

pub fn hold_none() -> Stack
    ensures { result ≡ none_held }
{
    Stack {
        areas: [0u32; 20],
        depth: 0,
    }
}

fn push(mut stack: Stack, area: u32) -> Stack
    requires { stack.depth + 1 ≤ 20 }
    ensures { result ≡ pushed area stack }
{
    stack.areas[stack.depth] = area;
    stack.depth += 1;
    stack
}

// A basin: the runoff of its storm is held.
pub fn hold_basin(
    work: &mut [u64],
    stack: Stack,
    nq: usize,
    area: u32,
    units: &[u64],
    rains: &[u64],
    storm: Storm,
) -> Stack
    requires fits { Fits (stack.depth + 1) nq (length work.old) }
    requires storm_within { StormWithin units.now rains.now storm nq }
    ensures value { result ≡ pushed area stack }
    ensures words { work.new ≡ put (most_ordinates * stack.depth) nq work.old (storm_runoff units.now rains.now storm nq) }
    ensures held { view result nq work.new ≡ held_of area (storm_runoff units.now rains.now storm nq) ∷ view stack nq work.old }
{
    let p = PLACE * stack.depth;
    runoff::runoff_into(&mut work[p..p + nq], units, rains, storm);
    push(stack, area)
}

// An inflow: the flows listed are held.
pub fn hold_inflow(work: &mut [u64], stack: Stack, nq: usize, area: u32, values: &[u64]) -> Stack
    requires fits { Fits (stack.depth + 1) nq (length work.old) }
    requires all_up_to { AllUpTo 10_000_000 values.now }
    ensures value { result ≡ pushed area stack }
    ensures words { work.new ≡ put (most_ordinates * stack.depth) nq work.old (inflow_of values.now nq) }
    ensures held { view result nq work.new ≡ held_of area (inflow_of values.now nq) ∷ view stack nq work.old }
{
    let p = PLACE * stack.depth;
    runoff::inflow_into(&mut work[p..p + nq], values);
    push(stack, area)
}

// Adds the `n` words from `from` on to the first `n`; all others stay.
fn add_from(s: &mut [u64], from: usize, n: usize)
    requires n_le_from { (n ≤ from) × (from + n ≤ length s.old) }
    requires by_index { (k : ℕ) → k < n → get_or s.old k 0 + get_or s.old (from + k) 0 < 2 ^ 64 }
    ensures { s.new ≡ plus (part from n s.old) s.old }
{
    for i in 0..n {
        let j = from + i;
        s[i] += s[j];
    }
}

// The last two held become one, their sum, in the place of the lower.
fn join_pair(work: &mut [u64], stack: Stack, nq: usize) -> Stack
    requires le_depth { (2 ≤ stack.depth) × Fits stack.depth nq (length work.old) }
    requires tops { Tops 24_000_000_000_000 (view stack nq work.old) }
    requires work_bound { (total (view stack nq work.old)).area ≤ 199_999_800 }
    ensures { (result ≡ joined_pair stack) × (work.new ≡ joined_words stack.depth nq work.old) }
{
    let last = stack.depth - 1;
    let lower = stack.depth - 2;
    let p = PLACE * lower;
    add_from(&mut work[p..p + PAIR], PLACE, nq);
    let mut areas = stack.areas;
    areas[lower] = areas[last] + areas[lower];
    Stack { areas, depth: last }
}

// A confluence: the last `n` held become one, their sum. It may pass the limit of a flow.
pub fn join_last(work: &mut [u64], stack: Stack, nq: usize, n: usize) -> Stack
    requires added { Added n stack.depth }
    requires fits { Fits stack.depth nq (length work.old) }
    requires within { Within (view stack nq work.old) }
    requires work_bound { (total (view stack nq work.old)).area ≤ 199_999_800 }
    ensures value { result ≡ joined_stack (n - 1) stack }
    ensures words { work.new ≡ joined_all_words (n - 1) stack.depth nq work.old }
    ensures held { view result nq work.new ≡ total (take n (view stack nq work.old)) ∷ drop n (view stack nq work.old) }
{
    let mut joined = stack;
    for _ in 1..n {
        joined = join_pair(work, joined, nq);
    }
    joined
}

// A reach: the last held is routed, and keeps its area.
pub fn route_last(work: &mut [u64], stack: Stack, nq: usize, n: u64, m: u64, k: u64, x: u64)
    requires le_depth { (1 ≤ stack.depth) × Fits stack.depth nq (length work.old) }
    requires within { Within (view stack nq work.old) }
    requires reach { Reach n m k x }
    ensures work_after { work.new ≡ put (most_ordinates * (stack.depth - 1)) nq work.old (routed_of n m k x (part (most_ordinates * (stack.depth - 1)) nq work.old)) }
    ensures held { view stack nq work.new ≡ routed_held n m k x (total (take 1 (view stack nq work.old))) ∷ drop 1 (view stack nq work.old) }
{
    let p = PLACE * (stack.depth - 1);
    routing::route(&mut work[p..p + nq], n, m, k, x);
}

// A pond: the last held goes through its pool, and keeps its area. It answers whether the pool rose above its last row.
pub fn pond_last(
    work: &mut [u64],
    stack: Stack,
    nq: usize,
    m: u64,
    svs: &[u64],
    sqs: &[u64],
) -> bool
    requires le_depth { (1 ≤ stack.depth) × Fits stack.depth nq (length work.old) }
    requires within { Within (view stack nq work.old) }
    requires pond_table { PondTable m svs.now sqs.now }
    ensures value { result ≡ overtopped m (rows_of svs.now sqs.now) (total (take 1 (view stack nq work.old))).flow }
    ensures words { work.new ≡ put (most_ordinates * (stack.depth - 1)) nq work.old (ponded_of m (rows_of svs.now sqs.now) (part (most_ordinates * (stack.depth - 1)) nq work.old)) }
    ensures held { view stack nq work.new ≡ ponded_held m (rows_of svs.now sqs.now) (total (take 1 (view stack nq work.old))) ∷ drop 1 (view stack nq work.old) }
{
    let p = PLACE * (stack.depth - 1);
    pond::pass_pool(&mut work[p..p + nq], m, svs, sqs)
}
