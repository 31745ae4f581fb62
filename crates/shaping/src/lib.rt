// What the lines alone decide of a block that closes, before any flow is looked at: its kind, the refusals 9, 18, 10, 11 and 12 or 19, and how many
// are held after it.
#![tactic(auto)]

ghost use Rattle.std.specs.Prelude.{◌≡◌, ◌+◌, ◌-◌, List, ℕ, Some, IfOk};
ghost use Rattle.meaning.specs.Words.{◌<?◌, ◌≤?◌, met, first};
ghost use Rattle.meaning.specs.Blocks.{Reach, Pond, kind_number, kind_of, takes_by, patternless, broken_by, reach_steps, reach_k, reach_x};
ghost use Rattle.refusals.specs.Numbers.{refusal_number, refusal_in};
ghost use Rattle.blocks.specs.Meant.{time_is};
ghost use Rattle.blocks.specs.Cards.{block_of, Readable};
ghost use Rattle.kinds.specs.Kinds.{kind_meant};
ghost use Rattle.shaping.specs.Limits.{Read};
ghost use Rattle.shaping.specs.Shapes.{shape_told, ShapeIs};

use blocks::Time;
use kinds::Kind;
use refusals::Refusal;

const MOST_HELD: usize = 20;

// What a block is that none of them refuses: its kind, and how many are held then.
#[derive(Clone, Copy, PartialEq, Eq)]
pub struct Shape {
    pub kind: Kind,
    pub after: usize,
}

// What a block is that one of them refuses: by which, its kind if it has one, and how many are held then, as many as before.
#[derive(Clone, Copy)]
pub struct Unfit {
    pub refusal: Refusal,
    pub kind: Option<Kind>,
    pub after: usize,
}

impl From<Unfit> for Refusal {
    ghost from_gives = { λ unfit refusal. refusal ≡ unfit.refusal };

    fn from(unfit: Unfit) -> Refusal {
        unfit.refusal
    }
}

// The number of a kind, 0 where there is none.
pub fn number_of(kind: Option<Kind>) -> u8
    ensures { result ≡ kind_number (kind_meant kind) }
{
    match kind {
        Some(kind) => kind as u8,
        None => 0,
    }
}

// How many of those held last a block of the kind takes.
fn taken_by(kind: Kind, cards: &[u64]) -> usize
    requires { Readable cards.now }
    ensures { (name : List ℕ) → result ≡ takes_by (kind_meant (Some kind)) (block_of name cards.now) }
{
    match kind {
        Kind::Basin | Kind::Inflow => 0,
        Kind::Confluence => blocks::value_at(cards, records::HC, 0) as usize,
        Kind::Reach | Kind::Pond => 1,
    }
}

// The numbers of a reach: its steps, and K and X in hundredths.
#[derive(Clone, Copy)]
pub struct ReachNumbers {
    pub steps: u64,
    pub k: u64,
    pub x: u64,
}

pub fn reach_of(cards: &[u64]) -> ReachNumbers
    requires { Readable cards.now }
    ensures { (name : List ℕ) → (result.steps ≡ reach_steps (block_of name cards.now)) × (result.k ≡ reach_k (block_of name cards.now)) × (result.x ≡ reach_x (block_of name cards.now)) }
{
    let steps = blocks::value_at(cards, records::RM, 0);
    let k = blocks::value_at(cards, records::RM, 1);
    let x = blocks::value_at(cards, records::RM, 2);
    ReachNumbers { steps, k, x }
}

// A refusal where its test holds.
fn refuse_if(test: bool, refusal: Refusal) -> Result<(), Refusal>
    ensures { refusal_in result ≡ met test (refusal_number refusal) }
{
    if test {
        return Err(refusal);
    }
    Ok(())
}

// A reach whose coefficients are out of order.
fn refuse_reach(time: Time, cards: &[u64]) -> Result<(), Refusal>
    requires { Read (time_is time) cards.now }
    ensures { (name : List ℕ) → refusal_in result ≡ broken_by Reach (time_is time) (block_of name cards.now) }
{
    let reach = reach_of(cards);
    let unroutable = routing::is_unroutable(reach.steps, time.minutes, reach.k, reach.x);
    refuse_if(unroutable, Refusal::Unroutable)
}

// A pond whose table breaks a rule.
fn refuse_pond(time: Time, cards: &[u64]) -> Result<(), Refusal>
    requires { Read (time_is time) cards.now }
    ensures { (name : List ℕ) → refusal_in result ≡ broken_by Pond (time_is time) (block_of name cards.now) }
{
    let svs = blocks::values(cards, records::SV);
    let sqs = blocks::values(cards, records::SQ);
    let breaks = pond::table_breaks(time.minutes, svs, sqs);
    refuse_if(breaks, Refusal::BrokenTable)
}

// A block of the kind whose values do not go together.
fn refuse_broken(kind: Kind, time: Time, cards: &[u64]) -> Result<(), Refusal>
    requires { Read (time_is time) cards.now }
    ensures { (name : List ℕ) → refusal_in result ≡ broken_by (kind_meant (Some kind)) (time_is time) (block_of name cards.now) }
{
    match kind {
        Kind::Basin | Kind::Inflow | Kind::Confluence => Ok(()),
        Kind::Reach => refuse_reach(time, cards),
        Kind::Pond => refuse_pond(time, cards),
    }
}

// Whether a block has a storm's total and no pattern to spread it by. The pattern is looked at only where there is something to spread.
fn is_patternless(time: Time, cards: &[u64]) -> bool
    requires { Readable cards.now }
    ensures { (name : List ℕ) → result ≡ patternless (time_is time) (block_of name cards.now) }
{
    let total = blocks::value_at(cards, records::PB, 0);
    total != 0 && storms::is_dry(blocks::values(cards, records::PI), time.ordinates)
}

// How many are held behind a block that takes so many, where as many are held, and there is room for one more.
fn hold_after(taken: usize, held: usize) -> Result<usize, Refusal>
    ensures number { refusal_in result ≡ first (met (held <? taken) 10) (met (20 ≤? (held - taken)) 11) }
    ensures after { IfOk result (λ n. n ≡ held - taken + 1) }
{
    if held < taken {
        return Err(Refusal::TooFewHeld);
    }
    let left = held - taken;
    if left >= MOST_HELD {
        return Err(Refusal::TooManyHeld);
    }
    Ok(left + 1)
}

// The shape of the open block, if it has a kind, where so many are held. The refusals come in their order: no kind (9), a total without a pattern (18),
// too few held (10), no room for one more (11), values that do not go together (12 or 19).
fn fit_block(kind: Option<Kind>, time: Time, cards: &[u64], held: usize) -> Result<Shape, Refusal>
    requires { Read (time_is time) cards.now }
    ensures { (name : List ℕ) → kind_meant kind ≡ kind_of (block_of name cards.now) → ShapeIs (time_is time) (block_of name cards.now) held (shape_told kind held result) }
{
    let kind = kind.ok_or(Refusal::NoKind)?;
    refuse_if(is_patternless(time, cards), Refusal::NoPattern)?;
    let after = hold_after(taken_by(kind, cards), held)?;
    refuse_broken(kind, time, cards)?;
    Ok(Shape { kind, after })
}

// The shape of the open block where so many are held. Of one that is refused its kind is told too, and that as many are held as before.
pub fn shape_of(time: Time, cards: &[u64], held: usize) -> Result<Shape, Unfit>
    requires { Read (time_is time) cards.now }
    ensures { (name : List ℕ) → ShapeIs (time_is time) (block_of name cards.now) held result }
{
    let kind = kinds::kind_of(cards);
    fit_block(kind, time, cards, held).map_err(|refusal| Unfit {
        refusal,
        kind,
        after: held,
    })
}
