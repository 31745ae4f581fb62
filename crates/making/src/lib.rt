// The hydrograph of a block that its shape does not refuse, made in the work words and held: a function for each kind.
#![tactic(auto)]

ghost use Rattle.std.specs.Prelude.{◌≡◌, List, [], ℕ, Some};
ghost use Rattle.meaning.specs.Blocks.{Basin, Inflow, Confluence, Reach, Pond, basin_area};
ghost use Rattle.blocks.specs.Meant.{time_is};
ghost use Rattle.blocks.specs.Cards.{block_of, Readable};
ghost use Rattle.kinds.specs.Kinds.{kind_meant};
ghost use Rattle.stack.specs.Kinds.{block_loss, block_total, block_storm};
ghost use Rattle.shaping.specs.Limits.{CardsWithin, Read};
ghost use Rattle.shaping.specs.Shapes.{Shaped};
ghost use Rattle.making.specs.Made.{HeldWithin, Makes, MakesAll};

use blocks::Time;
use excess::{Loss, Storm, Total};
use kinds::Kind;
use refusals::Refusal;
use stack::Stack;

// The area of a basin or an inflow; a block without BA has none.
fn area_of(cards: &[u64]) -> u32
    requires { Readable cards.now × CardsWithin (block_of [] cards.now) }
    ensures { (name : List ℕ) → result ≡ basin_area (block_of name cards.now) }
{
    blocks::value_at(cards, records::BA, 0) as u32
}

// What a basin loses of its rain.
fn loss_of(time: Time, cards: &[u64]) -> Loss
    requires { Read (time_is time) cards.now }
    ensures { (name : List ℕ) → result ≡ block_loss (time_is time) (block_of name cards.now) }
{
    let initial = units::depth_of(blocks::value_at(cards, records::LU, 0));
    let uniform = units::uniform_loss(time.minutes, blocks::value_at(cards, records::LU, 1));
    Loss { initial, uniform }
}

// The total of its storm, where it is given one.
fn total_of(cards: &[u64]) -> Total
    requires { Readable cards.now × CardsWithin (block_of [] cards.now) }
    ensures { (name : List ℕ) → result ≡ block_total (block_of name cards.now) }
{
    if blocks::is_given(cards, records::PB) {
        return Total::Given(units::depth_of(blocks::value_at(cards, records::PB, 0)));
    }
    Total::NotGiven
}

// What is made of the rain that it lists.
pub fn storm_of(time: Time, cards: &[u64]) -> Storm
    requires { Read (time_is time) cards.now }
    ensures { (name : List ℕ) → result ≡ block_storm (time_is time) (block_of name cards.now) }
{
    let total = total_of(cards);
    let loss = loss_of(time, cards);
    Storm {
        total,
        ratio: time.ratio,
        loss,
    }
}

// A basin: the runoff of its storm.
fn make_basin(work: &mut [u64], held: Stack, time: Time, cards: &[u64]) -> Stack
    requires held_within { HeldWithin held time.ordinates work.old }
    requires read { Read (time_is time) cards.now }
    requires by_index { (name : List ℕ) → Shaped Basin (time_is time) (block_of name cards.now) held.depth }
    ensures { (name : List ℕ) → Makes (time_is time) (block_of name cards.now) held work.old result work.new }
{
    let area = area_of(cards);
    let storm = storm_of(time, cards);
    let units = blocks::values(cards, records::UI);
    let rains = blocks::values(cards, records::PI);
    stack::hold_basin(work, held, time.ordinates, area, units, rains, storm)
}

// An inflow: its flows as listed.
fn make_inflow(work: &mut [u64], held: Stack, time: Time, cards: &[u64]) -> Stack
    requires held_within { HeldWithin held time.ordinates work.old }
    requires read { Read (time_is time) cards.now }
    requires by_index { (name : List ℕ) → Shaped Inflow (time_is time) (block_of name cards.now) held.depth }
    ensures { (name : List ℕ) → Makes (time_is time) (block_of name cards.now) held work.old result work.new }
{
    let area = area_of(cards);
    let values = blocks::values(cards, records::QI);
    stack::hold_inflow(work, held, time.ordinates, area, values)
}

// A confluence: the last held become one.
fn make_confluence(work: &mut [u64], held: Stack, time: Time, cards: &[u64]) -> Stack
    requires held_within { HeldWithin held time.ordinates work.old }
    requires read { Read (time_is time) cards.now }
    requires by_index { (name : List ℕ) → Shaped Confluence (time_is time) (block_of name cards.now) held.depth }
    ensures { (name : List ℕ) → Makes (time_is time) (block_of name cards.now) held work.old result work.new }
{
    let joins = blocks::value_at(cards, records::HC, 0) as usize;
    stack::join_last(work, held, time.ordinates, joins)
}

// A reach: the last held is routed.
fn make_reach(work: &mut [u64], held: Stack, time: Time, cards: &[u64]) -> Stack
    requires held_within { HeldWithin held time.ordinates work.old }
    requires read { Read (time_is time) cards.now }
    requires by_index { (name : List ℕ) → Shaped Reach (time_is time) (block_of name cards.now) held.depth }
    ensures { (name : List ℕ) → Makes (time_is time) (block_of name cards.now) held work.old result work.new }
{
    let reach = shaping::reach_of(cards);
    stack::route_last(
        work,
        held,
        time.ordinates,
        reach.steps,
        time.minutes,
        reach.k,
        reach.x,
    );
    held
}

// A pond: the last held goes through its pool. It is refused where the pool rises above the last row of its table.
fn make_pond(work: &mut [u64], held: Stack, time: Time, cards: &[u64]) -> Result<Stack, Refusal>
    requires held_within { HeldWithin held time.ordinates work.old }
    requires read { Read (time_is time) cards.now }
    requires by_index { (name : List ℕ) → Shaped Pond (time_is time) (block_of name cards.now) held.depth }
    ensures { (name : List ℕ) → MakesAll (time_is time) (block_of name cards.now) held work.old result work.new }
{
    let svs = blocks::values(cards, records::SV);
    let sqs = blocks::values(cards, records::SQ);
    let overtopped = stack::pond_last(work, held, time.ordinates, time.minutes, svs, sqs);
    if overtopped {
        return Err(Refusal::Overtopped);
    }
    Ok(held)
}

// What is held then. The kind is the block's own.
pub fn make(
    work: &mut [u64],
    held: Stack,
    time: Time,
    cards: &[u64],
    kind: Kind,
) -> Result<Stack, Refusal>
    requires held_within { HeldWithin held time.ordinates work.old }
    requires read { Read (time_is time) cards.now }
    requires by_index { (name : List ℕ) → Shaped (kind_meant (Some kind)) (time_is time) (block_of name cards.now) held.depth }
    ensures { (name : List ℕ) → MakesAll (time_is time) (block_of name cards.now) held work.old result work.new }
{
    match kind {
        Kind::Basin => Ok(make_basin(work, held, time, cards)),
        Kind::Inflow => Ok(make_inflow(work, held, time, cards)),
        Kind::Confluence => Ok(make_confluence(work, held, time, cards)),
        Kind::Reach => Ok(make_reach(work, held, time, cards)),
        Kind::Pond => make_pond(work, held, time, cards),
    }
}
