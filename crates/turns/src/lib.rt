// The turns of the walk: where it begins, the deck refused or worked, the next block opened.
#![tactic(auto)]

ghost use Rattle.std.specs.Prelude.{◌≡◌, ◌-◌, ◌*◌, ◌≤◌, length};
ghost use Rattle.sequences.specs.Parts.{part};
ghost use Rattle.meaning.specs.Records.{table, most_ordinates};
ghost use Rattle.records.specs.Rows.{words_of};
ghost use Rattle.stack.specs.View.{Fits};
ghost use Rattle.placing.specs.Readings.{Ready};
ghost use Rattle.turns.specs.Turns.{StateBegins, Stops, copied_last, OpensNext, EndsDeck};

use blocks::Name;
use placing::Reading;
use refusals::{Refusal, Refused};
use stack::Stack;

// Where the walk stands between two blocks: the reading, what is held, the place in the deck, the lines passed, and the blocks opened.
#[derive(Clone, Copy)]
pub struct State {
    pub reading: Reading,
    pub held: Stack,
    pub at: usize,
    pub line: u64,
    pub blocks: usize,
}

// What a sound deck comes to: the ordinates of each hydrograph, and the blocks.
#[derive(Clone, Copy)]
pub struct Worked {
    pub nq: usize,
    pub blocks: usize,
}

// A turn of the walk: it goes on from a state, or the deck has ended, and is sound.
#[derive(Clone, Copy)]
pub enum Turn {
    GoesOn(State),
    Ended(Worked),
}

// The most blocks that a deck has.
const BLOCKS: usize = 200;

// The walk begins: nothing is read, and nothing held.
pub fn first_state(cards: &mut [u64]) -> State
    requires { words_of table ≤ length cards.old }
    ensures { StateBegins result cards.new }
{
    State {
        reading: placing::first_reading(cards),
        held: stack::hold_none(),
        at: 0,
        line: 0,
        blocks: 0,
    }
}

// The deck is refused, by whatever number.
pub fn stop(number: u64, line: u64) -> Result<Turn, Refused>
    ensures { Stops number line result }
{
    Err(Refused { number, line })
}

// The hydrograph held last, in front of the ordinates, if no block was named.
fn copy_if_last(ordinates: &mut [u64], work: &[u64], held: Stack, nq: usize, named: usize)
    requires { (1 ≤ held.depth) × Fits held.depth nq (length work.now) }
    ensures { ordinates.new ≡ copied_last named nq (part (most_ordinates * (held.depth - 1)) nq work.now) ordinates.old }
{
    if named == 0 {
        writing::copy_last(ordinates, work, held, nq);
    }
}

// KK: unless the block that was open was refused where it closed, by whatever number, the next one is opened.
pub fn open_next(
    s: State,
    r: Reading,
    name: Name,
    at: usize,
    line: u64,
    closed: Result<Stack, u64>,
    cards: &mut [u64],
) -> Result<State, Refused>
    requires { (name.letters ≤ 6) × Ready r cards.old }
    ensures { OpensNext r name at line closed s.blocks result cards.new }
{
    let held = closed.map_err(|number| Refused { number, line })?;
    if s.blocks >= BLOCKS {
        return Err(Refusal::TooManyBlocks.at_line(line));
    }
    Ok(State {
        reading: placing::open_block(r, name, cards),
        held,
        at,
        line,
        blocks: s.blocks + 1,
    })
}

// ZZ: unless the block that was open was refused where it closed, by whatever number, one hydrograph is to be held.
pub fn end_deck(
    s: State,
    nq: usize,
    line: u64,
    closed: Result<Stack, u64>,
    named: usize,
    work: &[u64],
    ordinates: &mut [u64],
) -> Result<Worked, Refused>
    requires { Fits 1 nq (length work.now) }
    ensures { EndsDeck nq line closed s.blocks named result work.now ordinates.old ordinates.new }
{
    let last = closed.map_err(|number| Refused { number, line })?;
    if last.depth != 1 {
        return Err(Refusal::NotOneHeld.at_line(line));
    }
    copy_if_last(ordinates, work, last, nq, named);
    Ok(Worked {
        nq,
        blocks: s.blocks,
    })
}
