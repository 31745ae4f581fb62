// Where KK or ZZ closes a block: its hydrograph is made and held, and the flows are looked at, of what it takes (20) and of what it makes (13).
#![tactic(auto)]

ghost use Rattle.std.specs.Prelude.{◌≡◌, List, ℕ};
ghost use Rattle.blocks.specs.Meant.{time_is};
ghost use Rattle.blocks.specs.Cards.{block_of};
ghost use Rattle.shaping.specs.Limits.{Read};
ghost use Rattle.making.specs.Made.{HeldWithin};
ghost use Rattle.closing.specs.ClosedBlock.{unclosed, closing_told, Closes};

use blocks::Time;
use refusals::Refusal;
use stack::Stack;
use telling::Closed;

// A block that is refused as it closes: by which, and what is told then.
#[derive(Clone, Copy)]
pub struct Unclosed {
    pub refusal: Refusal,
    pub told: Closed,
}

impl From<Unclosed> for Refusal {
    ghost from_gives = { λ unclosed refusal. refusal ≡ unclosed.refusal };

    fn from(unclosed: Unclosed) -> Refusal {
        unclosed.refusal
    }
}

// A refusal answers what was held before, and tells nothing of the block.
fn refuse(refusal: Refusal, held: Stack) -> Unclosed
    ensures { result ≡ unclosed refusal held }
{
    Unclosed {
        refusal,
        told: Closed {
            held,
            kind: 0,
            area: 0,
            summary: summary::none(),
        },
    }
}

// The open block made and held, and its flows looked at.
fn hold_block(work: &mut [u64], held: Stack, time: Time, cards: &[u64]) -> Result<Closed, Refusal>
    requires held_within { HeldWithin held time.ordinates work.old }
    requires read { Read (time_is time) cards.now }
    ensures { (name : List ℕ) → Closes (time_is time) (block_of name cards.now) held work.old (closing_told held result) work.new }
{
    let shape = shaping::shape_of(time, cards, held.depth)?;
    let next = making::make(work, held, time, cards, shape.kind)?;
    let within = telling::summarize_last(work, next, time.ordinates);
    let summary = within.ok_or(Refusal::FlowAboveLimit)?;
    Ok(Closed {
        held: next,
        kind: shaping::number_of(Some(shape.kind)),
        area: telling::last_area(next),
        summary,
    })
}

// The open block closed. Where it is refused, what was held before stays, and the work words are of no more use: the run zeroes all of them.
pub fn close_block(
    work: &mut [u64],
    held: Stack,
    time: Time,
    cards: &[u64],
) -> Result<Closed, Unclosed>
    requires held_within { HeldWithin held time.ordinates work.old }
    requires read { Read (time_is time) cards.now }
    ensures { (name : List ℕ) → Closes (time_is time) (block_of name cards.now) held work.old result work.new }
{
    hold_block(work, held, time, cards).map_err(|refusal| refuse(refusal, held))
}
