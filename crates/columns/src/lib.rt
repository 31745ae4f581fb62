// The columns of a runoff block's hand sheet: the rain, the loss and the excess of each interval, and the sums by ordinate.
#![tactic(auto)]

ghost use Rattle.std.specs.Prelude.{◌≡◌, List, ℕ, ◌-◌, ◌≤◌, length, get_or};
ghost use Rattle.meaning.specs.Water.{list_from};
ghost use Rattle.blocks.specs.Meant.{time_is};
ghost use Rattle.blocks.specs.Cards.{block_of};
ghost use Rattle.shaping.specs.Limits.{Read};
ghost use Rattle.columns.specs.Columns.{ColumnsAre};

use blocks::Time;

// What an interval loses is what is not left of its rain.
fn find_losses(losses: &mut [u64], rains: &[u64], excesses: &[u64])
    requires rains_len { (length rains.now ≡ length losses.old) × (length excesses.now ≡ length losses.old) }
    requires by_index { (k : ℕ) → get_or excesses.now k 0 ≤ get_or rains.now k 0 }
    ensures { losses.new ≡ list_from (λ (k : ℕ). get_or rains.now k 0 - get_or excesses.now k 0) 0 (length losses.old) }
{
    for (k, loss) in losses.iter_mut().enumerate() {
        *loss = rains[k] - excesses[k];
    }
}

// The columns of the block that the cards hold, each of as many words as there are ordinates.
pub fn fill_columns(
    rains: &mut [u64],
    losses: &mut [u64],
    excesses: &mut [u64],
    sums: &mut [u64],
    time: Time,
    cards: &[u64],
)
    requires read { Read (time_is time) cards.now }
    requires rains_len { (length rains.old ≡ time.ordinates) × (length losses.old ≡ time.ordinates) × (length excesses.old ≡ time.ordinates) × (length sums.old ≡ time.ordinates) }
    ensures { (name : List ℕ) → ColumnsAre (time_is time) (block_of name cards.now) rains.new losses.new excesses.new sums.new }
{
    let storm = making::storm_of(time, cards);
    let units = blocks::values(cards, records::UI);
    let listed = blocks::values(cards, records::PI);
    excess::storm_rain(rains, listed, storm);
    excess::storm_excess(excesses, listed, storm);
    find_losses(losses, rains, excesses);
    runoff::runoff_into(sums, units, listed, storm);
}
