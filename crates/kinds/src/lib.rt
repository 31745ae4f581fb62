// The kind of a block. The records that are there are one number, and the kind goes by that number.
#![tactic(auto)]

ghost use Rattle.std.specs.Prelude.{◌≡◌, List, ℕ, ◌≤◌, ◌<◌};
ghost use Rattle.meaning.specs.Blocks.{is_given, card_of, kind_of};
ghost use Rattle.records.specs.Rows.{items};
ghost use Rattle.blocks.specs.Cards.{block_of, Readable};
ghost use Rattle.kinds.specs.Masks.{bit_of, mask_of};
ghost use Rattle.kinds.specs.Kinds.{kind_meant};

// The kinds of a block, each with the number by which the papers know it.
#[derive(Clone, Copy, PartialEq, Eq)]
pub enum Kind {
    Basin = 1,
    Inflow = 2,
    Confluence = 3,
    Reach = 4,
    Pond = 5,
}

// 1 where the record is there, else 0.
fn bit_at(cards: &[u64], item: usize) -> u64
    requires { (item < items) × Readable cards.now }
    ensures { ((name : List ℕ) → result ≡ bit_of (is_given (card_of item (block_of name cards.now)))) × (result ≤ 1) }
{
    u64::from(blocks::is_given(cards, item))
}

// The records that are there as one number: 2 to the power of its place for each.
fn mask_of(cards: &[u64]) -> u64
    requires { Readable cards.now }
    ensures { (name : List ℕ) → result ≡ mask_of (block_of name cards.now).cards }
{
    let mut mask: u64 = 0;
    for item in (0..records::RECORDS).rev() {
        mask = 2 * mask + bit_at(cards, item);
    }
    mask
}

// The kind of the block, from the records that are there: BA 1, PI 2, LU 4, UI 8, QI 16, HC 32, RM 64, PB 128, RS 256, SV 512, SQ 1024.
pub fn kind_of(cards: &[u64]) -> Option<Kind>
    requires { Readable cards.now }
    ensures { (name : List ℕ) → kind_meant result ≡ kind_of (block_of name cards.now) }
{
    // An arm for each number: `16 | 17` is tested as a range, whose facts a proof cannot name.
    match mask_of(cards) {
        15 => Some(Kind::Basin),
        143 => Some(Kind::Basin),
        16 => Some(Kind::Inflow),
        17 => Some(Kind::Inflow),
        32 => Some(Kind::Confluence),
        64 => Some(Kind::Reach),
        1792 => Some(Kind::Pond),
        _ => None,
    }
}
