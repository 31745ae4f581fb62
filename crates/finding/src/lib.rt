// One block of a deck, by its number: the deck is read up to the line that closes the block, and its values are then in the lent cards. No hydrograph is made.
#![tactic(auto)]

ghost use Rattle.std.specs.Prelude.{◌≡◌, ◌≤◌, length};
ghost use Rattle.meaning.specs.Lines.{lines_of};
ghost use Rattle.meaning.specs.Fields.{Fixed};
ghost use Rattle.meaning.specs.Records.{table};
ghost use Rattle.meaning.specs.Run.{BeforeTime};
ghost use Rattle.records.specs.Rows.{words_of};
ghost use Rattle.finding.specs.Place.{block_at, FoundIs, found_at};

use blocks::{Name, Time};
use placing::{Phase, Reading};
use reading::Event;

// A block that is there and was closed: the time control and its name. Its values are in the cards.
#[derive(Clone, Copy)]
pub struct Found {
    pub time: Time,
    pub name: Name,
}

// The block that is open where the reading stands, if one is.
fn open_in(r: Reading) -> Option<Found>
    ensures { result ≡ found_at r }
{
    match r.phase {
        Phase::InBlock => Some(Found {
            time: r.time,
            name: r.name,
        }),
        _ => None,
    }
}

// The block of that number, from 1, as it is where a KK or the ZZ closes it: so many KK stand before that line. What is behind it is not read.
pub fn find_block(deck: &[u8], number: usize, cards: &mut [u64]) -> Option<Found>
    requires { words_of table ≤ length cards.old }
    ensures { FoundIs (block_at (lines_of deck.now) (BeforeTime Fixed) number) result cards.new }
{
    let mut r = placing::first_reading(cards);
    let mut at: usize = 0;
    let mut line: u64 = 0;
    for _ in 0..number {
        let got = reading::read_on(deck, at, line, r, cards);
        let Event::Opened(name) = got.event else {
            return None;
        };
        r = placing::open_block(got.reading, name, cards);
        at = got.at;
        line = got.line;
    }
    let got = reading::read_on(deck, at, line, r, cards);
    match got.event {
        Event::Opened(_) | Event::Ended => open_in(got.reading),
        Event::Refused(_) => None,
        Event::Missing => None,
    }
}
