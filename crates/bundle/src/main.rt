// Decks from standard input, each behind its length in 4 bytes, the lowest first; their listings to standard output, each before a line '--'.
#![tactic(auto)]

ghost use Rattle.std.specs.Prelude.{◌+◌, ◌≤◌, length};
ghost use Rattle.listing.specs.Sizes.{listing_size};

// A listing and the line behind it.
const ANSWER: usize = listing::LISTING + 3;

fn put_listing(deck: &[u8], out: &mut [u8]) -> usize
    requires { listing_size + 3 ≤ length out.old }
    ensures { result ≤ length out.new }
{
    let end = listing::list_deck(deck, &mut out[0..listing::LISTING]);
    out[end..end + 3].copy_from_slice(b"--\n");
    end + 3
}

// Answers whether the listing was written.
fn print_listing(rt: &HostRuntime, deck: &[u8]) -> bool {
    let mut out = [0u8; ANSWER];
    let end = put_listing(deck, &mut out);
    streams::print(rt, &out[..end])
}

fn main(rt: HostRuntime) {
    let mut deck = [0u8; streams::DECK];
    streams::while_answered(&rt, || {
        let kept = streams::next_deck(&rt, &mut deck)?;
        Ok(print_listing(&rt, &deck[..kept]))
    });
}
