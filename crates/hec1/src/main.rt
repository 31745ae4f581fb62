// A deck from standard input, its listing to standard output.
#![tactic(auto)]

use streams::Stop;

fn main(rt: HostRuntime) {
    let mut deck = [0u8; streams::DECK];
    let got = streams::read_all(&rt, &mut deck);
    if got.failed {
        streams::explain(&rt, Err(Stop::Failed));
        return;
    }
    let mut out = [0u8; listing::LISTING];
    let length = listing::list_deck(&deck[..got.count], &mut out);
    streams::print(&rt, &out[..length]);
}
