// Cases from standard input, each the number of a block, the number of a ratio and the deck's length, in 4 bytes each, the lowest first, and the deck (0 names the last
// block, or the last ratio). The hydrographs go to standard output, each before a line '--'.
#![tactic(auto)]

ghost use Rattle.std.specs.Prelude.{◌≤◌, length};
ghost use Rattle.graphing.specs.Sizes.{hydrograph_size};

// Answers whether the hydrograph and the line behind it were written.
fn print_hydrograph(
    rt: &HostRuntime,
    deck: &[u8],
    named: usize,
    ratio: usize,
    out: &mut [u8],
) -> bool
    requires { hydrograph_size ≤ length out.old }
{
    let end = graphing::hydrograph_deck(deck, named, ratio, out);
    streams::print(rt, &out[..end]) && streams::print(rt, b"--\n")
}

// Their own function: a proof that sees how so many bytes came to be counts them one by one.
fn blank_text() -> [u8; graphing::HYDROGRAPH] {
    [0u8; graphing::HYDROGRAPH]
}

fn main(rt: HostRuntime) {
    let mut out = blank_text();
    streams::answer_cases(&rt, |case, deck| {
        print_hydrograph(&rt, deck, case.named, case.ratio, &mut out)
    });
}
