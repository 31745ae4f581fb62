// Cases from standard input, each the number of a block, the number of a ratio and the deck's length, in 4 bytes each, the lowest first, and the deck (0 names the last
// block, or the last ratio). The sheets go to standard output, each before a line '--'.
#![tactic(auto)]

ghost use Rattle.std.specs.Prelude.{◌≤◌, length};
ghost use Rattle.sheeting.specs.Sizes.{sheet_size};

// Answers whether the sheet and the line behind it were written.
fn print_sheet(rt: &HostRuntime, deck: &[u8], named: usize, ratio: usize, out: &mut [u8]) -> bool
    requires { sheet_size ≤ length out.old }
{
    let end = sheeting::sheet_deck(deck, named, ratio, out);
    streams::print(rt, &out[..end]) && streams::print(rt, b"--\n")
}

// Their own function: a proof that sees how so many bytes came to be counts them one by one.
fn blank_sheet() -> [u8; sheeting::SHEET] {
    [0u8; sheeting::SHEET]
}

fn main(rt: HostRuntime) {
    let mut out = blank_sheet();
    streams::answer_cases(&rt, |case, deck| {
        print_sheet(&rt, deck, case.named, case.ratio, &mut out)
    });
}
