// Standard input and output of the programs: all of the input, or as bundles hold it, numbers of 4 bytes and decks of a known length; text
// to the output. Where either fails, or the input ends too early, a line on standard error says so: a program's exit status is always 0.
#![tactic(auto)]

ghost use Rattle.std.specs.Prelude.{◌≡◌, ◌≤◌, length, IfOk};
ghost use Rattle.streams.specs.Numbers.{IsPrefixLen, Filled, InFour, InFourEach, CaseInFour, Kept, Fits};

use std::io::Read;

// One byte more than a deck may have: with it a deck is too long, whatever follows.
pub const DECK: usize = 60_001;

// What a read brought: so many bytes, and whether it failed before it had all. It is no Result, as the bytes before a failure count too: `pass` goes on behind them.
#[derive(Clone, Copy)]
pub struct Got {
    pub count: usize,
    pub failed: bool,
}

// Why there is no number: the input ends here, or it ends inside of what was begun, or a read fails.
#[derive(Clone, Copy, PartialEq, Eq)]
pub enum Stop {
    End,
    Cut,
    Failed,
}

// Reads what comes next, as much as the slice holds at most: 0 bytes where the input ends or a read fails.
fn read_some(rt: &HostRuntime, s: &mut [u8]) -> Got
    ensures { IsPrefixLen result.count s.new }
{
    match rt.stdin().read(s) {
        Ok(count) => Got {
            count,
            failed: false,
        },
        Err(_) => Got {
            count: 0,
            failed: true,
        },
    }
}

// Reads until the slice is full, the input ends or a read fails. `read_exact` of std does not tell how many bytes came.
pub fn read_all(rt: &HostRuntime, s: &mut [u8]) -> Got
    ensures { IsPrefixLen result.count s.new }
{
    // A while: the step is what came.
    let mut n = 0;
    while n < s.len() {
        let more = read_some(rt, &mut s[n..]);
        if more.count == 0 {
            return Got {
                count: n,
                failed: more.failed,
            };
        }
        n += more.count;
    }
    Got {
        count: n,
        failed: false,
    }
}

// Fills a slice, and tells how many bytes it has.
pub fn fill(rt: &HostRuntime, s: &mut [u8]) -> Result<usize, Stop>
    ensures { Filled s.new result }
{
    let got = read_all(rt, s);
    if got.failed {
        return Err(Stop::Failed);
    }
    if got.count == s.len() {
        return Ok(got.count);
    }
    if got.count == 0 {
        return Err(Stop::End);
    }
    Err(Stop::Cut)
}

// So many bytes.
pub fn read_head<const N: usize>(rt: &HostRuntime) -> Result<[u8; N], Stop> {
    let mut head = [0u8; N];
    let _ = fill(rt, &mut head)?;
    Ok(head)
}

// A number in 4 bytes, the lowest first.
pub fn read_number(rt: &HostRuntime) -> Result<usize, Stop>
    ensures { InFour result }
{
    let head = read_head::<4>(rt)?;
    Ok(slices::read_le(&head) as usize)
}

// Reads past some of the next bytes, `most` at most: 0 only where the input ends or a read fails.
fn pass_some(rt: &HostRuntime, most: usize) -> Got
    ensures { result.count ≤ most }
{
    let mut past = [0u8; 65_536];
    let n = most.min(65_536);
    read_all(rt, &mut past[..n])
}

// Reads past so many bytes, as far as the input has them.
fn pass(rt: &HostRuntime, size: usize) -> Got {
    // A while: the step is what came.
    let mut left = size;
    while 0 < left {
        let got = pass_some(rt, left);
        if got.count == 0 {
            return Got {
                count: size - left,
                failed: got.failed,
            };
        }
        left -= got.count;
    }
    Got {
        count: size,
        failed: false,
    }
}

// The front of a deck of that size, as much as the slice holds; what stands behind it is read past.
pub fn read_deck(rt: &HostRuntime, deck: &mut [u8], size: usize) -> Result<usize, Stop>
    ensures { Kept size deck.new result }
{
    let kept = size.min(deck.len());
    let front = read_all(rt, &mut deck[..kept]);
    let rest = pass(rt, size - kept);
    if front.failed || rest.failed {
        return Err(Stop::Failed);
    }
    if front.count < kept || rest.count < size - kept {
        return Err(Stop::Cut);
    }
    Ok(kept)
}

// A deck behind its length, as `read_deck` has it.
pub fn next_deck(rt: &HostRuntime, deck: &mut [u8]) -> Result<usize, Stop>
    ensures { Fits deck.new result }
{
    let size = read_number(rt)?;
    read_deck(rt, deck, size)
}

// What a case says before its deck: the block and the ratio that are named, and the deck's length.
#[derive(Clone, Copy)]
pub struct Case {
    pub named: usize,
    pub ratio: usize,
    pub size: usize,
}

// The three numbers of a head of 12 bytes. They are lent, as only of lent bytes it is known that each is below 256.
fn case_of(head: &[u8]) -> Case
    requires { length head.now ≡ 12 }
    ensures { InFourEach result }
{
    Case {
        named: slices::number_at(head, 0),
        ratio: slices::number_at(head, 4),
        size: slices::number_at(head, 8),
    }
}

// The head of the next case: three numbers of 4 bytes.
pub fn next_case(rt: &HostRuntime) -> Result<Case, Stop>
    ensures { CaseInFour result }
{
    let head = read_head::<12>(rt)?;
    Ok(case_of(&head))
}

// Answers again and again, until there is nothing to answer or `answer` says that it is enough; where the input stops too early, it is said why.
// A proved loop has to end, and nothing says that the input does: no run uses up the turns.
pub fn while_answered<F: FnMut() -> Result<bool, Stop>>(rt: &HostRuntime, mut answer: F)
    requires { F.IsAlwaysCallable answer }
{
    for _ in 0..u64::MAX {
        match answer() {
            Ok(true) => {}
            Ok(false) => return,
            Err(stop) => {
                explain(rt, Err(stop));
                return;
            }
        }
    }
}

// The next case of one block, and how much of its deck is kept.
fn next_block(rt: &HostRuntime, deck: &mut [u8]) -> Result<(Case, usize), Stop>
    ensures { IfOk result (λ block. block.1 ≤ length deck.new) }
{
    let case = next_case(rt)?;
    let kept = read_deck(rt, deck, case.size)?;
    Ok((case, kept))
}

// Answers cases of one block, each with its deck. Its own loop: that a closure around `answer` can be called again and again was not found proved.
pub fn answer_cases<F: FnMut(Case, &[u8]) -> bool>(rt: &HostRuntime, mut answer: F)
    requires { F.IsAlwaysCallable answer }
{
    let mut deck = [0u8; DECK];
    for _ in 0..u64::MAX {
        match next_block(rt, &mut deck) {
            Ok((case, kept)) => {
                if !answer(case, &deck[..kept]) {
                    return;
                }
            }
            Err(stop) => {
                explain(rt, Err(stop));
                return;
            }
        }
    }
}

// Says why there is no number, unless the input ended where it may. Of a number it says nothing.
pub fn explain(rt: &HostRuntime, next: Result<usize, Stop>) {
    match next {
        Ok(_) | Err(Stop::End) => {}
        Err(Stop::Cut) => say(rt, b"INPUT CUT\n"),
        Err(Stop::Failed) => say(rt, b"INPUT FAILED\n"),
    }
}

// To standard error, if that can be.
pub fn say(rt: &HostRuntime, text: &[u8]) {
    let _ = rt.stderr().write_all(text);
}

// To standard output; answers whether all of it was written, and says so where it was not.
pub fn print(rt: &HostRuntime, text: &[u8]) -> bool {
    if rt.stdout().write_all(text).is_ok() {
        return true;
    }
    say(rt, b"OUTPUT FAILED\n");
    false
}
