// The run: the sizes looked at, the deck walked under every ratio, and what comes back.
#![tactic(auto)]

ghost use Rattle.std.specs.Prelude.{◌≡◌, [], ◌≤◌, length};
ghost use Rattle.meaning.specs.Run.{refused, outcome};
ghost use Rattle.blocks.specs.Meant.{ratios_is};
ghost use Rattle.answers.specs.Answers.{outcome_is, lent_as};
ghost use Rattle.engine.specs.Outcomes.{listed_of};

use answers::{Accepted, Answer, Wanted};
use blocks::Ratios;
use refusals::Refused;

// The answer, and the ratios that the deck lists where it is sound.
#[derive(Clone, Copy)]
pub struct Ran {
    pub answer: Answer,
    pub ratios: Ratios,
}

// Refuses, and leaves nothing in what was lent.
fn refuse(reason: Refused, work: &mut [u64], ordinates: &mut [u64], records: &mut [u8]) -> Ran
    ensures records_after { outcome_is result.answer work.new ordinates.new records.new ≡ refused reason.number reason.line (lent_as work.old ordinates.old records.old) }
    ensures none { (ratios_is result.ratios ≡ []) × (result.ratios.count ≤ 9) }
{
    Ran {
        answer: answers::refuse(reason, work, ordinates, records),
        ratios: blocks::no_ratios(),
    }
}

// Runs a deck, and tells its ratios. `named` is the block whose ordinates are wanted and `ratio` the ratio, each by its number from 1; 0 stands for the last.
pub fn run_listed(
    deck: &[u8],
    named: usize,
    ratio: usize,
    work: &mut [u64],
    ordinates: &mut [u64],
    records: &mut [u8],
) -> Ran
    ensures records_after { outcome_is result.answer work.new ordinates.new records.new ≡ outcome deck.now named ratio (lent_as work.old ordinates.old records.old) }
    ensures listed { (ratios_is result.ratios ≡ listed_of deck.now (length work.old)) × (result.ratios.count ≤ 9) }
{
    if let Err(refusal) = answers::size_refusal(work.len(), deck.len()) {
        return refuse(refusal.at_line(0), work, ordinates, records);
    }
    slices::zero_words(ordinates);
    slices::fill_bytes(records, 0);
    let wanted = Wanted {
        block: named,
        ratio,
    };
    let walked = rounds::walk_every(deck, wanted, work, ordinates, records);
    let ratios = walked.ratios;
    match walked.worked {
        Ok(worked) => {
            let found = Accepted {
                ordinates: worked.nq,
                blocks: worked.blocks,
                ratios: lending::count_of(ratios),
            };
            let answer = answers::settle(found, wanted, work, ordinates, records);
            Ran { answer, ratios }
        }
        Err(reason) => refuse(reason, work, ordinates, records),
    }
}

// Runs a deck. `named` is the block whose ordinates are wanted and `ratio` the ratio, each by its number from 1; 0 stands for the last.
pub fn run(
    deck: &[u8],
    named: usize,
    ratio: usize,
    work: &mut [u64],
    ordinates: &mut [u64],
    records: &mut [u8],
) -> Answer
    ensures { outcome_is result work.new ordinates.new records.new ≡ outcome deck.now named ratio (lent_as work.old ordinates.old records.old) }
{
    run_listed(deck, named, ratio, work, ordinates, records).answer
}

#[cfg(test)]
mod tests {
    use super::*;
    use refusals::Refusal;

    fn name_of(answer: Answer) -> Option<Refusal> {
        match answer {
            Ok(_) => None,
            Err(refused) => Refusal::of_number(refused.number),
        }
    }

    // By the papers: no ZZ, a tab in a line, a line of no record, a KK before IT.
    #[test]
    fn a_refused_deck_has_its_name(rt: HostRuntime) {
        let mut work = [0u64; answers::WORK];
        let mut ordinates = [0u64; 300];
        let mut records = [0u8; 40];
        for (deck, refusal) in [
            (&b""[..], Refusal::NoLastLine),
            (&b"\t\n"[..], Refusal::ForeignLine),
            (&b"XX\n"[..], Refusal::UnknownLine),
            (&b"KK A\n"[..], Refusal::Misplaced),
        ] {
            let ran = run_listed(deck, 0, 0, &mut work, &mut ordinates, &mut records);
            assert!(rt; name_of(ran.answer) == Some(refusal));
            let answer = run(deck, 0, 0, &mut work, &mut ordinates, &mut records);
            assert!(rt; name_of(answer) == Some(refusal));
        }
    }

    // Too few words to work in.
    #[test]
    fn little_work_has_its_name(rt: HostRuntime) {
        let answer = run(b"", 0, 0, &mut [], &mut [], &mut []);
        assert!(rt; name_of(answer) == Some(Refusal::LittleWork));
    }
}
