// What a deck is refused for, each by its name, with the number by which the papers know it.
#![tactic(auto)]

ghost use Rattle.std.specs.Prelude.{◌≡◌};
ghost use Rattle.refusals.specs.Numbers.{refusal_number, IsNamed};

// The refusals of a deck, in the order of their numbers.
#[derive(Clone, Copy, PartialEq, Eq)]
pub enum Refusal {
    LittleWork,
    LongDeck,
    ForeignLine,
    UnknownLine,
    Misplaced,
    Malformed,
    OutsideLimits,
    TooManyValues,
    NoKind,
    TooFewHeld,
    TooManyHeld,
    Unroutable,
    FlowAboveLimit,
    TooManyBlocks,
    NotOneHeld,
    NoLastLine,
    LittleRoom,
    NoPattern,
    BrokenTable,
    Overtopped,
}

impl Refusal {
    // The number by which the papers and the listing know it.
    pub fn number(self) -> u64
        ensures { result ≡ refusal_number self }
    {
        self as u64 + 1
    }

    // The refusal of that number, if there is one.
    pub fn of_number(number: u64) -> Option<Refusal>
        ensures { IsNamed number result }
    {
        match number {
            1 => Some(Refusal::LittleWork),
            2 => Some(Refusal::LongDeck),
            3 => Some(Refusal::ForeignLine),
            4 => Some(Refusal::UnknownLine),
            5 => Some(Refusal::Misplaced),
            6 => Some(Refusal::Malformed),
            7 => Some(Refusal::OutsideLimits),
            8 => Some(Refusal::TooManyValues),
            9 => Some(Refusal::NoKind),
            10 => Some(Refusal::TooFewHeld),
            11 => Some(Refusal::TooManyHeld),
            12 => Some(Refusal::Unroutable),
            13 => Some(Refusal::FlowAboveLimit),
            14 => Some(Refusal::TooManyBlocks),
            15 => Some(Refusal::NotOneHeld),
            16 => Some(Refusal::NoLastLine),
            17 => Some(Refusal::LittleRoom),
            18 => Some(Refusal::NoPattern),
            19 => Some(Refusal::BrokenTable),
            20 => Some(Refusal::Overtopped),
            _ => None,
        }
    }

    // The deck refused for it at a line.
    pub fn at_line(self, line: u64) -> Refused
        ensures { (result.number ≡ refusal_number self) × (result.line ≡ line) }
    {
        Refused {
            number: self.number(),
            line,
        }
    }
}

// A deck refused: the number of what for, and that of the line, 0 where no line is at fault. What is told of a refusal is told of any number.
#[derive(Clone, Copy, PartialEq, Eq)]
pub struct Refused {
    pub number: u64,
    pub line: u64,
}

#[cfg(test)]
mod tests {
    use super::*;

    // By the papers' list: the first and the last, and some between. 0 and 21 are no refusal's.
    #[test]
    fn a_number_has_the_papers_name(rt: HostRuntime) {
        for (number, refusal) in [
            (1, Refusal::LittleWork),
            (3, Refusal::ForeignLine),
            (12, Refusal::Unroutable),
            (13, Refusal::FlowAboveLimit),
            (18, Refusal::NoPattern),
            (19, Refusal::BrokenTable),
            (20, Refusal::Overtopped),
        ] {
            assert!(rt; Refusal::of_number(number) == Some(refusal), "{number}");
        }
        assert!(rt; Refusal::of_number(0).is_none());
        assert!(rt; Refusal::of_number(21).is_none());
    }
}
