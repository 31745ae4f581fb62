// Reading a deck from line to line, to the next event: a line that is refused, opens a block or ends the deck. It knows no hydrograph.
#![tactic(auto)]

ghost use Rattle.std.specs.Prelude.{◌≤◌, length};
ghost use Rattle.placing.specs.Readings.{reading_is, Ready};
ghost use Rattle.reading.specs.Found.{Gets};

use blocks::Name;
use placing::{Placed, Reading};
use refusals::Refusal;
use scanning::Scan;

// What reading on has come to: a line refused, a block opened under a name, the deck ended; or no line is left.
#[derive(Clone, Copy)]
pub enum Event {
    Refused(Refusal),
    Opened(Name),
    Ended,
    Missing,
}

// The event, where the reading stood before its line, the place behind the line and the line's number.
#[derive(Clone, Copy)]
pub struct Got {
    pub event: Event,
    pub reading: Reading,
    pub at: usize,
    pub line: u64,
}

// Reads on from line to line: to the next line that is refused, opens a block or ends the deck, or past the last line. The fields of a line are scanned in the
// line's own turn, which is left at the line's end or at its first fault.
pub fn read_on(s: &[u8], from: usize, before: u64, start: Reading, cards: &mut [u64]) -> Got
    requires from_in_bounds { (from ≤ length s.now) × (before ≤ from) }
    requires ready { Ready start cards.old }
    ensures { Gets s.now from before (reading_is start cards.old) result cards.new }
{
    let mut event = Event::Missing;
    let mut reading = start;
    let mut at = from;
    let mut line = before;
    let mut values = [0u64; 10];
    // A while: where the next line begins, the line itself tells.
    'line: while at < s.len() {
        line += 1;
        match lines::line_at(s, at) {
            Err(_) => {
                event = Event::Refused(Refusal::ForeignLine);
                break 'line;
            }
            Ok(found) => {
                let l = &s[at..found.end];
                at = found.next;
                match sorting::sort_line(reading, cards, l) {
                    Err(refusal) => {
                        event = Event::Refused(refusal);
                        break 'line;
                    }
                    Ok(Placed::Passed(free)) => {
                        reading.free = free;
                        continue 'line;
                    }
                    Ok(Placed::Named) => {
                        match placing::read_name(reading.free, l) {
                            Err(refusal) => event = Event::Refused(refusal),
                            Ok(name) => event = Event::Opened(name),
                        }
                        break 'line;
                    }
                    Ok(Placed::Last) => {
                        event = Event::Ended;
                        break 'line;
                    }
                    Ok(Placed::Fields(item)) => {
                        let free = reading.free;
                        let named = records::named_fields(item);
                        let mut c = fields::first_place(free, l);
                        let mut i: usize = 0;
                        let mut scan = Scan {
                            count: 0,
                            outside: false,
                        };
                        // A while: where the next field is looked for, the field itself tells, and past the line's end only the named ones count.
                        while scanning::is_left(l.len(), c, i, named) {
                            let span = scanning::next_span(free, l, i, c);
                            match scanning::note_field(
                                &mut values,
                                scan,
                                item,
                                i,
                                &l[span.from..span.to],
                            ) {
                                Err(refusal) => {
                                    event = Event::Refused(refusal);
                                    break 'line;
                                }
                                Ok(noted) => scan = noted,
                            }
                            i += 1;
                            c = span.next;
                        }
                        if item < records::RECORDS {
                            match taking::take_item(reading, item, &values, scan, cards) {
                                Err(refusal) => {
                                    event = Event::Refused(refusal);
                                    break 'line;
                                }
                                Ok(()) => continue 'line,
                            }
                        }
                        match taking::take_control(reading, item, &values, scan) {
                            Err(refusal) => {
                                event = Event::Refused(refusal);
                                break 'line;
                            }
                            Ok(taken) => {
                                reading = taken;
                                continue 'line;
                            }
                        }
                    }
                }
            }
        }
    }
    Got {
        event,
        reading,
        at,
        line,
    }
}
