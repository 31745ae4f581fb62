// The table of records, as the code has it: a place for each record, the region of the open block's words that its values have, how it stands, its identifier,
// and the rules of its fields. A further record is one entry more in each table here, and its rules.
#![tactic(auto)]

ghost use Rattle.std.specs.Prelude.{◌≡◌, suc, ◌≤◌, ◌<◌};
ghost use Rattle.meaning.specs.Records.{row_of, rule_at, faulty_field, outside_field, value_of};
ghost use Rattle.records.specs.Rows.{items, field_row, rules_by, start, way_in, span_in, span_by, most_by};
ghost use Rattle.rules.specs.Rules.{rule_by, FieldIs};
ghost use Rattle.records.specs.OwnRules.{own_rule};
ghost use Rattle.records.specs.Keys.{key_in, place_of};

use refusals::Refusal;
use rules::{Held, Rule};

// The records that a block holds, each by its place in the table of records.
pub const BA: usize = 0;

pub const PI: usize = 1;

pub const LU: usize = 2;

pub const UI: usize = 3;

pub const QI: usize = 4;

pub const HC: usize = 5;

pub const RM: usize = 6;

pub const PB: usize = 7;

pub const RS: usize = 8;

pub const SV: usize = 9;

pub const SQ: usize = 10;

pub const RECORDS: usize = 11;

// The time control and the ratios have fields too, and are no records of a block: their places are behind them.
pub const IT: usize = RECORDS;

pub const JR: usize = RECORDS + 1;

// Where the regions begin, and behind the last the end: a head word, then room for the values.
const STARTS: [u16; RECORDS + 1] = [0, 2, 303, 307, 458, 759, 761, 765, 767, 771, 792, 813];

// All of them.
pub const WORDS: usize = 813;

// How a record stands: 0 once, 1 a list of as many values as there is room for, 2 a list of at most NQ.
const WAYS: [u8; RECORDS] = [0, 2, 0, 1, 2, 0, 0, 0, 0, 1, 1];

// The identifiers' two bytes as numbers.
const KEYS: [u16; RECORDS] = [
    0x4241, 0x5049, 0x4C55, 0x5549, 0x5149, 0x4843, 0x524D, 0x5042, 0x5253, 0x5356, 0x5351,
];

// How many fields have a value whether they are written or not: none where values are listed.
const NAMED: [u16; RECORDS + 2] = [1, 0, 3, 0, 0, 1, 3, 1, 3, 0, 0, 4, 10];

fn wide(x: u16) -> u64
    ensures { result ≡ x }
{
    x as u64
}

pub fn start_of(item: usize) -> usize
    requires { item ≤ items }
    ensures { result ≡ start item }
{
    wide(STARTS[item]) as usize
}

pub fn way_of(item: usize) -> u8
    requires { item < items }
    ensures { result ≡ way_in (row_of item) }
{
    WAYS[item]
}

// How many of a line's values are the record's: those of its fields, for which there is room, or as many as are listed.
pub fn span_by(way: u8, room: usize, count: usize) -> usize
    ensures { result ≡ span_by way room count }
{
    if way == 0 {
        return room;
    }
    count
}

// The most values that a record has in a block.
pub fn most_by(way: u8, room: usize, nq: usize) -> usize
    ensures { result ≡ most_by way room nq }
{
    if way == 2 {
        return nq;
    }
    room
}

pub fn named_fields(item: usize) -> usize
    requires { item ≤ suc items }
    ensures { result ≡ span_in (field_row item) 0 }
{
    wide(NAMED[item]) as usize
}

fn key_at(item: usize) -> u64
    requires { item < items }
    ensures { result ≡ key_in (row_of item) }
{
    wide(KEYS[item])
}

// The place of the record with that identifier, or RECORDS where there is none.
pub fn place_of(key: u64) -> usize
    ensures { (result ≡ place_of key) × (result ≤ items) }
{
    for i in 0..RECORDS {
        if key == key_at(i) {
            return i;
        }
    }
    RECORDS
}

// The rule of field `k` of a record, from 0, or of the values that it lists. A match and no table, since it is asked for every field.
// What is no record of a block comes first, so that a further record's arm is put behind all others and moves none of them, here and in the proof.
// A ratio of 0 passes here: which blank fields stand behind the last ratio is known only at the line's end, and there a 0 among the ratios is refused.
fn own_rule(item: usize, k: usize) -> Rule
    ensures { rule_by result ≡ own_rule (field_row item) k }
{
    match item {
        IT => match k {
            0 => Rule::Limited(0, 1, 1440),
            1 => Rule::NotRead,
            2 => Rule::NotRead,
            3 => Rule::Limited(0, 1, 300),
            _ => Rule::Unnamed,
        },
        JR => match k {
            0 => Rule::Worded(Refusal::Malformed.number(), 4, 0x50524543, 0x50524543),
            1..=9 => Rule::Limited(2, 0, 999),
            _ => Rule::Unnamed,
        },
        BA => match k {
            0 => Rule::Limited(2, 1, 999999),
            _ => Rule::Unnamed,
        },
        PI => Rule::Limited(4, 0, 200000),
        LU => match k {
            0 => Rule::Limited(4, 0, 200000),
            1 => Rule::Limited(4, 0, 200000),
            2 => Rule::Limited(2, 0, 0),
            _ => Rule::Unnamed,
        },
        UI => Rule::Limited(2, 0, 9999999),
        QI => Rule::Limited(2, 0, 10000000),
        HC => match k {
            0 => Rule::Limited(0, 2, 5),
            _ => Rule::Unnamed,
        },
        RM => match k {
            0 => Rule::Limited(0, 1, 50),
            1 => Rule::Limited(2, 1, 2400),
            2 => Rule::Limited(2, 0, 50),
            _ => Rule::Unnamed,
        },
        PB => match k {
            0 => Rule::Limited(4, 0, 1000000),
            _ => Rule::Unnamed,
        },
        RS => match k {
            0 => Rule::Limited(0, 1, 1),
            1 => Rule::Worded(Refusal::OutsideLimits.number(), 4, 0x53544F52, 0x53544F52),
            2 => Rule::Limited(0, 0, 0),
            _ => Rule::Unnamed,
        },
        SV => Rule::Limited(2, 0, 9999999),
        SQ => Rule::Limited(2, 0, 10000000),
        _ => Rule::Unnamed,
    }
}

// The same for any field: a line has ten at most.
pub fn rule_at(item: usize, k: usize) -> Rule
    ensures { rule_by result ≡ rule_at (rules_by item) k }
{
    if 10 <= k {
        return Rule::Unnamed;
    }
    own_rule(item, k)
}

// Field `k` of a record, counted from 0.
pub fn field_at(item: usize, k: usize, f: &[u8]) -> Option<Held>
    ensures { FieldIs result (faulty_field (rule_at (rules_by item) k) f.now) (outside_field (rule_at (rules_by item) k) f.now) (value_of (rule_at (rules_by item) k) f.now) }
{
    rules::read_field(rule_at(item, k), f)
}

#[cfg(test)]
mod tests {
    use super::*;

    fn behind_the_word(rule: Rule) -> Option<Refusal> {
        match rule {
            Rule::Worded(number, _, _, _) => Refusal::of_number(number),
            _ => None,
        }
    }

    // By the papers: another word than PREC is refused by 6, another than STOR by 7.
    #[test]
    fn another_word_is_refused_by_name(rt: HostRuntime) {
        assert!(rt; behind_the_word(rule_at(JR, 0)) == Some(Refusal::Malformed));
        assert!(rt; behind_the_word(rule_at(RS, 1)) == Some(Refusal::OutsideLimits));
    }
}
