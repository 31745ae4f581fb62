// A record in its two forms: what it is refused for, and how it is written in the other form.
#![tactic(auto)]

ghost use Rattle.std.specs.Prelude.{◌≡◌, ◌++◌, ◌≤◌, length, take, drop};
ghost use Rattle.meaning.specs.Results.{record_size, old_record_size};
ghost use Rattle.meaning.specs.Moving.{old_padding, new_form, old_form, filled, other_ratio};
ghost use Rattle.forms.specs.Tests.{tail_padding};
ghost use Rattle.forms.specs.Fault.{number_of, fault_is, fault_of};

use results::{OLD, RECORD};

// Where the padding behind ratio and place begins.
const TAIL: usize = 36;

// Ratio 100 and place 1, in two bytes each and the lowest first, as one number: it is read and written at once.
const WHOLE: u64 = 65_636;

// What a file or a record is refused for: its length is no whole number of records, padding is not zero, a ratio is not 100 or a place not 1, or there is too little room.
#[derive(Clone, Copy, PartialEq, Eq)]
pub enum Fault {
    Length,
    Padding,
    Ratio,
    Room,
}

impl Fault {
    // The number that it is told by.
    pub fn number(self) -> u64
        ensures { result ≡ number_of self }
    {
        match self {
            Fault::Length => 1,
            Fault::Padding => 2,
            Fault::Ratio => 3,
            Fault::Room => 4,
        }
    }
}

// Padding that is not zero, among the bytes that both forms have.
pub fn is_filled(r: &[u8]) -> bool
    requires { old_record_size ≤ length r.now }
    ensures { result ≡ filled old_padding r.now }
{
    r[7] != 0 || slices::read_le(&r[22..24]) != 0
}

// Padding that is not zero, behind the place.
fn is_tail_filled(r: &[u8]) -> bool
    requires { length r.now ≡ record_size }
    ensures { result ≡ filled tail_padding r.now }
{
    slices::read_le(&r[TAIL..RECORD]) != 0
}

// A ratio that is not 100, or a place that is not 1.
fn is_other(r: &[u8]) -> bool
    requires { length r.now ≡ record_size }
    ensures { result ≡ other_ratio r.now }
{
    slices::read_le(&r[OLD..TAIL]) != WHOLE
}

// What one record of the new form is refused for.
pub fn fault_of(r: &[u8]) -> Option<Fault>
    requires { length r.now ≡ record_size }
    ensures { fault_is result ≡ fault_of r.now }
{
    if is_filled(r) || is_tail_filled(r) {
        return Some(Fault::Padding);
    }
    if is_other(r) {
        return Some(Fault::Ratio);
    }
    None
}

// The bytes that both forms have. Their number is a constant, so that they are moved in wide pieces.
fn copy_old(to: &mut [u8], from: &[u8])
    requires { (old_record_size ≤ length to.old) × (old_record_size ≤ length from.now) }
    ensures { to.new ≡ take old_record_size from.now ++ drop old_record_size to.old }
{
    if let (Some(front), Some(old)) = (to.first_chunk_mut::<OLD>(), from.first_chunk::<OLD>()) {
        *front = *old;
    }
}

// An old record in the new form: ratio 100, place 1 and zeros behind it.
pub fn put_new(to: &mut [u8], from: &[u8])
    requires { (length to.old ≡ record_size) × (length from.now ≡ old_record_size) }
    ensures { to.new ≡ new_form from.now }
{
    copy_old(to, from);
    slices::put_le(&mut to[OLD..TAIL], WHOLE);
    slices::put_le(&mut to[TAIL..RECORD], 0);
}

// A new record in the old form.
pub fn put_old(to: &mut [u8], from: &[u8])
    requires { (length to.old ≡ old_record_size) × (length from.now ≡ record_size) }
    ensures { to.new ≡ old_form from.now }
{
    copy_old(to, from);
}
