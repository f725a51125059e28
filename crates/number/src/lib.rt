// Numbers: read from a document as RFC 8259 has them, here, and written as plain JSON (`write`).
#![tactic(auto)]

ghost use Rattle.std.specs.Prelude.{◌≡◌, false, ℕ, ◌+◌, ◌/◌, ◌^◌, ◌≤◌, ◌<◌, min, length, get_or};
ghost use Rattle.definitions.specs.Number.{Numeral, most_scale};
ghost use Rattle.number.specs.NumberRead.{ReadsNumber, ReadsOn, numeral};
ghost use Rattle.number.specs.NumberCode.{Answers, StandsFor, StandsAt, Quiet, Settles, WholeEnd};
ghost use Rattle.number.specs.NumberCode.{FractionEnd, behind_minus, phase_of, past_coefficient};

mod decimal;
mod digits;
mod groups;
mod numeral;
mod phase;
mod places;
mod short;
pub mod word; // numbers that are whole words
mod write;

use numeral::CappedNumeral;
use phase::NumberPhase;
pub use write::{number_length, write_number};

// What reading a number comes to.
#[derive(Clone, Copy)]
pub struct NumberRead {
    // behind the longest run of bytes that begins a number
    pub end: usize,
    // whether that run is a number
    pub complete: bool,
    // whether refusal 4 is for it
    pub beyond: bool,
    // the number that it means, where it is not beyond
    pub negative: bool,
    pub coefficient: u64,
    pub scale: u64,
}

// The answer for a run that ends in this phase, with these digits.
fn answer(phase: NumberPhase, d: CappedNumeral, end: usize) -> NumberRead
    ensures { Answers (phase_of phase) d end result }
{
    NumberRead {
        end,
        complete: phase::is_complete(phase),
        beyond: numeral::is_beyond(d),
        negative: numeral::has_minus(d),
        coefficient: d.coefficient,
        scale: d.scale,
    }
}

// Goes on with a number a byte at a time, from any phase.
fn read_on(doc: &[u8], at: usize, first: NumberPhase, digits: CappedNumeral) -> NumberRead
    requires { at ≤ length doc.now }
    ensures { (n : Numeral) → StandsFor digits n → ReadsOn doc.now (phase_of first) n at result }
{
    let mut phase = first;
    let mut d = digits;
    for i in at..doc.len() {
        let Some(next) = phase::step(phase, doc[i]) else {
            return answer(phase, d, i);
        };
        d = numeral::extended(next, d, doc[i]);
        phase = next;
    }
    answer(phase, d, doc.len())
}

// Whether a byte may go on here with a number that may end here.
fn may_go_on(doc: &[u8], at: usize) -> bool
    ensures { result ≡ false → at < length doc.now → Quiet (get_or doc.now at 0) }
{
    at < doc.len() && phase::may_follow(doc[at])
}

// Whether byte b stands at place i.
fn stands_at(doc: &[u8], i: usize, b: u8) -> bool
    ensures { StandsAt doc.now i b result }
{
    i < doc.len() && doc[i] == b
}

// The place behind a minus, if there is one.
fn behind_minus(at: usize, negative: bool) -> usize
    requires { at < 2 ^ 63 }
    ensures { result ≡ behind_minus at negative }
{
    if negative { at + 1 } else { at }
}

// Where the integer part ends that begins at a place; that place, if none does.
fn whole_end(doc: &[u8], at: usize) -> usize
    requires { at ≤ length doc.now }
    ensures { WholeEnd doc.now at result }
{
    if stands_at(doc, at, b'0') {
        return at + 1;
    }
    digits::digits_end(doc, at)
}

// Where the fraction ends that begins at a place; that place, if none does.
fn fraction_end(doc: &[u8], at: usize) -> usize
    requires { at ≤ length doc.now }
    ensures { FractionEnd doc.now at result }
{
    if stands_at(doc, at, b'.') {
        return digits::digits_end(doc, at + 1);
    }
    at
}

// The answer for a number with so many digits behind the point and no exponent.
fn settle(negative: bool, coefficient: u64, digits: usize, end: usize) -> NumberRead
    ensures { (c : ℕ) → coefficient ≡ min c past_coefficient → Settles (numeral negative c digits) end result }
{
    NumberRead {
        end,
        complete: true,
        beyond: (9 < digits) | (coefficient == numeral::PAST_COEFFICIENT),
        negative: negative & (coefficient != 0),
        coefficient,
        scale: digits as u64,
    }
}

// Reads the longest run of bytes from `at` on that begins a number, a byte at a time.
fn slow_number(doc: &[u8], at: usize) -> NumberRead
    requires { at ≤ length doc.now }
    ensures { ReadsNumber doc.now at result }
{
    read_on(doc, at, NumberPhase::Begin, numeral::no_digits())
}

// Reads the longest run of bytes from `at` on that begins a number: at once where it is a number without an exponent, as
// most are, and else a byte at a time. One place calls it, so that it is compiled into the reader of documents.
pub fn read_number(doc: &[u8], at: usize) -> NumberRead
    requires { at ≤ length doc.now }
    ensures { ReadsNumber doc.now at result }
{
    let negative = stands_at(doc, at, b'-');
    let start = behind_minus(at, negative);
    let point = whole_end(doc, start);
    let end = fraction_end(doc, point);
    if (point == start) | (end == point + 1) | may_go_on(doc, end) {
        return slow_number(doc, at);
    }
    let whole = digits::digits_value(doc, start, point, 0);
    if end == point {
        return settle(negative, whole, 0, end);
    }
    let first = point + 1;
    let coefficient = digits::digits_value(doc, first, end, whole);
    settle(negative, coefficient, end - first, end)
}

// The integer part of a number.
pub fn whole_part(coefficient: u64, scale: u64) -> u64
    requires { scale ≤ most_scale }
    ensures { result ≡ coefficient / 10 ^ scale }
{
    coefficient / decimal::power(scale as usize)
}
