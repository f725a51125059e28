// Digits that stand one behind the other, eight at a time.
ghost use Rattle.std.specs.Prelude.{◌≡◌, true, ℕ, ◌+◌, ◌-◌, ◌*◌, ◌^◌, ◌≤◌, ◌<◌, length};
ghost use Rattle.definitions.specs.Bytes.{between};
ghost use Rattle.pool.specs.Lanes.{Marks, lane};
ghost use Rattle.number.specs.NumberCode.{AllDigits, Taken, DigitLanes, HasRoom, FirstCount, onto, lanes_value};

use crate::decimal::power;
use crate::numeral::shifted_on;
use crate::phase::is_digit;

// The highest bit of each byte that is no digit.
fn not_digits(word: u64) -> u64
    ensures { Marks (between 48 57) word result }
{
    let x = word ^ 0x3030303030303030;
    (((x & 0x7F7F7F7F7F7F7F7F) + 0x7676767676767676) | x) & 0x8080808080808080
}

// The values of the eight bytes from a place on, of which those that are digits count.
fn digits_at(doc: &[u8], at: usize) -> u64
    requires { at + 8 ≤ length doc.now }
    ensures { DigitLanes doc.now at result }
{
    pool::word_at(doc, at) ^ 0x3030303030303030
}

// The number of eight digits' values: by pairs, by fours, and all.
fn eight_digits(x: u64) -> u64
    requires { (j : ℕ) → j < 8 → lane x j < 10 }
    ensures { result ≡ lanes_value x 8 }
{
    let pairs = ((x >> 8) & 0x00FF00FF00FF00FF) * 10 + (x & 0x00FF00FF00FF00FF);
    let fours = ((pairs >> 16) & 0x0000FFFF0000FFFF) * 100 + (pairs & 0x0000FFFF0000FFFF);
    (fours >> 32) * 10000 + (fours & 0xFFFFFFFF)
}

// Where the digits end that stand from a place on, one by one.
fn slow_end(doc: &[u8], at: usize) -> usize
    requires { at ≤ length doc.now }
    ensures { AllDigits doc.now at result }
{
    for i in at..doc.len() {
        if !is_digit(doc[i]) {
            return i;
        }
    }
    doc.len()
}

// Where the digits end that stand from a place on.
pub fn digits_end(doc: &[u8], at: usize) -> usize
    requires { at ≤ length doc.now }
    ensures { AllDigits doc.now at result }
{
    let mut i = at;
    // tuned, eight bytes at a time: the loop stays by hand
    while 8 <= doc.len() - i {
        let others = not_digits(pool::word_at(doc, i));
        if others != 0 {
            return i + u64::leading_zeros(others) as usize / 8;
        }
        i += 8;
    }
    slow_end(doc, i)
}

// The coefficient with the digits from one place up to another, one by one.
fn slow_value(doc: &[u8], at: usize, end: usize, start: u64) -> u64
    requires { AllDigits doc.now at end }
    ensures { Taken doc.now at (end - at) start result }
{
    let mut coefficient = start;
    for &b in &doc[at..end] {
        coefficient = shifted_on(coefficient, b);
    }
    coefficient
}

// Whether so many digits from a place on can be taken by words: at most sixteen, where eight bytes can be read and the
// coefficient stays below the cap.
fn has_room(doc: &[u8], at: usize, count: usize, start: u64) -> bool
    requires { at ≤ length doc.now }
    ensures { result ≡ true → HasRoom doc.now at count start }
{
    count <= 16 && 8 <= doc.len() - at && start < power(18 - count)
}

// How many of up to sixteen digits come first, so that none or eight are left.
fn first_count(count: usize) -> usize
    ensures { FirstCount count result }
{
    if count <= 8 { count } else { count - 8 }
}

// The coefficient with up to eight digits.
fn short_value(doc: &[u8], at: usize, count: usize, start: u64) -> u64
    requires { (0 < count) × (count ≤ 8) × HasRoom doc.now at count start × AllDigits doc.now at (at + count) }
    ensures { result ≡ start * 10 ^ count + onto doc.now at count 0 }
{
    let moved = start * power(count);
    moved + eight_digits(digits_at(doc, at) >> (64 - 8 * count))
}

// The coefficient with the digits from one place up to another: by one word or two where they can be taken so, else one by one.
pub fn digits_value(doc: &[u8], at: usize, end: usize, start: u64) -> u64
    requires { (at < end) × AllDigits doc.now at end }
    ensures { Taken doc.now at (end - at) start result }
{
    let count = end - at;
    if !has_room(doc, at, count, start) {
        return slow_value(doc, at, end, start);
    }
    let few = first_count(count);
    let first = short_value(doc, at, few, start);
    if count <= 8 {
        return first;
    }
    first * 100000000 + eight_digits(digits_at(doc, at + few))
}
