// Numbers written as plain JSON, and how long they are so. No division and no remainder stands in this file, nor in those
// that it calls, `decimal`, `short`, `groups` and `places`: the audit holds all five to it.
ghost use Rattle.std.specs.Prelude.{◌≡◌, ◌+◌, ◌^◌, ◌≤◌, ◌<◌, length};
ghost use Rattle.definitions.specs.Plain.{fraction, plain_number};
ghost use Rattle.number.specs.NumberWrite.{Bounded, WritesNumber, as_number, unsigned_written};

use crate::{decimal, groups, places, short};

// How long a number is as plain JSON.
pub fn number_length(negative: bool, coefficient: u64, scale: u64) -> usize
    requires { Bounded (as_number negative coefficient scale) }
    ensures { result ≡ length (plain_number (as_number negative coefficient scale)) }
{
    decimal::minus_length(negative)
        + decimal::whole_length(coefficient, scale)
        + decimal::fraction_length(scale)
}

// Writes the fraction, and the digits of the integer part before it: one by one, or by groups where there are many.
fn write_unsigned(out: &mut [u8], at: usize, digits: usize, scale: usize, coefficient: u64)
    requires few { (coefficient < 10 ^ 18) × (scale < 16) × (scale + digits ≤ 23) }
    requires room { at + digits + length (fraction scale 0) ≤ length out.old }
    ensures { out.new ≡ unsigned_written out.old at digits scale coefficient }
{
    if coefficient < decimal::power(8) {
        let whole = short::write_fraction(out, at + digits, scale, coefficient);
        short::write_digits(out, at, digits, whole);
        return;
    }
    let g = groups::groups_of(coefficient);
    places::write_fraction(out, at + digits, scale, g);
    places::write_places(out, at, scale, digits, g);
}

// Writes a number as plain JSON at a place and gives the place behind it.
pub fn write_number(
    out: &mut [u8],
    at: usize,
    negative: bool,
    coefficient: u64,
    scale: u64,
) -> usize
    requires bounded { Bounded (as_number negative coefficient scale) }
    requires room { at + length (plain_number (as_number negative coefficient scale)) ≤ length out.old }
    ensures { WritesNumber out.old at (as_number negative coefficient scale) out.new result }
{
    let digits = decimal::whole_length(coefficient, scale);
    let start = at + decimal::minus_length(negative);
    let point = start + digits;
    write_unsigned(out, start, digits, scale as usize, coefficient);
    decimal::write_minus(out, at, negative);
    point + decimal::fraction_length(scale)
}
