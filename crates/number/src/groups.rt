// A coefficient's digits by groups of eight, each group as the bytes of a word, with no division and no remainder: a quotient
// by a power of ten is a product that is at most one short, and what is left is what that multiple of the table's power, taken
// away, leaves.
ghost use Rattle.std.specs.Prelude.{◌≡◌, ℕ, ◌/◌, ◌^◌, ◌<◌};
ghost use Rattle.number.specs.NumberGroups.{Lows, GroupsOf, Halves, Quarters};

use crate::decimal::power;

// The digits of a coefficient: the last eight, the eight before them, and those before these.
#[derive(Clone, Copy)]
pub struct Groups {
    pub low: u64,
    pub middle: u64,
    pub high: u64,
}

// Eight digits that are zeros.
const ZEROS: u64 = 0x3030303030303030;

// A number below 10^8 as two below 10^4.
fn halves(x: u64) -> u64
    requires { x < 10 ^ 8 }
    ensures { Halves x result }
{
    let high = (x * 109951163) >> 40;
    (high << 32) + (x - high * power(4))
}

// Both as two below 10^2.
fn quarters(word: u64) -> u64
    requires { (x : ℕ) × (x < 10 ^ 8) × Halves x word }
    ensures { (x : ℕ) → x < 10 ^ 8 → Halves x word → Quarters x result }
{
    let high = ((word * 10486) >> 20) & 0x0000007F0000007F;
    (high << 16) + (word - high * power(2))
}

// All four as two digits, and each digit as its byte.
fn eighths(word: u64) -> u64
    requires { (x : ℕ) × (x < 10 ^ 8) × Quarters x word }
    ensures { (x : ℕ) → x < 10 ^ 8 → Quarters x word → Lows 8 result x }
{
    let high = ((word * 103) >> 10) & 0x000F000F000F000F;
    (high << 8) + (word - high * power(1)) + ZEROS
}

// The eight digits of a number below 10^8. One below 10^2, as many are, is its own quarters.
fn eight_of(x: u64) -> u64
    requires { x < 10 ^ 8 }
    ensures { Lows 8 result x }
{
    if x < power(2) {
        return eighths(x);
    }
    eighths(quarters(halves(x)))
}

// How often 10^16 goes into a coefficient.
fn over_16(c: u64) -> u64
    requires { c < 10 ^ 18 }
    ensures { result ≡ c / 10 ^ 16 }
{
    let q = ((c >> 44) * 118059) >> 26;
    let unit = power(16);
    if unit <= c - q * unit { q + 1 } else { q }
}

// How often 10^8 goes into a number below 10^16.
fn over_8(x: u64) -> u64
    requires { x < 10 ^ 16 }
    ensures { result ≡ x / 10 ^ 8 }
{
    let q = ((x >> 24) * 2882303761) >> 34;
    let unit = power(8);
    if unit <= x - q * unit { q + 1 } else { q }
}

// The groups of a coefficient below 10^16.
fn two_groups(c: u64) -> Groups
    requires { c < 10 ^ 16 }
    ensures { GroupsOf c result }
{
    let unit = power(8);
    if c < unit {
        return Groups {
            low: eight_of(c),
            middle: ZEROS,
            high: ZEROS,
        };
    }
    let middle = over_8(c);
    Groups {
        low: eight_of(c - middle * unit),
        middle: eight_of(middle),
        high: ZEROS,
    }
}

// The groups of a coefficient.
pub fn groups_of(c: u64) -> Groups
    requires { c < 10 ^ 18 }
    ensures { GroupsOf c result }
{
    let unit = power(16);
    if c < unit {
        return two_groups(c);
    }
    let high = over_16(c);
    let g = two_groups(c - high * unit);
    Groups {
        low: g.low,
        middle: g.middle,
        high: eighths(high),
    }
}
