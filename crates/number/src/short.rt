// Digits of a number below 10^8, as most are, one by one from the right: a product is the quotient by ten, and what is left is
// what that multiple of ten, taken away, leaves.
ghost use Rattle.std.specs.Prelude.{◌≡◌, [], ◌+◌, ◌/◌, ◌%◌, ◌^◌, ◌≤◌, ◌<◌, length};
ghost use Rattle.definitions.specs.Plain.{last_digits, fraction};
ghost use Rattle.number.specs.NumberWrite.{Writes};

use crate::decimal::power;

// How often ten goes into a number below 10^8.
fn over_1(n: u64) -> u64
    requires { n < 10 ^ 8 }
    ensures { result ≡ n / 10 }
{
    (n * 3435973837) >> 35
}

// The byte of the last digit of a number, into which ten goes q times.
fn last_digit(n: u64, q: u64) -> u8
    requires { q ≡ n / 10 }
    ensures { result ≡ 48 + n % 10 }
{
    (48 + (n - q * power(1))) as u8
}

// Writes the last `count` digits of a value, from the right, and gives what is left of it before them.
pub fn write_digits(out: &mut [u8], at: usize, count: usize, value: u64) -> u64
    requires { (value < 10 ^ 8) × (at + count ≤ length out.old) }
    ensures { Writes out.old at (last_digits count value []) out.new (value / 10 ^ count) result }
{
    let mut left = count;
    let mut n = value;
    while 0 < left {
        left -= 1;
        let q = over_1(n);
        out[at + left] = last_digit(n, q);
        n = q;
    }
    n
}

// Writes the fraction and gives the integer part.
pub fn write_fraction(out: &mut [u8], at: usize, scale: usize, coefficient: u64) -> u64
    requires { (coefficient < 10 ^ 8) × (at + length (fraction scale 0) ≤ length out.old) }
    ensures { Writes out.old at (fraction scale coefficient) out.new (coefficient / 10 ^ scale) result }
{
    if scale == 0 {
        return coefficient;
    }
    let whole = write_digits(out, at + 1, scale, coefficient);
    out[at] = b'.';
    whole
}
