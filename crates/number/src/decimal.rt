// The table of powers of ten, and the parts of a number as plain JSON, a minus, the digits of the integer part and a fraction:
// how long each is.
ghost use Rattle.std.specs.Prelude.{◌≡◌, ℕ, ◌+◌, ◌/◌, ◌^◌, ◌≤◌, length};
ghost use Rattle.definitions.specs.Number.{most_coefficient, most_scale};
ghost use Rattle.definitions.specs.Plain.{decimal, fraction, minus};
ghost use Rattle.number.specs.NumberWrite.{written};

// Ten to the power of up to nineteen.
pub fn power(k: usize) -> u64
    requires { k ≤ 19 }
    ensures { result ≡ 10 ^ k }
{
    match k {
        0 => 1,
        1 => 10,
        2 => 100,
        3 => 1000,
        4 => 10000,
        5 => 100000,
        6 => 1000000,
        7 => 10000000,
        8 => 100000000,
        9 => 1000000000,
        10 => 10000000000,
        11 => 100000000000,
        12 => 1000000000000,
        13 => 10000000000000,
        14 => 100000000000000,
        15 => 1000000000000000,
        16 => 10000000000000000,
        17 => 100000000000000000,
        18 => 1000000000000000000,
        _ => 10000000000000000000,
    }
}

// How many decimal digits a coefficient has: its bits times log 2, 1233 / 4096, or one more.
fn decimal_length(n: u64) -> usize
    requires { n ≤ most_coefficient }
    ensures { result ≡ length (decimal n) }
{
    let m = n | 1;
    let bits = 64 - u64::leading_zeros(m) as usize;
    let k = (bits * 1233) >> 12;
    if m < power(k) { k } else { k + 1 }
}

// How many digits the integer part has: all but the fraction's, or a zero.
pub fn whole_length(coefficient: u64, scale: u64) -> usize
    requires { coefficient ≤ most_coefficient }
    ensures { result ≡ length (decimal (coefficient / 10 ^ scale)) }
{
    let digits = decimal_length(coefficient);
    let behind = scale as usize;
    if behind < digits { digits - behind } else { 1 }
}

pub fn minus_length(negative: bool) -> usize
    ensures { result ≡ length (minus negative) }
{
    if negative { 1 } else { 0 }
}

pub fn fraction_length(scale: u64) -> usize
    requires { scale ≤ most_scale }
    ensures { (c : ℕ) → result ≡ length (fraction scale c) }
{
    if scale == 0 {
        return 0;
    }
    1 + scale as usize
}

pub fn write_minus(out: &mut [u8], at: usize, negative: bool)
    requires { at + length (minus negative) ≤ length out.old }
    ensures { out.new ≡ written out.old at (minus negative) }
{
    if negative {
        out[at] = b'-';
    }
}
