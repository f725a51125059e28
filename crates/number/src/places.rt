// Digits of a coefficient, from its groups, at their places in a buffer.
ghost use Rattle.std.specs.Prelude.{◌≡◌, [], ℕ, ◌+◌, ◌/◌, ◌^◌, ◌≤◌, ◌<◌, length};
ghost use Rattle.definitions.specs.Plain.{last_digits, fraction};
ghost use Rattle.number.specs.NumberGroups.{Lows, GroupsOf, LowsFrom};
ghost use Rattle.number.specs.NumberWrite.{written};

use crate::groups::Groups;

// Writes the eight digits of a word, its lowest byte the last. The compiler makes one store of them where they are taken from
// the low end of the word: so the last byte comes first.
fn store_eight(out: &mut [u8], at: usize, x: u64)
    requires { at + 8 ≤ length out.old }
    ensures { (n : ℕ) → Lows 8 x n → out.new ≡ written out.old at (last_digits 8 n []) }
{
    out[at + 7] = (x & 255) as u8;
    out[at + 6] = ((x >> 8) & 255) as u8;
    out[at + 5] = ((x >> 16) & 255) as u8;
    out[at + 4] = ((x >> 24) & 255) as u8;
    out[at + 3] = ((x >> 32) & 255) as u8;
    out[at + 2] = ((x >> 40) & 255) as u8;
    out[at + 1] = ((x >> 48) & 255) as u8;
    out[at] = ((x >> 56) & 255) as u8;
}

// Writes the last digits of a word, so many of them, from the right.
fn write_rest(out: &mut [u8], at: usize, count: usize, x: u64)
    requires { at + count ≤ length out.old }
    ensures { (n : ℕ) → Lows count x n → out.new ≡ written out.old at (last_digits count n []) }
{
    let mut left = count;
    let mut word = x;
    while 0 < left {
        left -= 1;
        out[at + left] = (word & 255) as u8;
        word = word >> 8;
    }
}

// Eight digits from a place on, counted from the last, or as many as the groups have from there: that digit lowest.
fn eight_from(k: usize, g: Groups) -> u64
    requires { k < 24 }
    ensures { (c : ℕ) → GroupsOf c g → LowsFrom k result c }
{
    if k == 0 {
        return g.low;
    }
    if k < 8 {
        return (g.low >> (8 * k)) | (g.middle << (64 - 8 * k));
    }
    if k == 8 {
        return g.middle;
    }
    if k < 16 {
        return (g.middle >> (8 * k - 64)) | (g.high << (128 - 8 * k));
    }
    g.high >> (8 * k - 128)
}

// Writes so many digits, from the right, the last of them the digit at a place: by eights, and one by one what is before them.
pub fn write_places(out: &mut [u8], at: usize, from: usize, count: usize, g: Groups)
    requires { (from < 16) × (from + count ≤ 23) × (at + count ≤ length out.old) }
    ensures { (c : ℕ) → GroupsOf c g → out.new ≡ written out.old at (last_digits count (c / 10 ^ from) []) }
{
    if count < 8 {
        write_rest(out, at, count, eight_from(from, g));
        return;
    }
    let left = count - 8;
    store_eight(out, at + left, eight_from(from, g));
    if left < 8 {
        write_rest(out, at, left, eight_from(from + 8, g));
        return;
    }
    store_eight(out, at + left - 8, eight_from(from + 8, g));
    write_rest(out, at, left - 8, eight_from(from + 16, g));
}

// Writes the fraction, if there is one.
pub fn write_fraction(out: &mut [u8], at: usize, scale: usize, g: Groups)
    requires { (scale < 16) × (at + length (fraction scale 0) ≤ length out.old) }
    ensures { (c : ℕ) → GroupsOf c g → out.new ≡ written out.old at (fraction scale c) }
{
    if scale == 0 {
        return;
    }
    write_places(out, at + 1, 0, scale, g);
    out[at] = b'.';
}
