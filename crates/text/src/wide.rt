// Characters of several bytes, by the table of RFC 3629 section 4.
ghost use Rattle.std.specs.Prelude.{◌≡◌, false, ◌≤◌, ◌<◌, length, get_or};
ghost use Rattle.definitions.specs.Bytes.{look, between};
ghost use Rattle.definitions.specs.Text.{Inside};
ghost use Rattle.definitions.specs.Utf8.{head_table};
ghost use Rattle.text.specs.TextParts.{tails_as, ReadsWide, FrontStands, WideFront};

use super::unicode::peek;

// What a first byte says: the lowest and the highest second byte, and how many bytes follow that.
#[derive(Clone, Copy)]
struct Tails(usize, usize, usize);

fn tails_of(b: usize) -> Option<Tails>
    ensures told { tails_as result ≡ look head_table b }
{
    match b {
        0xC2..=0xDF => Some(Tails(0x80, 0xBF, 0)),
        0xE0 => Some(Tails(0xA0, 0xBF, 1)),
        0xE1..=0xEC => Some(Tails(0x80, 0xBF, 1)),
        0xED => Some(Tails(0x80, 0x9F, 1)),
        0xEE..=0xEF => Some(Tails(0x80, 0xBF, 1)),
        0xF0 => Some(Tails(0x90, 0xBF, 2)),
        0xF1..=0xF3 => Some(Tails(0x80, 0xBF, 2)),
        0xF4 => Some(Tails(0x80, 0x8F, 2)),
        _ => None,
    }
}

// The end of a character whose next byte lies from lo up to hi and is followed by so many more; an error is the place of a byte that it cannot have.
fn tails_end(doc: &[u8], at: usize, lo: usize, hi: usize, more: usize) -> Result<usize, usize>
    requires { (at ≤ length doc.now) × (0x80 ≤ lo) × (hi < 0x100) }
    ensures read { ReadsWide doc.now (Inside.tail lo hi more) at result }
{
    let mut i = at;
    let mut from = lo;
    let mut to = hi;
    let mut left = more;
    // the bounds change behind the first byte: a `for` over the places is no plainer
    loop {
        let b = peek(doc, i);
        if b < from || to < b {
            return Err(i);
        }
        i += 1;
        if left == 0 {
            return Ok(i);
        }
        left -= 1;
        from = 0x80;
        to = 0xBF;
    }
}

// The end of the character at a place, where no ASCII character from the space on stands; an error as above.
pub fn wide_end(doc: &[u8], at: usize) -> Result<usize, usize>
    requires { (at < length doc.now) × (between 0x20 0x7F (get_or doc.now at 0) ≡ false) }
    ensures read { ReadsWide doc.now Inside.chars at result }
{
    match tails_of(peek(doc, at)) {
        Some(Tails(lo, hi, more)) => tails_end(doc, at + 1, lo, hi, more),
        None => Err(at),
    }
}

// How many bytes the character of several bytes has that a word begins with, if it begins with one. Each byte behind the first has 10 as its
// highest bits, and what else the table asks is asked of the first two.
fn wide_length(x: u64) -> Option<usize>
    ensures found { WideFront x result }
{
    let two = x >> 48;
    if two < 0xC200 || two / 64 % 4 != 2 {
        return None;
    }
    if two < 0xE000 {
        return Some(2);
    }
    if (x >> 40) / 64 % 4 != 2 {
        return None;
    }
    if two < 0xF000 {
        // ED A0 to ED BF: surrogates
        if two < 0xE0A0 || two / 32 == 0x76D {
            return None;
        }
        return Some(3);
    }
    if (x >> 32) / 64 % 4 != 2 || two < 0xF090 || 0xF48F < two {
        return None;
    }
    Some(4)
}

// How many bytes of a word stand for themselves, where the first n do and characters of several bytes may follow; only where one of four has room.
pub fn past_wides(x: u64, n: usize) -> usize
    requires { FrontStands x n }
    ensures found { FrontStands x result }
{
    let mut m = n;
    while m < 5 {
        let Some(k) = wide_length(x << (8 * m)) else {
            return m;
        };
        m += k;
    }
    m
}
