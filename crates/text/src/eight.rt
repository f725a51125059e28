// Eight bytes of a text at a time, looked at as one word and put as one, as far as they stand for themselves.
ghost use Rattle.std.specs.Prelude.{◌≡◌, ◌++◌, ◌+◌, ◌-◌, ◌/◌, ◌≤◌, length, take, replicate};
ghost use Rattle.std.specs.Int.Count.{count_leading_zeros};
ghost use Rattle.pool.specs.Pool.{unpacked, words};
ghost use Rattle.pool.specs.Lanes.{Marks};
ghost use Rattle.text.specs.TextParts.{plain_ascii, PlainBits, Puts, Stood};

use super::wide::past_wides;

// A word whose bytes have their highest bit clear where a byte of x is below 0x20, a quote or a backslash, but for those from 0x80 on: it is below
// 0x20 where 0x60 more leaves that bit clear, and a quote or a backslash where 0x7F more does, once it is taken from it by `^`.
pub fn plain_bits(x: u64) -> u64
    ensures told { PlainBits x result }
{
    let v = x & 0x7F7F7F7F7F7F7F7F;
    let above = v + 0x6060606060606060;
    let quotes = (v ^ 0x2222222222222222) + 0x7F7F7F7F7F7F7F7F;
    let backslashes = (v ^ 0x5C5C5C5C5C5C5C5C) + 0x7F7F7F7F7F7F7F7F;
    above & quotes & backslashes
}

// The highest bit of each byte that is not plain ASCII.
fn odd(x: u64) -> u64
    ensures marked { Marks plain_ascii x result }
{
    (!plain_bits(x) | x) & 0x8080808080808080
}

// The first byte of a word that has a mark.
fn first(marks: u64) -> usize
    ensures counted { result ≡ count_leading_zeros 64 marks / 8 }
{
    u64::leading_zeros(marks) as usize / 8
}

// Puts the first m bytes of a word, behind which it has zeros, behind the n bytes at word w, where eight have room.
pub fn put_part(pool: &mut [u64], w: usize, n: usize, x: u64, m: usize)
    requires { (m ≤ 8) × (w + words (n + 8) ≤ length pool.old) × (unpacked x ≡ take m (unpacked x) ++ replicate (8 - m) 0) }
    ensures put { Puts pool.old pool.new w n (take m (unpacked x)) }
{
    let k = w + n / 8;
    let r = n % 8;
    if r == 0 {
        pool[k] = x;
        return;
    }
    pool[k] = pool::front(pool[k], r) | (x >> (8 * r));
    pool[k + 1] = x << (64 - 8 * r);
}

// Puts the plain ASCII bytes from place at on into the pool from word w on. Answers the place of the first that is none, or of the
// document's last seven bytes.
pub fn put_standing(doc: &[u8], at: usize, pool: &mut [u64], w: usize) -> usize
    requires { (at ≤ length doc.now) × (w + words (length doc.now - at) ≤ length pool.old) }
    ensures put { Stood doc.now at pool.old pool.new w 0 result }
{
    let mut i = at;
    let mut k = w;
    // tuned, eight bytes at a time: the loop stays by hand
    while 8 <= doc.len() - i {
        let x = pool::word_at(doc, i);
        let marks = odd(x);
        if marks != 0 {
            let m = first(marks);
            pool[k] = pool::front(x, m);
            return i + m;
        }
        pool[k] = x;
        i += 8;
        k += 1;
    }
    i
}

// Puts the bytes that stand for themselves, plain ASCII and characters of several bytes, behind the n bytes at word w, which may end within a
// word. Answers a place up to which all do; the document's last seven bytes are left.
pub fn put_run(doc: &[u8], at: usize, pool: &mut [u64], w: usize, n: usize) -> usize
    requires { (at ≤ length doc.now) × (w + words (n + (length doc.now - at)) ≤ length pool.old) }
    ensures put { Stood doc.now at pool.old pool.new w n result }
{
    // plain ASCII behind whole words; called at two places, so that the compiler keeps it a call
    if n % 8 == 0 {
        return put_standing(doc, at, pool, w + n / 8);
    }
    let mut i = at;
    // tuned, eight bytes at a time: the loop stays by hand
    while 8 <= doc.len() - i {
        let x = pool::word_at(doc, i);
        let marks = odd(x);
        if marks != 0 {
            let m = past_wides(x, first(marks));
            put_part(pool, w, n + (i - at), pool::front(x, m), m);
            i += m;
            // a character of several bytes would stand whole in the word
            if m < 5 {
                return i;
            }
        } else {
            put_part(pool, w, n + (i - at), x, 8);
            i += 8;
        }
    }
    i
}
