// Texts in a lent slice of 64-bit words: eight bytes to a word, the first in the highest place, so that words compare as their bytes do.
#![tactic(auto)]

ghost use Rattle.std.specs.Prelude.{◌≡◌, ◌++◌, ◌+◌, ◌-◌, ◌*◌, ◌/◌, ◌%◌, ◌≤◌, ◌<◌, length, take, drop, replicate};
ghost use Rattle.definitions.specs.Bytes.{order, same};
ghost use Rattle.pool.specs.Pool.{Put, unpacked, text_in, ordering_of};

use std::cmp::Ordering;

// How far up in its word the byte at place k stands, in bits.
fn shift(k: usize) -> usize
    ensures shifted { result ≡ 56 - 8 * (k % 8) }
{
    56 - 8 * (k % 8)
}

// The eight bytes from place i on, as a word: the compiler makes one load of them.
pub fn word_at(bytes: &[u8], i: usize) -> u64
    requires { i + 8 ≤ length bytes.now }
    ensures packed { unpacked result ≡ take 8 (drop i bytes.now) }
{
    u64::from_be_bytes([
        bytes[i],
        bytes[i + 1],
        bytes[i + 2],
        bytes[i + 3],
        bytes[i + 4],
        bytes[i + 5],
        bytes[i + 6],
        bytes[i + 7],
    ])
}

// The words with their first 0 to 8 bytes full and zeros behind them: a table, so that no shift hides from the compiler what a load
// can be made of.
static FRONT_MASKS: [u64; 9] = [
    0,
    0xFF00000000000000,
    0xFFFF000000000000,
    0xFFFFFF0000000000,
    0xFFFFFFFF00000000,
    0xFFFFFFFFFF000000,
    0xFFFFFFFFFFFF0000,
    0xFFFFFFFFFFFFFF00,
    0xFFFFFFFFFFFFFFFF,
];

// The first m bytes of a word, with zeros behind them.
pub fn front(x: u64, m: usize) -> u64
    requires { m ≤ 8 }
    ensures cut { unpacked result ≡ take m (unpacked x) ++ replicate (8 - m) 0 }
{
    x & FRONT_MASKS[m]
}

// Puts b at place k, and zeros behind it in its word: a text is put byte by byte and is padded at each.
pub fn put_byte(pool: &mut [u64], k: usize, b: u8)
    requires { k / 8 < length pool.old }
    ensures put { Put pool.old pool.new k b }
{
    let i = k / 8;
    let s = shift(k);
    let above = (pool[i] >> s) / 256;
    pool[i] = (above * 256 + (b as u64)) << s;
}

// How many of the n bytes from word w on the pool has.
#[tactic(auto, using(crate::specs::PoolLaws::length_text_in_min))]
pub fn held(pool: &[u64], w: usize, n: usize) -> usize
    ensures counted { result ≡ length (text_in pool.now w n) }
{
    if w < pool.len() {
        n.min(8 * (pool.len() - w))
    } else {
        0
    }
}

// Two texts in byte order, a word at a time; of the last word that both have bytes of, by the bytes that both have. Where a text
// runs past the pool's end it is what the pool has of it.
#[tactic(auto, using(crate::specs::PoolLaws::length_text_in_min))]
pub fn compare(pool: &[u64], w: usize, n: usize, v: usize, m: usize) -> Ordering
    ensures compared { ordering_of result ≡ order (text_in pool.now w n) (text_in pool.now v m) }
{
    let s = held(pool, w, n);
    let t = held(pool, v, m);
    let end = s.min(t);
    for i in 0..end.div_ceil(8) {
        let down = 64 - 8 * (end - 8 * i).min(8);
        let x = pool[w + i] >> down;
        let y = pool[v + i] >> down;
        if x != y {
            return x.cmp(&y);
        }
    }
    s.cmp(&t)
}

// Whether two texts of n bytes, which the pool has whole, are the same: their whole words, then the first bytes of the words behind.
#[tactic(auto, using(crate::specs::PoolLaws::length_text_in_min))]
fn same_whole(pool: &[u64], w: usize, v: usize, n: usize) -> bool
    requires { (length (text_in pool.now w n) ≡ n) × (length (text_in pool.now v n) ≡ n) }
    ensures compared { result ≡ same (text_in pool.now w n) (text_in pool.now v n) }
{
    let whole = n / 8;
    for i in 0..whole {
        if pool[w + i] != pool[v + i] {
            return false;
        }
    }
    let rest = n % 8;
    if rest == 0 {
        return true;
    }
    let s = 64 - 8 * rest;
    pool[w + whole] >> s == pool[v + whole] >> s
}

// Whether two texts, which the pool has whole, have the same bytes; most that differ differ in length.
pub fn same_held(pool: &[u64], w: usize, n: usize, v: usize, m: usize) -> bool
    requires { (length (text_in pool.now w n) ≡ n) × (length (text_in pool.now v m) ≡ m) }
    ensures compared { result ≡ same (text_in pool.now w n) (text_in pool.now v m) }
{
    if n != m {
        return false;
    }
    same_whole(pool, w, v, n)
}

// Whether two texts have the same bytes. Where a text runs past the pool's end it is what the pool has of it.
pub fn same_text(pool: &[u64], w: usize, n: usize, v: usize, m: usize) -> bool
    ensures compared { result ≡ same (text_in pool.now w n) (text_in pool.now v m) }
{
    let s = held(pool, w, n);
    same_held(pool, w, s, v, held(pool, v, m))
}
