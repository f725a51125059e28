// What stands between the quotes of a text, written and measured as plain JSON has it: eight bytes at a time where they are written as they are.
ghost use Rattle.std.specs.Prelude.{◌≡◌, ◌+◌, ◌^◌, ◌≤◌, ◌<◌, length, take};
ghost use Rattle.definitions.specs.Plain.{escaped_all};
ghost use Rattle.pool.specs.Pool.{unpacked, words, text_in};
ghost use Rattle.text.specs.Writes.{Writes};

use super::bare::{is_bare, starts_bare};
use super::escape::{cost, write_byte};
use super::store::{store, store_front};

// How long the first n bytes of a word are in plain JSON.
fn word_length(word: u64, n: usize) -> usize
    requires { (n ≤ 8) × (length (escaped_all (take n (unpacked word))) < 2 ^ 64) }
    ensures counted { result ≡ length (escaped_all (take n (unpacked word))) }
{
    let mut written: usize = 0;
    for &b in &word.to_be_bytes()[..n] {
        written += cost(b);
    }
    written
}

// How long all eight are.
pub fn whole_length(x: u64) -> usize
    requires { length (escaped_all (unpacked x)) < 2 ^ 64 }
    ensures counted { result ≡ length (escaped_all (unpacked x)) }
{
    if is_bare(x) {
        return 8;
    }
    word_length(x, 8)
}

// How long the first n are, which do not fill the word.
pub fn front_length(x: u64, n: usize) -> usize
    requires { (n ≤ 7) × (length (escaped_all (take n (unpacked x))) < 2 ^ 64) }
    ensures counted { result ≡ length (escaped_all (take n (unpacked x))) }
{
    if starts_bare(x, n) {
        return n;
    }
    word_length(x, n)
}

// Writes the first n bytes of a word as plain JSON has them, and answers the place behind them.
fn write_word(out: &mut [u8], at: usize, word: u64, n: usize) -> usize
    requires { (n ≤ 8) × (at + length (escaped_all (take n (unpacked word))) ≤ length out.old) }
    ensures written { Writes out.old out.new at (escaped_all (take n (unpacked word))) result }
{
    let mut j = at;
    for &b in &word.to_be_bytes()[..n] {
        j = write_byte(out, j, b);
    }
    j
}

// Writes all eight.
fn write_whole(out: &mut [u8], at: usize, x: u64) -> usize
    requires { at + length (escaped_all (unpacked x)) ≤ length out.old }
    ensures written { Writes out.old out.new at (escaped_all (unpacked x)) result }
{
    if is_bare(x) {
        return store::<8>(out, at, x);
    }
    write_word(out, at, x, 8)
}

// Writes the bytes of a text word by word, as behind its first escape.
fn write_mixed(out: &mut [u8], at: usize, pool: &[u64], w: usize, n: usize) -> usize
    requires { (w + words n ≤ length pool.now) × (at + length (escaped_all (text_in pool.now w n)) ≤ length out.old) }
    ensures written { Writes out.old out.new at (escaped_all (text_in pool.now w n)) result }
{
    let mut j = at;
    let full = w + n / 8;
    for &x in &pool[w..full] {
        j = write_whole(out, j, x);
    }
    let left = n % 8;
    if left == 0 {
        return j;
    }
    write_word(out, j, pool[full], left)
}

// Writes the last bytes of a text, which do not fill a word.
fn write_end(out: &mut [u8], at: usize, pool: &[u64], w: usize, n: usize) -> usize
    requires { (n ≤ 7) × (w + words n ≤ length pool.now) × (at + length (escaped_all (text_in pool.now w n)) ≤ length out.old) }
    ensures written { Writes out.old out.new at (escaped_all (text_in pool.now w n)) result }
{
    if n == 0 {
        return at;
    }
    let x = pool[w];
    if starts_bare(x, n) {
        return store_front(out, at, x, n);
    }
    write_mixed(out, at, pool, w, n)
}

// Writes the bytes of a text: most have no escape, so that the loop is short.
pub fn write_inside(out: &mut [u8], at: usize, pool: &[u64], w: usize, n: usize) -> usize
    requires { (w + words n ≤ length pool.now) × (at + length (escaped_all (text_in pool.now w n)) ≤ length out.old) }
    ensures written { Writes out.old out.new at (escaped_all (text_in pool.now w n)) result }
{
    let mut j = at;
    let mut k = w;
    let mut left = n;
    // tuned, eight bytes at a time: the loop stays by hand
    while 8 <= left {
        let x = pool[k];
        if !is_bare(x) {
            return write_mixed(out, j, pool, k, left);
        }
        j = store::<8>(out, j, x);
        k += 1;
        left -= 8;
    }
    write_end(out, j, pool, k, left)
}
