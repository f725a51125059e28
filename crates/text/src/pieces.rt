// What stands in a text, piece by piece: a plain ASCII byte, an escape, a character of several bytes; put into the pool.
ghost use Rattle.std.specs.Prelude.{◌≡◌, false, ◌+◌, ◌-◌, ◌≤◌, ◌<◌, length, get_or};
ghost use Rattle.definitions.specs.Bytes.{between, look};
ghost use Rattle.definitions.specs.Text.{escape_table};
ghost use Rattle.definitions.specs.Utf8.{encode};
ghost use Rattle.definitions.specs.Plain.{escaped_all};
ghost use Rattle.pool.specs.Pool.{words};
ghost use Rattle.text.specs.TextParts.{escape_as, Puts, ReadsPiece, Room};

use super::eight::put_part;
use super::escape::{cost, is_plain_ascii};
use super::unicode::{encoded, encoded_length, peek, read_unicode};
use super::wide::{past_wides, wide_end};

// A piece of a text: the place behind it, the bytes that the text has with it, and what it adds to plain JSON.
#[derive(Clone, Copy)]
pub struct Piece {
    pub next: usize,
    pub length: usize,
    pub cost: usize,
}

// Puts bytes behind the n bytes at word w.
fn put_bytes(bytes: &[u8], pool: &mut [u64], w: usize, n: usize)
    requires { w + words (n + length bytes.now) ≤ length pool.old }
    ensures put { Puts pool.old pool.new w n bytes.now }
{
    for (i, &b) in bytes.iter().enumerate() {
        pool::put_byte(pool, 8 * w + n + i, b);
    }
}

// A character of several bytes, byte by byte.
fn read_wide(doc: &[u8], i: usize, pool: &mut [u64], w: usize, n: usize) -> Result<Piece, usize>
    requires { Room doc.now i pool.old w n × (between 0x20 0x7F (get_or doc.now i 0) ≡ false) }
    ensures read { ReadsPiece doc.now i pool.old pool.new w n result }
{
    let next = wide_end(doc, i)?;
    put_bytes(&doc[i..next], pool, w, n);
    Ok(Piece {
        next,
        length: n + (next - i),
        cost: next - i,
    })
}

// Characters of several bytes: as many as the word there has whole. Where it has none, or the document's last seven bytes stand there, one.
fn read_wides(doc: &[u8], i: usize, pool: &mut [u64], w: usize, n: usize) -> Result<Piece, usize>
    requires { Room doc.now i pool.old w n × (between 0x20 0x7F (get_or doc.now i 0) ≡ false) }
    ensures read { ReadsPiece doc.now i pool.old pool.new w n result }
{
    if doc.len() - i < 8 {
        return read_wide(doc, i, pool, w, n);
    }
    let x = pool::word_at(doc, i);
    let m = past_wides(x, 0);
    if m == 0 {
        return read_wide(doc, i, pool, w, n);
    }
    put_part(pool, w, n, pool::front(x, m), m);
    Ok(Piece {
        next: i + m,
        length: n + m,
        cost: m,
    })
}

// What an escape means: a byte, or for `u` the character whose digits follow.
#[derive(Clone, Copy)]
enum Escape {
    Byte(u8),
    Digits,
}

// What the byte behind a backslash makes of it.
fn escape_of(b: usize) -> Option<Escape>
    ensures told { escape_as result ≡ look escape_table b }
{
    match b {
        0x22 => Some(Escape::Byte(0x22)),
        0x5C => Some(Escape::Byte(0x5C)),
        0x2F => Some(Escape::Byte(0x2F)),
        0x62 => Some(Escape::Byte(0x08)),
        0x66 => Some(Escape::Byte(0x0C)),
        0x6E => Some(Escape::Byte(0x0A)),
        0x72 => Some(Escape::Byte(0x0D)),
        0x74 => Some(Escape::Byte(0x09)),
        0x75 => Some(Escape::Digits),
        _ => None,
    }
}

// What the bytes of a character add to plain JSON.
fn character_cost(c: usize) -> usize
    ensures counted { result ≡ length (escaped_all (encode c)) }
{
    if c < 0x80 {
        cost(c as u8)
    } else {
        encoded_length(c)
    }
}

// A character by its number, or a pair of surrogates, from the backslash of `\u` on.
fn read_named(doc: &[u8], i: usize, pool: &mut [u64], w: usize, n: usize) -> Result<Piece, usize>
    requires { Room doc.now i pool.old w n × (get_or doc.now i 0 ≡ 0x5C) × (get_or doc.now (i + 1) 256 ≡ 0x75) }
    ensures read { ReadsPiece doc.now i pool.old pool.new w n result }
{
    let code = read_unicode(doc, i + 2)?;
    let k = encoded_length(code.value);
    let bytes = encoded(code.value);
    put_bytes(&bytes[..k], pool, w, n);
    Ok(Piece {
        next: code.next,
        length: n + k,
        cost: character_cost(code.value),
    })
}

// An escape, from its backslash on.
fn read_escape(doc: &[u8], i: usize, pool: &mut [u64], w: usize, n: usize) -> Result<Piece, usize>
    requires { Room doc.now i pool.old w n × (get_or doc.now i 0 ≡ 0x5C) }
    ensures read { ReadsPiece doc.now i pool.old pool.new w n result }
{
    match escape_of(peek(doc, i + 1)) {
        Some(Escape::Byte(b)) => {
            pool::put_byte(pool, 8 * w + n, b);
            Ok(Piece {
                next: i + 2,
                length: n + 1,
                cost: cost(b),
            })
        }
        Some(Escape::Digits) => read_named(doc, i, pool, w, n),
        None => Err(i + 1),
    }
}

// What stands at place i, where the closing quote does not.
pub fn read_piece(
    doc: &[u8],
    i: usize,
    pool: &mut [u64],
    w: usize,
    n: usize,
) -> Result<Piece, usize>
    requires { Room doc.now i pool.old w n × (get_or doc.now i 0 ≡ 0x22 → ⊥) }
    ensures read { ReadsPiece doc.now i pool.old pool.new w n result }
{
    let b = doc[i];
    if b == 0x5C {
        return read_escape(doc, i, pool, w, n);
    }
    if is_plain_ascii(b) {
        pool::put_byte(pool, 8 * w + n, b);
        return Ok(Piece {
            next: i + 1,
            length: n + 1,
            cost: 1,
        });
    }
    read_wides(doc, i, pool, w, n)
}
