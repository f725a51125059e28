// JSON texts (RFC 8259 section 7): read from a document, decoded into the pool, and written from the pool as plain JSON.
#![tactic(auto)]

ghost use Rattle.std.specs.Prelude.{◌≡◌, ◌+◌, ◌-◌, ◌^◌, ◌≤◌, ◌<◌, length};
ghost use Rattle.definitions.specs.Plain.{plain_text};
ghost use Rattle.pool.specs.Pool.{words, text_in};
ghost use Rattle.text.specs.TextRead.{ReadsText};
ghost use Rattle.text.specs.TextParts.{Reading};
ghost use Rattle.text.specs.Writes.{Writes};

mod unicode; // escapes by hexadecimal digits
mod wide; // characters of several bytes
mod pieces; // what stands in a text, put into the pool piece by piece
mod escape; // a byte as plain JSON has it
mod eight; // eight bytes at a time
mod store; // bytes of a word, stored
mod bare; // words that are written as they are
mod write; // what stands between the quotes, written and measured

// A text that was read: the place behind its closing quote, how many bytes it decodes to, and how long it is in plain JSON.
#[derive(Clone, Copy)]
pub struct Decoded {
    pub end: usize,
    pub length: usize,
    pub written: usize,
}

// Reads on from a place up to which all bytes behind place at are plain ASCII, and in the pool from word w on.
fn read_rest(
    doc: &[u8],
    at: usize,
    from: usize,
    pool: &mut [u64],
    w: usize,
) -> Result<Decoded, usize>
    requires { Reading doc.now at pool.old w from (from - at) (from - at + 2) pool.old × (w + words (length doc.now - at) ≤ length pool.old) }
    ensures read { ReadsText doc.now at pool.old pool.new w result }
{
    let mut i = from;
    let mut n = from - at;
    let mut written = n + 2;
    while i < doc.len() {
        if doc[i] == b'"' {
            return Ok(Decoded {
                end: i + 1,
                length: n,
                written,
            });
        }
        let piece = pieces::read_piece(doc, i, pool, w, n)?;
        i = eight::put_run(doc, piece.next, pool, w, piece.length);
        n = piece.length + (i - piece.next);
        written += piece.cost + (i - piece.next);
    }
    Err(i)
}

// Reads a text from behind its opening quote; what it decodes to goes into the pool from word w on. An error is the place at which no text goes on.
// Left to itself the compiler keeps it a call, which takes a fifth of the instructions for a short text.
#[inline(always)]
pub fn read_text(doc: &[u8], at: usize, pool: &mut [u64], w: usize) -> Result<Decoded, usize>
    requires { (at ≤ length doc.now) × (w + words (length doc.now - at) ≤ length pool.old) }
    ensures read { ReadsText doc.now at pool.old pool.new w result }
{
    let i = eight::put_standing(doc, at, pool, w);
    if i < doc.len() {
        // most texts close behind their plain bytes
        if doc[i] == b'"' {
            return Ok(Decoded {
                end: i + 1,
                length: i - at,
                written: i - at + 2,
            });
        }
        // called at two places, so that the compiler keeps it a call
        return read_rest(doc, at, i, pool, w);
    }
    read_rest(doc, at, i, pool, w)
}

// How long a text of the pool is in plain JSON.
pub fn text_length(pool: &[u64], w: usize, n: usize) -> usize
    requires { (w + words n ≤ length pool.now) × (length (plain_text (text_in pool.now w n)) < 2 ^ 64) }
    ensures counted { result ≡ length (plain_text (text_in pool.now w n)) }
{
    let mut written: usize = 2;
    let full = w + n / 8;
    for &x in &pool[w..full] {
        written += write::whole_length(x);
    }
    let left = n % 8;
    if left == 0 {
        return written;
    }
    written + write::front_length(pool[full], left)
}

// Writes a text of the pool as plain JSON, and answers the place behind it.
pub fn write_text(out: &mut [u8], at: usize, pool: &[u64], w: usize, n: usize) -> usize
    requires { (w + words n ≤ length pool.now) × (at + length (plain_text (text_in pool.now w n)) ≤ length out.old) }
    ensures written { Writes out.old out.new at (plain_text (text_in pool.now w n)) result }
{
    out[at] = b'"';
    let j = write::write_inside(out, at + 1, pool, w, n);
    out[j] = b'"';
    j + 1
}
