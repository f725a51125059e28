// Names of members.
ghost use Rattle.std.specs.Prelude.{◌≡◌, ◌+◌, ◌*◌, ◌≤◌, ◌<◌, length};
ghost use Rattle.reading.specs.declared.Cause.TheVariants.{JsonSyntax};
ghost use Rattle.definitions.specs.Value.{Members, has_name};
ghost use Rattle.pool.specs.Pool.{text_in};
ghost use Rattle.json_reader.specs.JsonParts.{NamedRows, Walkable, Covers, name_place, NameReady, ReadsName, ColonAnswer};

use crate::space::{peek, skip_white};
use reading::{Cause, Cursor, Refusal};

// A name that was read: where reading stands behind its colon, the word that refers to the name, how long it is in plain JSON, and the
// bits of the names seen.
#[derive(Clone, Copy)]
pub struct Name {
    pub to: Cursor,
    pub word: u64,
    pub written: usize,
    pub seen: u64,
}

// Whether one of the members whose rows stand from one word up to another has the name of n bytes at word w, which the pool has whole. It
// stays a call, so that its loop, in which a record of many names spends its time, has the registers to itself.
#[inline(never)]
fn has_name(nodes: &[u64], pool: &[u64], from: usize, to: usize, w: usize, n: usize) -> bool
    requires { Walkable nodes.now pool.now from to × (length (text_in pool.now w n) ≡ n) }
    ensures found { (ms : Members) → NamedRows nodes.now pool.now from to ms
        → result ≡ has_name (text_in pool.now w n) ms }
{
    let mut row = from;
    // by hand: each row tells where the next one begins
    while row < to {
        let name = nodes[row + 2];
        if pool::same_held(pool, w, n, nodes::text_word(name), nodes::text_bytes(name)) {
            return true;
        }
        row += nodes::row_size_in(nodes, row);
    }
    false
}

// The bit of the name of n bytes at word w, one of 64.
fn name_place(pool: &[u64], w: usize, n: usize) -> usize
    requires { (length (text_in pool.now w n) ≡ n) × (n ≤ 65536) }
    ensures placed { result ≡ name_place (text_in pool.now w n) }
{
    if n == 0 {
        return 0;
    }
    ((pool[w] >> 56) as usize + 5 * n) % 64
}

// Whether one of the members before c has the name of n bytes behind the used words. The bits of their names are among those seen, and
// the name's is this one.
fn is_taken(
    nodes: &[u64],
    pool: &[u64],
    first: usize,
    c: Cursor,
    n: usize,
    seen: u64,
    place: usize,
) -> bool
    requires rows { Walkable nodes.now pool.now (3 * first) (3 * c.begun) × (length (text_in pool.now c.top n) ≡ n) }
    requires bit { place ≡ name_place (text_in pool.now c.top n) }
    ensures found { (ms : Members) → NamedRows nodes.now pool.now (3 * first) (3 * c.begun) ms → Covers seen ms
        → result ≡ has_name (text_in pool.now c.top n) ms }
{
    if (seen >> place) % 2 == 0 {
        return false;
    }
    has_name(nodes, pool, 3 * first, 3 * c.begun, c.top, n)
}

// The refusal of a document that goes wrong here.
fn broken(place: usize) -> Refusal
    ensures { result ≡ record { cause = JsonSyntax; place = place } }
{
    Refusal {
        cause: Cause::JsonSyntax,
        place,
    }
}

// The place behind the colon that follows a name.
fn read_colon(doc: &[u8], at: usize) -> Result<usize, Refusal>
    requires { at ≤ length doc.now }
    ensures read { ColonAnswer doc.now at result }
{
    // nearly always right there
    if peek(doc, at) == 0x3A {
        return Ok(at + 1);
    }
    let i = skip_white(doc, at);
    if peek(doc, i) == 0x3A {
        Ok(i + 1)
    } else {
        Err(broken(i))
    }
}

// Reads a name and its colon, behind the members whose rows begin at the row of value `first`; their names' bits are among those seen.
pub fn read_name(
    doc: &[u8],
    nodes: &[u64],
    pool: &mut [u64],
    first: usize,
    c: Cursor,
    seen: u64,
) -> Result<Name, Refusal>
    requires { NameReady doc.now nodes.now pool.old first c }
    ensures read { ReadsName doc.now nodes.now pool.old pool.new first seen c result }
{
    let place = skip_white(doc, c.at);
    if peek(doc, place) != 0x22 {
        return Err(broken(place));
    }
    let read = text::read_text(doc, place + 1, pool, c.top).map_err(broken)?;
    let bit = name_place(pool, c.top, read.length);
    if is_taken(nodes, pool, first, c, read.length, seen, bit) {
        return Err(Refusal {
            cause: Cause::DuplicateName,
            place,
        });
    }
    let next = read_colon(doc, read.end)?;
    Ok(Name {
        to: Cursor {
            at: next,
            top: c.top + (read.length + 7) / 8,
            ..c
        },
        word: nodes::text_reference(c.top, read.length),
        written: read.written,
        seen: seen | (1 << bit),
    })
}
