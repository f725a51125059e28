// The members of a shape: what comes behind its kinds and its element, and behind each member's shape.
ghost use Rattle.std.specs.Prelude.{◌≡◌, ◌≤◌, ◌<◌, length, take};
ghost use Rattle.definitions.specs.Shape.{Fields};
ghost use Rattle.definitions.specs.ShapeText.{name_fits};
ghost use Rattle.pool.specs.Pool.{text_in};
ghost use Rattle.tokens.specs.Expecting.{TextPlaced};
ghost use Rattle.shape_reader.specs.ShapeParts.{Latest, ReadsName, NamesMember, Turns, ClosesMember};

use crate::opening::member_word;
use reading::{Cursor, Refusal};
use shapes::Shape;
use tokens::expect::{Bracket, Quoted, misplaced};

// Whether the name of n bytes at word w stands behind that of the latest member, if there is one.
#[tactic(auto, using(crate::proofs::MemberReading::first_fits))]
fn ascends(pool: &[u64], latest: Option<u64>, w: usize, n: usize) -> bool
    requires { (w ≤ length pool.now) × (w < 65536) }
    ensures told { (fs : Fields) → Latest (take w pool.now) fs latest → result ≡ name_fits fs (text_in pool.now w n) }
{
    match latest {
        None => true,
        Some(name) => pool::compare(
            pool,
            nodes::text_word(name),
            nodes::text_bytes(name),
            w,
            n,
        ).is_lt(),
    }
}

// Reads the word `member` and a name, which goes into the pool.
#[inline(always)]
fn read_name(text: &[u8], pool: &mut [u64], at: usize, top: usize) -> Result<Quoted, Refusal>
    requires { TextPlaced text.now pool.old at top }
    ensures read { ReadsName text.now pool.old pool.new at top result }
{
    let behind = member_word(text, at)?;
    tokens::expect::next_text(text, behind, pool, top)
}

// What comes next: a member's shape at a place, under a name; or the end of the shape.
#[derive(Clone, Copy)]
pub enum Turn {
    More { from: Cursor, name: u64 },
    End { to: Cursor },
}

// Goes on behind the opening bracket of a member, which stands before place `at`.
#[inline(always)]
fn member_shape(
    text: &[u8],
    pool: &mut [u64],
    latest: Option<u64>,
    at: usize,
    c: Cursor,
) -> Result<Turn, Refusal>
    requires { TextPlaced text.now pool.old at c.top × (c.at < at) }
    ensures read { NamesMember latest text.now pool.old pool.new at c result }
{
    let read = read_name(text, pool, at, c.top)?;
    if !ascends(pool, latest, c.top, read.bytes) {
        return Err(misplaced(read.place));
    }
    let from = Cursor {
        at: read.end,
        top: c.top + (read.bytes + 7) / 8,
        ..c
    };
    let name = nodes::text_reference(c.top, read.bytes);
    Ok(Turn::More { from, name })
}

// Goes on where a member or the bracket that ends the shape must come, behind a member of the name `latest` or the first one.
#[inline(always)]
pub fn next_member(
    text: &[u8],
    pool: &mut [u64],
    kinds: Shape,
    latest: Option<u64>,
    c: Cursor,
) -> Result<Turn, Refusal>
    requires { TextPlaced text.now pool.old c.at c.top }
    ensures read { Turns latest text.now pool.old pool.new kinds.kinds c result }
{
    match tokens::expect::next_bracket(text, c.at)? {
        Bracket::Opening { place } => {
            if kinds.has(Shape::REC) {
                member_shape(text, pool, latest, place + 1, c)
            } else {
                Err(misplaced(place))
            }
        }
        Bracket::Closing { place } => {
            let to = Cursor { at: place + 1, ..c };
            Ok(Turn::End { to })
        }
    }
}

// Reads the bracket that ends a member, behind its shape.
pub fn close_member(text: &[u8], c: Cursor) -> Result<Cursor, Refusal>
    requires { c.at ≤ length text.now }
    ensures read { ClosesMember text.now c result }
{
    let place = tokens::expect::next_closing(text, c.at)?;
    Ok(Cursor { at: place + 1, ..c })
}
