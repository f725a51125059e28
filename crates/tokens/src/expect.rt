// A token of one sort that must come, or the refusal at the place of what stands there instead.
ghost use Rattle.std.specs.Prelude.{◌≡◌, ◌+◌, ◌-◌, ◌≤◌, length};
ghost use Rattle.pool.specs.Pool.{words};
ghost use Rattle.reading.specs.declared.Cause.TheVariants as cause;
ghost use Rattle.tokens.specs.Expecting.{StandsNext, ExpectsOpening, ExpectsClosing, ExpectsBracket, ExpectsWord, ExpectsText, ExpectsEnd, JudgesFull};

use crate::{skip_space, word_end};
use reading::{Cause, Refusal};

// What no right text has at a place.
pub fn misplaced(place: usize) -> Refusal
    ensures cause { result.cause ≡ cause.FormSyntax }
    ensures place { result.place ≡ place }
{
    Refusal {
        cause: Cause::FormSyntax,
        place,
    }
}

// The byte b behind white space.
fn next_byte(text: &[u8], at: usize, b: u8) -> Result<usize, Refusal>
    requires { at ≤ length text.now }
    ensures stands { StandsNext text.now at b result }
{
    let place = skip_space(text, at);
    if text.get(place) == Some(&b) {
        Ok(place)
    } else {
        Err(misplaced(place))
    }
}

// An opening bracket.
#[tactic(auto, using(crate::proofs::Expected::next_opening))]
pub fn next_opening(text: &[u8], at: usize) -> Result<usize, Refusal>
    requires { at ≤ length text.now }
    ensures read { ExpectsOpening text.now at result }
{
    next_byte(text, at, b'(')
}

// A closing bracket.
#[tactic(auto, using(crate::proofs::Expected::next_closing))]
pub fn next_closing(text: &[u8], at: usize) -> Result<usize, Refusal>
    requires { at ≤ length text.now }
    ensures read { ExpectsClosing text.now at result }
{
    next_byte(text, at, b')')
}

#[derive(Clone, Copy)]
pub enum Bracket {
    Opening { place: usize },
    Closing { place: usize },
}

// A bracket of either sort.
pub fn next_bracket(text: &[u8], at: usize) -> Result<Bracket, Refusal>
    requires { at ≤ length text.now }
    ensures read { ExpectsBracket text.now at result }
{
    let place = skip_space(text, at);
    match text.get(place) {
        Some(b'(') => Ok(Bracket::Opening { place }),
        Some(b')') => Ok(Bracket::Closing { place }),
        _ => Err(misplaced(place)),
    }
}

// A word or number, up to an end.
#[derive(Clone, Copy)]
pub struct Span {
    pub place: usize,
    pub end: usize,
}

// A word or number.
pub fn next_word(text: &[u8], at: usize) -> Result<Span, Refusal>
    requires { at ≤ length text.now }
    ensures read { ExpectsWord text.now at result }
{
    let place = skip_space(text, at);
    let end = word_end(text, place);
    if place < end {
        Ok(Span { place, end })
    } else {
        Err(misplaced(place))
    }
}

// A JSON text up to an end, of so many bytes decoded.
#[derive(Clone, Copy)]
pub struct Quoted {
    pub place: usize,
    pub end: usize,
    pub bytes: usize,
}

// A JSON text, which is decoded into the pool from word w on. It is put into its callers, as `read_text` is.
#[inline(always)]
pub fn next_text(text: &[u8], at: usize, pool: &mut [u64], w: usize) -> Result<Quoted, Refusal>
    requires { (at ≤ length text.now) × (w + words (length text.now - at - 1) ≤ length pool.old) }
    ensures read { ExpectsText text.now at pool.old pool.new w result }
{
    let place = next_byte(text, at, b'"')?;
    match text::read_text(text, place + 1, pool, w) {
        Ok(read) => Ok(Quoted {
            place,
            end: read.end,
            bytes: read.length,
        }),
        Err(_) => Err(misplaced(place)),
    }
}

// The end of the text.
pub fn next_end(text: &[u8], at: usize) -> Result<(), Refusal>
    requires { at ≤ length text.now }
    ensures read { ExpectsEnd text.now at result }
{
    let place = skip_space(text, at);
    if place < text.len() {
        Err(misplaced(place))
    } else {
        Ok(())
    }
}

// Whether a form that begins here is one too many or too deep: refusal 8.
pub fn is_full(values: usize, left: usize, begun: usize) -> bool
    ensures judged { JudgesFull values left begun result }
{
    begun >= values || left == 0
}
