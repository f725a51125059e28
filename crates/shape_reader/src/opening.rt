// How a shape begins: its bracket, the word `shape` and its kinds.
ghost use Rattle.std.specs.Prelude.{◌≡◌, true, ◌≤◌, length};
ghost use Rattle.definitions.specs.Bytes.{Bytes};
ghost use Rattle.tokens.specs.WordValues.{word_value, fits};
ghost use Rattle.shape_reader.specs.ShapeParts.{shape_bytes, member_bytes, Expects, BeginsShape, OpensForm};

use crate::kinds::{Kinds, read_kinds};
use reading::{Cause, Cursor, Refusal};
use tokens::expect::misplaced;

// Reads a word that must come, by its number, and answers where it ends. It is rarely needed, and stays a call: put into its callers its
// loops slow down those that pass white space there.
#[inline(never)]
fn expect(text: &[u8], at: usize, word: u64) -> Result<usize, Refusal>
    requires { at ≤ length text.now }
    ensures read { (w : Bytes) → fits 7 w ≡ true → word ≡ word_value w → Expects text.now at w result }
{
    let next = tokens::expect::next_word(text, at)?;
    if tokens::word_value(text, next.place, next.end) == word {
        Ok(next.end)
    } else {
        Err(misplaced(next.place))
    }
}

// Reads the word `shape`. It stands apart from `member_word`, since one function of both would take the four numbers of each, which is no
// plainer.
fn shape_word(text: &[u8], at: usize) -> Result<usize, Refusal>
    requires { at ≤ length text.now }
    ensures read { Expects text.now at shape_bytes result }
{
    if tokens::standing::stands(text, at, 0x6570616873, 0x10000000000, 5) {
        return Ok(at + 5);
    }
    expect(text, at, 0x736861706505)
}

// Reads the word `member`.
#[inline(always)]
pub fn member_word(text: &[u8], at: usize) -> Result<usize, Refusal>
    requires { at ≤ length text.now }
    ensures read { Expects text.now at member_bytes result }
{
    if tokens::standing::stands(text, at, 0x7265626D656D, 0x1000000000000, 6) {
        return Ok(at + 6);
    }
    expect(text, at, 0x6D656D62657206)
}

// Reads the bracket and the word of a shape, and answers where the word ends.
fn begin(text: &[u8], values: usize, left: usize, c: Cursor) -> Result<usize, Refusal>
    requires { c.at ≤ length text.now }
    ensures read { BeginsShape text.now values left c result }
{
    let place = tokens::expect::next_opening(text, c.at)?;
    if tokens::expect::is_full(values, left, c.begun) {
        return Err(Refusal {
            cause: Cause::FormLimit,
            place,
        });
    }
    shape_word(text, place + 1)
}

// Reads a shape up to its kinds.
pub fn open_form(text: &[u8], values: usize, left: usize, c: Cursor) -> Result<Kinds, Refusal>
    requires { c.at ≤ length text.now }
    ensures read { OpensForm text.now values left c result }
{
    let at = begin(text, values, left, c)?;
    read_kinds(text, at)
}
