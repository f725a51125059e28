// What stands between a form's word and its parts: an index, a name, a test, a number or a text.
ghost use Rattle.std.specs.Prelude.{◌≤◌, ◌<◌, length};
ghost use Rattle.tokens.specs.TokenRead.{word_in};
ghost use Rattle.tokens.specs.Expecting.{TextPlaced};
ghost use Rattle.form_reader.specs.FormParts.{SlotAnswer, ReadsIndex, ReadsText, ReadsTest, ReadsNumber, ReadsOperand};

use crate::words::test_code;
use number::word::read_word;
use reading::{Cursor, Refusal};
use tokens::expect;
use tokens::expect::{Span, misplaced};

// The slot of the binding that a word reaches, where there are so many.
fn slot_of(text: &[u8], word: Span, bound: usize) -> Option<u64>
    requires { (word.place < word.end) × (word.end ≤ length text.now) }
    ensures told { SlotAnswer bound (word_in text.now word.place word.end) result }
{
    if text[word.place] == b'-' {
        return None;
    }
    let n = read_word(&text[word.place..word.end])?;
    if n.scale != 0 {
        return None;
    }
    if n.coefficient < bound as u64 {
        Some(bound as u64 - 1 - n.coefficient)
    } else {
        None
    }
}

// The payload of a row, and the cursor behind what it was read from.
#[derive(Clone, Copy)]
pub struct Payload {
    pub value: u64,
    pub to: Cursor,
}

// Reads N of `it`, where there are so many bindings: the slot of its binding.
pub fn read_index(text: &[u8], bound: usize, c: Cursor) -> Result<Payload, Refusal>
    requires { c.at ≤ length text.now }
    ensures read { ReadsIndex text.now bound c result }
{
    let word = expect::next_word(text, c.at)?;
    let value = slot_of(text, word, bound).ok_or(misplaced(word.place))?;
    Ok(Payload {
        value,
        to: Cursor { at: word.end, ..c },
    })
}

// Reads a text into the pool: where it stands there. It stays a call, so that no level of a reader takes stack for it.
#[inline(never)]
pub fn read_text(text: &[u8], pool: &mut [u64], c: Cursor) -> Result<Payload, Refusal>
    requires { TextPlaced text.now pool.old c.at c.top }
    ensures read { ReadsText text.now pool.old pool.new c result }
{
    let quoted = expect::next_text(text, c.at, pool, c.top)?;
    let to = Cursor {
        at: quoted.end,
        top: c.top + (quoted.bytes + 7) / 8,
        ..c
    };
    Ok(Payload {
        value: nodes::text_reference(c.top, quoted.bytes),
        to,
    })
}

// The operand and the payload of a result's row, and the cursor behind what they were read from.
#[derive(Clone, Copy)]
pub struct Operand {
    pub operand: u64,
    pub payload: u64,
    pub to: Cursor,
}

// Reads K of `when`.
fn read_test(text: &[u8], c: Cursor) -> Result<Operand, Refusal>
    requires { c.at ≤ length text.now }
    ensures read { ReadsTest text.now c result }
{
    let word = expect::next_word(text, c.at)?;
    let operand = test_code(text, word).ok_or(misplaced(word.place))?;
    Ok(Operand {
        operand,
        payload: 0,
        to: Cursor { at: word.end, ..c },
    })
}

// Reads N of `num`.
fn read_number(text: &[u8], c: Cursor) -> Result<Operand, Refusal>
    requires { c.at ≤ length text.now }
    ensures read { ReadsNumber text.now c result }
{
    let word = expect::next_word(text, c.at)?;
    let n = read_word(&text[word.place..word.end]).ok_or(misplaced(word.place))?;
    let operand = nodes::number_bits(n.negative, n.scale);
    Ok(Operand {
        operand,
        payload: n.coefficient,
        to: Cursor { at: word.end, ..c },
    })
}

// Reads what stands behind the word of a result of this code, before its place or its results.
pub fn read_operand(text: &[u8], pool: &mut [u64], code: u64, c: Cursor) -> Result<Operand, Refusal>
    requires { TextPlaced text.now pool.old c.at c.top }
    ensures read { ReadsOperand text.now pool.old pool.new code c result }
{
    match code {
        forms::WHEN => read_test(text, c),
        forms::NUM => read_number(text, c),
        forms::STR => {
            let said = read_text(text, pool, c)?;
            Ok(Operand {
                operand: 0,
                payload: said.value,
                to: said.to,
            })
        }
        _ => Ok(Operand {
            operand: 0,
            payload: 0,
            to: c,
        }),
    }
}
