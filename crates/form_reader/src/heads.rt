// What a result begins with: its bracket, its word, its operand and its place.
ghost use Rattle.std.specs.Prelude.{◌≤◌, length};
ghost use Rattle.tokens.specs.Expecting.{TextPlaced};
ghost use Rattle.form_reader.specs.FormParts.{Ready, BeginsResult, ReadsHead, ReadsLead};

use crate::opening::begin_form;
use crate::operands::read_operand;
use crate::places::read_place;
use crate::words::result_code;
use forms::Row;
use reading::{Cursor, Refusal};
use tokens::expect::misplaced;

// A result of this code, whose bracket stands at a place, up to its word.
#[derive(Clone, Copy)]
pub struct Worded {
    pub code: u64,
    pub place: usize,
    pub to: Cursor,
}

// Reads the bracket and the word of a result.
fn begin_result(text: &[u8], values: usize, left: usize, c: Cursor) -> Result<Worded, Refusal>
    requires { c.at ≤ length text.now }
    ensures read { BeginsResult text.now values left c result }
{
    let form = begin_form(text, values, left, c)?;
    let code = result_code(text, form.word).ok_or(misplaced(form.word.place))?;
    let to = Cursor {
        at: form.word.end,
        begun: c.begun + 1,
        ..c
    };
    Ok(Worded {
        code,
        place: form.place,
        to,
    })
}

// A result's row, but for its size and its name, and how far it has been read.
#[derive(Clone, Copy)]
pub struct Headed {
    pub row: Row,
    pub to: Cursor,
}

// Reads a result up to its place or its results.
fn read_head(
    text: &[u8],
    pool: &mut [u64],
    values: usize,
    left: usize,
    c: Cursor,
) -> Result<Headed, Refusal>
    requires { TextPlaced text.now pool.old c.at c.top }
    ensures read { ReadsHead text.now pool.old pool.new values left c result }
{
    let word = begin_result(text, values, left, c)?;
    let behind = read_operand(text, pool, word.code, word.to)?;
    let row = Row {
        code: word.code,
        operand: behind.operand,
        place: word.place,
        size: 0,
        payload: behind.payload,
        name: 0,
    };
    Ok(Headed { row, to: behind.to })
}

// Reads a result up to its results, and puts the rows of its place behind its own.
pub fn read_lead(
    text: &[u8],
    forms: &mut [u64],
    pool: &mut [u64],
    values: usize,
    left: usize,
    bound: usize,
    c: Cursor,
) -> Result<Headed, Refusal>
    requires { Ready text.now forms.old pool.old values bound c }
    ensures read { ReadsLead left values bound text.now forms.old pool.old forms.new
        pool.new c result }
{
    let head = read_head(text, pool, values, left, c)?;
    if head.row.code < forms::IF {
        let to = read_place(text, forms, pool, values, left - 1, bound, head.to)?;
        return Ok(Headed { to, ..head });
    }
    Ok(head)
}
