// Places: a `field` holds a place, so that its reader calls the place reader back; the nesting left falls.
ghost use Rattle.form_reader.specs.FormParts.{Ready, BehindBracket, ReadsIt, ReadsField, ReadsPlace};

use crate::opening::{begin_form, close_form};
use crate::operands::{read_index, read_text};
use crate::words::place_code;
use forms::Row;
use reading::{Cursor, Refusal};
use tokens::expect::misplaced;

// Reads an `it` behind its word and puts its row, the one before c; its bracket stands at a place.
fn read_it(
    text: &[u8],
    forms: &mut [u64],
    pool: &mut [u64],
    values: usize,
    bound: usize,
    place: usize,
    c: Cursor,
) -> Result<Cursor, Refusal>
    requires { BehindBracket text.now forms.old pool.old values bound place c }
    ensures read { ReadsIt values bound text.now forms.old pool.old forms.new
        pool.new place c result }
{
    let slot = read_index(text, bound, c)?;
    let to = close_form(text, slot.to)?;
    let row = Row {
        code: forms::IT,
        operand: 0,
        place,
        size: 3,
        payload: slot.value,
        name: 0,
    };
    forms::put_row(forms, 3 * (c.begun - 1), row);
    Ok(to)
}

// Reads a `field` behind its word and puts its row, with so much nesting left inside it.
#[cycle(read_field_read_place)]
fn read_field(
    text: &[u8],
    forms: &mut [u64],
    pool: &mut [u64],
    values: usize,
    left: usize,
    bound: usize,
    place: usize,
    c: Cursor,
) -> Result<Cursor, Refusal>
    requires { BehindBracket text.now forms.old pool.old values bound place c }
    ensures read { ReadsField left values bound text.now forms.old pool.old forms.new
        pool.new place c result }
{
    let name = read_text(text, pool, c)?;
    let behind = read_place(text, forms, pool, values, left, bound, name.to)?;
    let to = close_form(text, behind)?;
    let at = 3 * (c.begun - 1);
    let row = Row {
        code: forms::FIELD,
        operand: 0,
        place,
        size: 3 * to.begun - at,
        payload: name.value,
        name: 0,
    };
    forms::put_row(forms, at, row);
    Ok(to)
}

// Both tables, the limits and the bindings stay parameters: a struct that lends two tables is no plainer in the contracts.

// Reads a place that must begin at c, with so much nesting left and so many bindings, and puts its rows.
#[cycle(read_field_read_place)]
pub fn read_place(
    text: &[u8],
    forms: &mut [u64],
    pool: &mut [u64],
    values: usize,
    left: usize,
    bound: usize,
    c: Cursor,
) -> Result<Cursor, Refusal>
    requires { Ready text.now forms.old pool.old values bound c }
    ensures read { ReadsPlace left values bound text.now forms.old pool.old forms.new
        pool.new c result }
{
    let form = begin_form(text, values, left, c)?;
    let code = place_code(text, form.word).ok_or(misplaced(form.word.place))?;
    let inner = Cursor {
        at: form.word.end,
        begun: c.begun + 1,
        ..c
    };
    if code == forms::IT {
        return read_it(text, forms, pool, values, bound, form.place, inner);
    }
    read_field(
        text,
        forms,
        pool,
        values,
        left - 1,
        bound,
        form.place,
        inner,
    )
}
