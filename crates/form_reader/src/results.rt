// Results: each calls the reader of its parts, which calls the result reader back; the nesting left falls.
ghost use Rattle.std.specs.Prelude.{◌≡◌};
ghost use Rattle.form_reader.specs.FormLeads.{Lead, lead_code};
ghost use Rattle.form_reader.specs.FormParts.{Ready, PartsReady, ReadsParts, ReadsResult};

use crate::heads::read_lead;
use crate::parts::{Turn, inner_bound, next_part, parts_of};
use forms::Row;
use reading::{Cursor, Refusal};

// Reads the results of a result of this code and its closing bracket, with so much nesting left inside it.
#[cycle(read_parts_read_result)]
fn read_parts(
    text: &[u8],
    forms: &mut [u64],
    pool: &mut [u64],
    values: usize,
    left: usize,
    bound: usize,
    code: u64,
    c: Cursor,
) -> Result<Cursor, Refusal>
    requires { PartsReady text.now forms.old pool.old values bound code c }
    ensures read { (lead : Lead) → lead_code lead ≡ code
        → ReadsParts lead left values bound text.now forms.old pool.old forms.new pool.new c result }
{
    let inner = inner_bound(code, bound);
    let first = c.begun;
    let mut more = parts_of(code);
    let mut to = c;
    loop {
        let turn = next_part(text, forms, pool, code, more, first, to)?;
        match turn {
            Turn::More {
                from,
                name,
                more: others,
            } => {
                to = read_result(text, forms, pool, values, left, inner, from, name)?;
                more = others;
            }
            Turn::End { to: end } => {
                return Ok(end);
            }
        }
    }
}

// Reads a result that must begin at c, with so much nesting left and so many bindings, and puts its row under this name.
#[cycle(read_parts_read_result)]
pub fn read_result(
    text: &[u8],
    forms: &mut [u64],
    pool: &mut [u64],
    values: usize,
    left: usize,
    bound: usize,
    c: Cursor,
    name: u64,
) -> Result<Cursor, Refusal>
    requires { Ready text.now forms.old pool.old values bound c }
    ensures read { ReadsResult left values bound text.now forms.old pool.old forms.new
        pool.new name c result }
{
    let head = read_lead(text, forms, pool, values, left, bound, c)?;
    let to = read_parts(
        text,
        forms,
        pool,
        values,
        left - 1,
        bound,
        head.row.code,
        head.to,
    )?;
    let size = 3 * (to.begun - c.begun);
    forms::put_row(
        forms,
        3 * c.begun,
        Row {
            size,
            name,
            ..head.row
        },
    );
    Ok(to)
}
