// Reader texts, read into a forms table: one row a form, in preorder, its names and texts in a pool.
#![tactic(auto)]

ghost use Rattle.std.specs.Prelude.{◌≤◌, ◌<◌, length};
ghost use Rattle.form_reader.specs.FormReads.{Tables, HasToken, EndsForms, ReadsReader, ReadsLonePlace};

mod heads; // what a result begins with
mod opening; // the brackets of a form
mod operands; // what stands between a form's word and its parts
mod parts; // the results inside a result
mod places;
mod results;
mod words; // the words of places, results and tests

use definitions::Limits;
use forms::Row;
use reading::{Cursor, Extent, Refusal};
use tokens::expect;

// Ends the reading of a text of forms, which have been read up to a cursor: no token may stand behind them.
fn end_forms(text: &[u8], to: Cursor) -> Result<Extent, Refusal>
    requires { (to.at ≤ length text.now) × (to.begun ≤ 32768) }
    ensures read { EndsForms text.now to result }
{
    expect::next_end(text, to.at)?;
    Ok(Extent {
        words: 3 * to.begun,
        top: to.top,
    })
}

// Reads a reader of one form. Its rows go into the forms table, its names and texts into the pool from word `top` on.
fn read_form(
    text: &[u8],
    forms: &mut [u64],
    pool: &mut [u64],
    top: usize,
    limits: Limits,
) -> Result<Extent, Refusal>
    requires tables { Tables text.now forms.old pool.old top limits.values }
    requires begun { HasToken text.now }
    ensures read { ReadsReader limits text.now forms.old pool.old forms.new pool.new top result }
{
    let start = Cursor {
        at: 0,
        begun: 0,
        top,
    };
    let to = results::read_result(
        text,
        forms,
        pool,
        limits.values,
        limits.nesting,
        1,
        start,
        0,
    )?;
    end_forms(text, to)
}

// Reads a reader, in the same way. A text with no token is read as `(none)` at place 0, in a row of its own.
pub fn read_reader(
    text: &[u8],
    forms: &mut [u64],
    pool: &mut [u64],
    top: usize,
    limits: Limits,
) -> Result<Extent, Refusal>
    requires tables { Tables text.now forms.old pool.old top limits.values }
    requires one { 0 < limits.values }
    ensures read { ReadsReader limits text.now forms.old pool.old forms.new pool.new top result }
{
    match expect::next_end(text, 0) {
        Ok(()) => {
            let none = Row {
                code: forms::NONE,
                operand: 0,
                place: 0,
                size: 3,
                payload: 0,
                name: 0,
            };
            forms::put_row(forms, 0, none);
            Ok(Extent { words: 3, top })
        }
        Err(_) => read_form(text, forms, pool, top, limits),
    }
}

// Reads a place that stands alone, in the same way.
pub fn read_place(
    text: &[u8],
    forms: &mut [u64],
    pool: &mut [u64],
    top: usize,
    limits: Limits,
) -> Result<Extent, Refusal>
    requires { Tables text.now forms.old pool.old top limits.values }
    ensures read { ReadsLonePlace limits text.now forms.old pool.old forms.new pool.new top result }
{
    let start = Cursor {
        at: 0,
        begun: 0,
        top,
    };
    let to = places::read_place(text, forms, pool, limits.values, limits.nesting, 1, start)?;
    end_forms(text, to)
}
