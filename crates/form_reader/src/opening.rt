// The brackets of a form, and the word behind the first one.
ghost use Rattle.std.specs.Prelude.{◌≤◌, length};
ghost use Rattle.form_reader.specs.FormParts.{OpensForm, BeginsForm, ClosesForm};

use reading::{Cause, Cursor, Refusal};
use tokens::expect;
use tokens::expect::Span;

// Reads the bracket of a form, with so much nesting left, and tells where it stands.
fn open_form(text: &[u8], values: usize, left: usize, c: Cursor) -> Result<usize, Refusal>
    requires { c.at ≤ length text.now }
    ensures read { OpensForm text.now values left c result }
{
    let place = expect::next_opening(text, c.at)?;
    if expect::is_full(values, left, c.begun) {
        return Err(Refusal {
            cause: Cause::FormLimit,
            place,
        });
    }
    Ok(place)
}

// A form up to its word: where its bracket stands, and the word.
#[derive(Clone, Copy)]
pub struct Begun {
    pub place: usize,
    pub word: Span,
}

// Reads the bracket and the word of a form.
pub fn begin_form(text: &[u8], values: usize, left: usize, c: Cursor) -> Result<Begun, Refusal>
    requires { c.at ≤ length text.now }
    ensures read { BeginsForm text.now values left c result }
{
    let place = open_form(text, values, left, c)?;
    let word = expect::next_word(text, place + 1)?;
    Ok(Begun { place, word })
}

// Reads the bracket that ends a form.
pub fn close_form(text: &[u8], c: Cursor) -> Result<Cursor, Refusal>
    requires { c.at ≤ length text.now }
    ensures read { ClosesForm text.now c result }
{
    let place = expect::next_closing(text, c.at)?;
    Ok(Cursor { at: place + 1, ..c })
}
