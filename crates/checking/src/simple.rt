// Forms without results inside: what they want of their place, and what they give.
ghost use Rattle.std.specs.Prelude.{◌≡◌, ◌%◌, ◌<◌, get_or};
ghost use Rattle.checking.specs.CheckContracts.{TellsWant, TellsConversion, TellsLiteral, PassesUp, SimpleAsked, GivesSimple};

use crate::bindings::Binding;
use crate::{kinds, places};
use reading::{Cause, Refusal};
use shapes::Shape;

// The refusal of a place.
pub fn refusal(found: Result<Binding, Refusal>) -> Result<Shape, Refusal>
    ensures passed { PassesUp found result }
{
    match found {
        Ok(of) => Ok(of.kinds),
        Err(why) => Err(why),
    }
}

// What a form gives where the kinds are among those that it wants; else refusal 9 at its place.
pub fn want(kinds: Shape, wanted: Shape, given: Shape, place: usize) -> Result<Shape, Refusal>
    ensures told { TellsWant kinds.kinds wanted.kinds given.kinds place result }
{
    if kinds.is_within(wanted) {
        return Ok(given);
    }
    Err(Refusal {
        cause: Cause::UnwantedKind,
        place,
    })
}

// The kinds that a conversion wants, and gives.
pub fn conversion_kinds(code: u64) -> Shape
    ensures told { TellsConversion code result.kinds }
{
    match code {
        forms::INT => Shape::INT,
        forms::DEC => kinds::NUMBERS,
        forms::BOOL => Shape::BOOL,
        _ => Shape::TEXT,
    }
}

// The kinds of a literal.
pub fn literal_kinds(code: u64, operand: u64, payload: u64) -> Shape
    ensures told { TellsLiteral code operand payload result.kinds }
{
    match code {
        forms::NUM if nodes::is_int(operand, payload) => Shape::INT,
        forms::NUM => kinds::NUMBERS,
        forms::STR => Shape::TEXT,
        forms::NONE => Shape::NULL,
        _ => Shape::BOOL,
    }
}

// Checks a form whose one part is a place.
fn check_place(
    forms: &[u64],
    row: usize,
    code: u64,
    shapes: &[u64],
    pool: &[u64],
    bindings: &[u64],
) -> Result<Shape, Refusal>
    requires simple_asked { SimpleAsked forms.now shapes.now pool.now bindings.now row }
    requires coded { code ≡ get_or forms.now row 0 % 32 }
    requires placed { code < 9 }
    ensures checked { GivesSimple forms.now shapes.now pool.now bindings.now row result }
{
    let found = places::locate(forms, row + 3, shapes, pool, bindings);
    let Ok(of) = found else {
        return refusal(found);
    };
    let place = forms::place(forms, row);
    if code == forms::KEEP {
        return Ok(of.kinds);
    }
    if code == forms::COUNT {
        return want(of.kinds, kinds::LISTS, Shape::INT, place);
    }
    let converted = conversion_kinds(code);
    want(of.kinds, converted, converted, place)
}

// Checks a form that has no results inside.
pub fn check_simple(
    forms: &[u64],
    row: usize,
    shapes: &[u64],
    pool: &[u64],
    bindings: &[u64],
) -> Result<Shape, Refusal>
    requires { SimpleAsked forms.now shapes.now pool.now bindings.now row }
    ensures checked { GivesSimple forms.now shapes.now pool.now bindings.now row result }
{
    let code = forms::code(forms, row);
    if code < forms::EACH {
        return check_place(forms, row, code, shapes, pool, bindings);
    }
    Ok(literal_kinds(code, forms::operand(forms, row), forms::payload(forms, row)))
}
