// The shape of a place: where it stands, and which kinds it has.
ghost use Rattle.checking.specs.CheckContracts.{FieldAsked, GivesField, PlaceAsked, GivesPlace};

use crate::bindings::Binding;
use crate::{bindings, kinds};
use reading::{Cause, Refusal};
use shapes::Shape;

// The member of a name of the shape at a row, of which these kinds are left; it has null where they have.
fn member(
    shapes: &[u64],
    of: Binding,
    pool: &[u64],
    name: u64,
    place: usize,
) -> Result<Binding, Refusal>
    requires { FieldAsked shapes.now pool.now of.row of.kinds.kinds name }
    ensures found { GivesField shapes.now pool.now of.row of.kinds.kinds name place result }
{
    if !of.kinds.is_within(kinds::RECORDS) {
        return Err(Refusal {
            cause: Cause::UnwantedKind,
            place,
        });
    }
    let unlisted = Refusal {
        cause: Cause::UnlistedName,
        place,
    };
    if !of.kinds.has(Shape::REC) {
        return Err(unlisted);
    }
    let from = shapes::members(shapes, of.row);
    let end = of.row + shapes::size(shapes, of.row);
    let Some(row) = shapes::find_named(shapes, from, end, pool, name) else {
        return Err(unlisted);
    };
    Ok(Binding {
        row,
        kinds: kinds::gain_null(shapes::kinds(shapes, row), of.kinds),
    })
}

// The shape of the place at a row of the forms table.
pub fn locate(
    forms: &[u64],
    row: usize,
    shapes: &[u64],
    pool: &[u64],
    bindings: &[u64],
) -> Result<Binding, Refusal>
    requires { PlaceAsked forms.now shapes.now pool.now bindings.now row }
    ensures found { GivesPlace forms.now shapes.now pool.now bindings.now row result }
{
    let operand = forms::payload(forms, row);
    if forms::code(forms, row) == forms::IT {
        return Ok(bindings::bound(bindings, operand as usize));
    }
    let part = locate(forms, row + 3, shapes, pool, bindings);
    let Ok(of) = part else {
        return part;
    };
    member(shapes, of, pool, operand, forms::place(forms, row))
}
