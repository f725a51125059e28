// Shape texts, read into a shape table: one row a form, in preorder, the names of its members in a pool.
#![tactic(auto)]

ghost use Rattle.shape_reader.specs.ShapeReads.{Tables, ReadsShape};

mod forms; // shapes, their elements and their members
mod kinds; // the kind words of a shape
mod leaves; // shapes without parts
mod members; // what comes behind kinds, elements and members
mod opening; // how a shape begins

use definitions::Limits;
use reading::{Cursor, Extent, Refusal};

// Reads a shape text. Its rows go into the shape table, its names into the pool from word `top` on.
pub fn read_shape(
    text: &[u8],
    shapes: &mut [u64],
    pool: &mut [u64],
    top: usize,
    limits: Limits,
) -> Result<Extent, Refusal>
    requires { Tables text.now shapes.old pool.old top limits.values }
    ensures read { ReadsShape limits text.now shapes.old pool.old shapes.new pool.new top result }
{
    let start = Cursor {
        at: 0,
        begun: 0,
        top,
    };
    let to = forms::read_form(text, shapes, pool, limits.values, limits.nesting, start, 0)?;
    tokens::expect::next_end(text, to.at)?;
    Ok(Extent {
        words: 2 * to.begun,
        top: to.top,
    })
}
