// Shapes, their elements and their members: the shape reader calls the readers of its parts, which call it back; the nesting left falls.
// The tables are parameters of each and not one struct, which would be no plainer: the clauses speak of each table before and after.
ghost use Rattle.shape_reader.specs.ShapeParts.{Ready, ReadsForm, ReadsElement, ReadsMembers};

use crate::leaves::find_leaf;
use crate::members::{Turn, close_member, next_member};
use crate::opening::open_form;
use reading::{Cursor, Refusal};
use shapes::Shape;

// Reads the element of a shape of these kinds, if it has one, with so much nesting left inside the shape.
#[cycle(read_element_read_form_read_member_read_members)]
fn read_element(
    text: &[u8],
    shapes: &mut [u64],
    pool: &mut [u64],
    values: usize,
    left: usize,
    kinds: Shape,
    c: Cursor,
) -> Result<Cursor, Refusal>
    requires { Ready text.now shapes.old pool.old values c }
    ensures read { ReadsElement left values text.now shapes.old pool.old shapes.new
        pool.new kinds.kinds c result }
{
    if kinds.has(Shape::LIST) {
        read_form(text, shapes, pool, values, left, c, 0)
    } else {
        Ok(c)
    }
}

// Reads the shape of a member as `read_form` does; most have no parts and are read in place.
#[cycle(read_element_read_form_read_member_read_members)]
fn read_member(
    text: &[u8],
    shapes: &mut [u64],
    pool: &mut [u64],
    values: usize,
    left: usize,
    c: Cursor,
    name: u64,
) -> Result<Cursor, Refusal>
    requires { Ready text.now shapes.old pool.old values c }
    ensures read { ReadsForm left values text.now shapes.old pool.old shapes.new
        pool.new name c result }
{
    match find_leaf(text, values, left, c) {
        Some(leaf) => {
            shapes::put_row(shapes, 2 * c.begun, leaf.kinds, 2, name);
            Ok(Cursor {
                at: leaf.end,
                begun: c.begun + 1,
                ..c
            })
        }
        None => read_form(text, shapes, pool, values, left, c, name),
    }
}

// Reads the members of a shape of these kinds and its closing bracket, with so much nesting left inside the shape.
#[cycle(read_element_read_form_read_member_read_members)]
#[inline(always)]
fn read_members(
    text: &[u8],
    shapes: &mut [u64],
    pool: &mut [u64],
    values: usize,
    left: usize,
    kinds: Shape,
    c: Cursor,
) -> Result<Cursor, Refusal>
    requires { Ready text.now shapes.old pool.old values c }
    ensures read { ReadsMembers left values text.now shapes.old pool.old shapes.new
        pool.new kinds.kinds c result }
{
    let mut latest = None;
    let mut here = c;
    loop {
        match next_member(text, pool, kinds, latest, here)? {
            Turn::More { from, name } => {
                let to = read_member(text, shapes, pool, values, left, from, name)?;
                here = close_member(text, to)?;
                latest = Some(name);
            }
            Turn::End { to } => {
                return Ok(to);
            }
        }
    }
}

// Reads a shape that must begin at c, with so much nesting left, and puts its row under this name.
#[cycle(read_element_read_form_read_member_read_members)]
pub fn read_form(
    text: &[u8],
    shapes: &mut [u64],
    pool: &mut [u64],
    values: usize,
    left: usize,
    c: Cursor,
    name: u64,
) -> Result<Cursor, Refusal>
    requires { Ready text.now shapes.old pool.old values c }
    ensures read { ReadsForm left values text.now shapes.old pool.old shapes.new
        pool.new name c result }
{
    let head = open_form(text, values, left, c)?;
    let inner = Cursor {
        at: head.end,
        begun: c.begun + 1,
        ..c
    };
    let behind = read_element(text, shapes, pool, values, left - 1, head.kinds, inner)?;
    let to = read_members(text, shapes, pool, values, left - 1, head.kinds, behind)?;
    shapes::put_row(
        shapes,
        2 * c.begun,
        head.kinds,
        2 * (to.begun - c.begun),
        name,
    );
    Ok(to)
}
