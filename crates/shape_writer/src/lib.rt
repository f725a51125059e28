// A shape of a shape table and a pool as a shape text: how long it is, writing it, and the end of an operation that writes
// a shape.
#![tactic(auto)]

ghost use Rattle.std.specs.Prelude.{◌+◌, ◌^◌, length};
ghost use Rattle.shape_writer.specs.Writing.{Printable, WritesForm, LengthOfForm, PrintableFields, WritesFields, LengthOfFields};
ghost use Rattle.shape_writer.specs.Writing.{Standing, TellsDeeper, Deliverable, Measures, DeliversAnswer, DeliversOutput};

mod parts; // the parts of a shape text

use definitions::{Answer, Limits};
use parts::{head_length, label_length, write_head, write_label, write_line};
use plain::write_bytes;
use reading::Cause;
use shapes::Shape;

// Writes the members whose rows stand from a row up to an end, and the bracket that closes their shape.
#[cycle(write_form_write_inner_write_members)]
fn write_members(
    out: &mut [u8],
    at: usize,
    shapes: &[u64],
    row: usize,
    end: usize,
    pool: &[u64],
    around: usize,
) -> usize
    requires { PrintableFields shapes.now pool.now row end at around (length out.old + 1) }
    ensures written { WritesFields shapes.now pool.now row end around out.old out.new at result }
{
    let mut i = row;
    let mut j = at;
    while i < end {
        j = write_label(out, j, pool, shapes::name(shapes, i), around);
        j = write_inner(out, j, shapes, i, pool, around + 1);
        j = write_bytes(out, j, b")");
        i += shapes::size(shapes, i);
    }
    write_bytes(out, j, b")")
}

// Writes the form of a member's shape. Most hold no other shape, and are written without a call.
#[cycle(write_form_write_inner_write_members)]
fn write_inner(
    out: &mut [u8],
    at: usize,
    shapes: &[u64],
    row: usize,
    pool: &[u64],
    around: usize,
) -> usize
    requires { Printable shapes.now pool.now row at around (length out.old + 1) }
    ensures written { WritesForm shapes.now pool.now row around out.old out.new at result }
{
    if shapes::size(shapes, row) == 2 {
        let j = write_head(out, at, shapes::kinds(shapes, row));
        return write_bytes(out, j, b")");
    }
    write_form(out, at, shapes, row, pool, around)
}

// Writes the form of the shape at a row, with so many forms around it, from a place on where the output has room for all
// of it, and answers the place behind it.
#[cycle(write_form_write_inner_write_members)]
fn write_form(
    out: &mut [u8],
    at: usize,
    shapes: &[u64],
    row: usize,
    pool: &[u64],
    around: usize,
) -> usize
    requires { Printable shapes.now pool.now row at around (length out.old + 1) }
    ensures written { WritesForm shapes.now pool.now row around out.old out.new at result }
{
    let kinds = shapes::kinds(shapes, row);
    let first = row + 2;
    let end = row + shapes::size(shapes, row);
    let inner = around + 1;
    let j = write_head(out, at, kinds);
    if kinds.has(Shape::LIST) {
        let next = first + shapes::size(shapes, first);
        let k = write_line(out, j, inner);
        let m = write_form(out, k, shapes, first, pool, inner);
        return write_members(out, m, shapes, next, end, pool, inner);
    }
    write_members(out, j, shapes, first, end, pool, inner)
}

// How long the members are whose rows stand from a row up to an end, with the bracket that closes their shape.
#[cycle(form_length_inner_length_members_length)]
fn members_length(shapes: &[u64], row: usize, end: usize, pool: &[u64], around: usize) -> usize
    requires { PrintableFields shapes.now pool.now row end 0 around (2 ^ 64) }
    ensures measured { LengthOfFields shapes.now pool.now row end around result }
{
    let mut i = row;
    let mut length: usize = 1;
    while i < end {
        length += label_length(pool, shapes::name(shapes, i), around);
        length += inner_length(shapes, i, pool, around + 1) + 1;
        i += shapes::size(shapes, i);
    }
    length
}

// How long the form of a member's shape is. Most hold no other shape, and are measured without a call.
#[cycle(form_length_inner_length_members_length)]
fn inner_length(shapes: &[u64], row: usize, pool: &[u64], around: usize) -> usize
    requires { Printable shapes.now pool.now row 0 around (2 ^ 64) }
    ensures measured { LengthOfForm shapes.now pool.now row around result }
{
    if shapes::size(shapes, row) == 2 {
        return head_length(shapes::kinds(shapes, row)) + 1;
    }
    form_length(shapes, row, pool, around)
}

// How long the form of the shape at a row is, with so many forms around it.
#[cycle(form_length_inner_length_members_length)]
fn form_length(shapes: &[u64], row: usize, pool: &[u64], around: usize) -> usize
    requires { Printable shapes.now pool.now row 0 around (2 ^ 64) }
    ensures measured { LengthOfForm shapes.now pool.now row around result }
{
    let kinds = shapes::kinds(shapes, row);
    let first = row + 2;
    let end = row + shapes::size(shapes, row);
    let inner = around + 1;
    let head = head_length(kinds);
    if kinds.has(Shape::LIST) {
        let next = first + shapes::size(shapes, first);
        let element = form_length(shapes, first, pool, inner);
        return head + 1 + inner + element + members_length(shapes, next, end, pool, inner);
    }
    head + members_length(shapes, first, end, pool, inner)
}

// Whether the shape at a row is nested deeper than so many levels.
fn is_deeper(shapes: &[u64], row: usize, left: usize) -> bool
    requires { Standing shapes.now row }
    ensures told { TellsDeeper shapes.now row left result }
{
    if left == 0 {
        return true;
    }
    let size = shapes::size(shapes, row);
    // no shape has more levels than forms
    if size / 2 <= left {
        return false;
    }
    let end = row + size;
    let mut i = row + 2;
    while i < end {
        if is_deeper(shapes, i, left - 1) {
            return true;
        }
        i += shapes::size(shapes, i);
    }
    false
}

// Judges refusal 11 for the shape at the first row: how long its text is, or nothing where the shape is refused.
fn measure(shapes: &[u64], pool: &[u64], limits: Limits) -> Option<usize>
    requires { Deliverable shapes.now pool.now }
    ensures judged { Measures shapes.now pool.now limits result }
{
    if limits.values < shapes::size(shapes, 0) / 2 || is_deeper(shapes, 0, limits.nesting) {
        return None;
    }
    let length = form_length(shapes, 0, pool, 0) + 1;
    if length <= limits.bytes {
        Some(length)
    } else {
        None
    }
}

// The end of an operation that writes the shape at the first row: refusal 11, refusal 15, or its text at the front of the
// output.
pub fn deliver(output: &mut [u8], shapes: &[u64], pool: &[u64], limits: Limits) -> Answer
    requires { Deliverable shapes.now pool.now }
    ensures answered { DeliversAnswer shapes.now pool.now limits output.old result }
    ensures kept { DeliversOutput shapes.now pool.now limits output.old output.new }
{
    let Some(length) = measure(shapes, pool, limits) else {
        return answers::refusal(Cause::ShapeLimit.number(), 0, 0);
    };
    if output.len() < length {
        return answers::output_short(length);
    }
    let end = write_form(output, 0, shapes, 0, pool, 0);
    write_bytes(output, end, b"\n");
    answers::written(length, 0)
}
