// Joining the shape of a document's value into a shape, in place: each part of the value is joined into the part of the
// shape where it belongs, and what is new takes its place.
#![tactic(auto)]

ghost use Rattle.std.specs.Prelude.{◌%◌, ◌<◌, ◌≡◌, get_or};
ghost use Rattle.growing.specs.Rows.{Room};
ghost use Rattle.infer.specs.Inferring.{Inferable, Infers, Joins, ItemsInferable, InfersItems};
ghost use Rattle.infer.specs.Inferring.{MemberInferable, InfersMember, MembersInferable, InfersMembers};

use shapes::Shape;

mod kinds;
mod lacked;

// Joins a value that holds no others into the shape at a row.
fn infer_leaf(
    shapes: &mut [u64],
    used: usize,
    row: usize,
    nodes: &[u64],
    at: usize,
    pool: &[u64],
) -> Option<usize>
    requires inferable { Inferable shapes.old nodes.now pool.now used row at }
    requires room { Room shapes.old used }
    requires leaf { get_or nodes.now at 0 % 8 < 5 }
    ensures inferred { Infers shapes.old nodes.now pool.now shapes.new used row at result }
{
    growing::raise(shapes, row, kinds::scalar_kinds(nodes, at), 0);
    Some(0)
}

// Joins the elements whose rows stand in the node table from one row up to another into the element at a row.
#[cycle(infer_into_infer_items_infer_list_infer_member_infer_members_infer_record)]
fn infer_items(
    shapes: &mut [u64],
    used: usize,
    row: usize,
    nodes: &[u64],
    at: usize,
    end: usize,
    pool: &[u64],
) -> Option<usize>
    requires items_inferable { ItemsInferable shapes.old nodes.now pool.now used row at end }
    requires room { Room shapes.old used }
    ensures inferred { InfersItems shapes.old nodes.now pool.now shapes.new used row at end result }
{
    let mut i = at;
    let mut grown: usize = 0;
    while i < end {
        grown += infer_into(shapes, used + grown, row, nodes, i, pool)?;
        i += nodes::row_size_in(nodes, i);
    }
    Some(grown)
}

// Joins a list into the shape at a row.
#[cycle(infer_into_infer_items_infer_list_infer_member_infer_members_infer_record)]
fn infer_list(
    shapes: &mut [u64],
    used: usize,
    row: usize,
    nodes: &[u64],
    at: usize,
    pool: &[u64],
) -> Option<usize>
    requires inferable { Inferable shapes.old nodes.now pool.now used row at }
    requires room { Room shapes.old used }
    requires list { get_or nodes.now at 0 % 8 ≡ 5 }
    ensures inferred { Infers shapes.old nodes.now pool.now shapes.new used row at result }
{
    let end = at + nodes::row_size(nodes, at);
    let opened = growing::ready_element(shapes, used, row)?;
    let words = infer_items(shapes, used + opened, row + 2, nodes, at + 3, end, pool)?;
    growing::raise(shapes, row, Shape::LIST, opened + words);
    Some(opened + words)
}

// Joins a member into the members whose rows stand from one row up to another; a new one has null, if there were members
// before.
#[cycle(infer_into_infer_items_infer_list_infer_member_infer_members_infer_record)]
fn infer_member(
    shapes: &mut [u64],
    used: usize,
    first: usize,
    last: usize,
    nodes: &[u64],
    at: usize,
    pool: &[u64],
    had: bool,
) -> Option<usize>
    requires member_inferable { MemberInferable shapes.old nodes.now pool.now used first last at }
    requires room { Room shapes.old used }
    ensures inferred { InfersMember shapes.old nodes.now pool.now shapes.new used first last at had result }
{
    let name = nodes[at + 2];
    if let Some(row) = growing::find_listed(shapes, used, first, last, pool, name) {
        if nodes::row_kind(nodes, at) < nodes::LIST {
            return infer_leaf(shapes, used, row, nodes, at, pool);
        }
        return infer_into(shapes, used, row, nodes, at, pool);
    }
    let Err(row) = growing::find_place(shapes, used, first, last, pool, name) else {
        unreachable!() // it was not found by equal names
    };
    let opened = growing::open_row(shapes, used, row, growing::start_kinds(had), name)?;
    let words = infer_into(shapes, used + opened, row, nodes, at, pool)?;
    Some(opened + words)
}

// Joins the members whose rows stand in the node table from one row up to another into the members of a shape.
#[cycle(infer_into_infer_items_infer_list_infer_member_infer_members_infer_record)]
fn infer_members(
    shapes: &mut [u64],
    used: usize,
    first: usize,
    last: usize,
    nodes: &[u64],
    at: usize,
    end: usize,
    pool: &[u64],
    had: bool,
) -> Option<usize>
    requires members_inferable { MembersInferable shapes.old nodes.now pool.now used first last at end }
    requires room { Room shapes.old used }
    ensures inferred { InfersMembers shapes.old nodes.now pool.now shapes.new used
        first last at end had result }
{
    let mut i = at;
    let mut grown: usize = 0;
    while i < end {
        grown += infer_member(
            shapes,
            used + grown,
            first,
            last + grown,
            nodes,
            i,
            pool,
            had,
        )?;
        i += nodes::row_size_in(nodes, i);
    }
    Some(grown)
}

// Joins a record into the shape at a row.
#[cycle(infer_into_infer_items_infer_list_infer_member_infer_members_infer_record)]
fn infer_record(
    shapes: &mut [u64],
    used: usize,
    row: usize,
    nodes: &[u64],
    at: usize,
    pool: &[u64],
) -> Option<usize>
    requires inferable { Inferable shapes.old nodes.now pool.now used row at }
    requires room { Room shapes.old used }
    requires record { get_or nodes.now at 0 % 8 ≡ 6 }
    ensures inferred { Infers shapes.old nodes.now pool.now shapes.new used row at result }
{
    let end = at + nodes::row_size(nodes, at);
    let had = shapes::kinds(shapes, row).has(Shape::REC);
    let first = shapes::members(shapes, row);
    let last = row + shapes::size(shapes, row);
    let words = infer_members(shapes, used, first, last, nodes, at + 3, end, pool, had)?;
    let grown = used + words;
    let last = last + words;
    lacked::null_others(shapes, grown, first, last, nodes, at + 3, end, pool, had);
    growing::raise(shapes, row, Shape::REC, words);
    Some(words)
}

// Joins the value at a row of the node table into the shape at a row.
#[cycle(infer_into_infer_items_infer_list_infer_member_infer_members_infer_record)]
fn infer_into(
    shapes: &mut [u64],
    used: usize,
    row: usize,
    nodes: &[u64],
    at: usize,
    pool: &[u64],
) -> Option<usize>
    requires inferable { Inferable shapes.old nodes.now pool.now used row at }
    requires room { Room shapes.old used }
    ensures inferred { Infers shapes.old nodes.now pool.now shapes.new used row at result }
{
    match nodes::row_kind(nodes, at) {
        nodes::LIST => infer_list(shapes, used, row, nodes, at, pool),
        nodes::RECORD => infer_record(shapes, used, row, nodes, at, pool),
        _ => infer_leaf(shapes, used, row, nodes, at, pool),
    }
}

// Joins the shape of the value at a row of the node table into the shape at a row.
pub fn infer_at(
    shapes: &mut [u64],
    used: usize,
    row: usize,
    nodes: &[u64],
    at: usize,
    pool: &[u64],
) -> Option<usize>
    requires inferable { Inferable shapes.old nodes.now pool.now used row at }
    requires room { Room shapes.old used }
    ensures joined { Joins shapes.old nodes.now pool.now shapes.new used row at result }
{
    infer_into(shapes, used, row, nodes, at, pool)
}
