// Whether a shape of a shape table admits a value of a node table.
#![tactic(auto)]

ghost use Rattle.std.specs.Prelude.{◌≡◌, true, List, ℕ};
ghost use Rattle.definitions.specs.Value.{Value};
ghost use Rattle.definitions.specs.Admits.{kind_of};
ghost use Rattle.plain.specs.Table.{BoundedNumbers};
ghost use Rattle.shapes.specs.Shapes.{kind_bit};
ghost use Rattle.nodes.specs.Standing.{ValueStands, MembersHeld};
ghost use Rattle.admits.specs.Admission.{ValueAsked, ValueTold, ItemsAsked, ItemsTold, MembersAsked, MembersTold, NullsTold, Lacks};

use shapes::Shape;

// The bit of the kind of the value at a row.
fn kind_bit(nodes: &[u64], at: usize) -> Shape
    ensures told { (p : List ℕ) (k : ℕ) (v : Value) → ValueStands nodes.now p at k v → BoundedNumbers v
        → result.kinds ≡ kind_bit (kind_of v) }
{
    match nodes::row_kind(nodes, at) {
        nodes::NULL => Shape::NULL,
        nodes::FALSE | nodes::TRUE => Shape::BOOL,
        nodes::NUMBER if nodes::row_is_int(nodes, at) => Shape::INT,
        nodes::NUMBER => Shape::DEC,
        nodes::TEXT => Shape::TEXT,
        nodes::LIST => Shape::LIST,
        _ => Shape::REC,
    }
}

// ---- members that a value lacks

// Whether the members of a value have the name of the shape at a row, or it has null.
fn may_lack(shapes: &[u64], row: usize, nodes: &[u64], at: usize, end: usize, pool: &[u64]) -> bool
    requires { MembersHeld nodes.now pool.now at end }
    ensures told { Lacks shapes.now row nodes.now at end pool.now result }
{
    shapes::kinds(shapes, row).has(Shape::NULL)
        || nodes::has_member(nodes, at, end, pool, shapes::name(shapes, row))
}

// Whether every member listed from one row up to another has null where the value lacks it.
fn missing_have_null(
    shapes: &[u64],
    from: usize,
    to: usize,
    nodes: &[u64],
    at: usize,
    end: usize,
    pool: &[u64],
) -> bool
    requires { MembersAsked shapes.now from to nodes.now at end pool.now }
    ensures told { NullsTold shapes.now from to nodes.now at end pool.now result }
{
    let mut i = from;
    while i < to {
        if !may_lack(shapes, i, nodes, at, end, pool) {
            return false; // lacked, without null
        }
        i += shapes::size(shapes, i);
    }
    true
}

// The same, where each member of the value is listed.
fn lacked_have_null(
    shapes: &[u64],
    from: usize,
    to: usize,
    nodes: &[u64],
    at: usize,
    end: usize,
    pool: &[u64],
) -> bool
    requires members_asked { MembersAsked shapes.now from to nodes.now at end pool.now }
    requires listed { MembersTold shapes.now from to nodes.now at end pool.now true }
    ensures told { NullsTold shapes.now from to nodes.now at end pool.now result }
{
    // as many as are listed: none is lacked
    if shapes::member_count(shapes, from, to) == nodes::member_count(nodes, at, end) {
        return true;
    }
    missing_have_null(shapes, from, to, nodes, at, end, pool)
}

// ---- values

// Whether the shape at a row admits the elements that stand from one row up to another.
#[cycle(admits_admits_items_admits_listed_admits_members)]
fn admits_items(
    shapes: &[u64],
    row: usize,
    nodes: &[u64],
    at: usize,
    end: usize,
    pool: &[u64],
) -> bool
    requires { ItemsAsked shapes.now row nodes.now at end pool.now }
    ensures told { ItemsTold shapes.now row nodes.now at end pool.now result }
{
    let mut i = at;
    while i < end {
        if !admits(shapes, row, nodes, i, pool) {
            return false;
        }
        i += nodes::row_size(nodes, i);
    }
    true
}

// Whether each member of a value is one of those listed from one row up to another and admitted.
#[cycle(admits_admits_items_admits_listed_admits_members)]
fn admits_members(
    shapes: &[u64],
    from: usize,
    to: usize,
    nodes: &[u64],
    at: usize,
    end: usize,
    pool: &[u64],
) -> bool
    requires { MembersAsked shapes.now from to nodes.now at end pool.now }
    ensures told { MembersTold shapes.now from to nodes.now at end pool.now result }
{
    let mut i = at;
    while i < end {
        let named = shapes::find_named(shapes, from, to, pool, nodes[i + 2]);
        let Some(row) = named else {
            return false; // not listed
        };
        if !admits_listed(shapes, row, nodes, i, pool) {
            return false;
        }
        i += nodes::row_size_in(nodes, i);
    }
    true
}

// Whether the shape at a row admits the value of a listed member; most hold no others, and these take no call.
#[cycle(admits_admits_items_admits_listed_admits_members)]
fn admits_listed(shapes: &[u64], row: usize, nodes: &[u64], at: usize, pool: &[u64]) -> bool
    requires { ValueAsked shapes.now row nodes.now at pool.now }
    ensures told { ValueTold shapes.now row nodes.now at pool.now result }
{
    if nodes::row_kind(nodes, at) < nodes::LIST {
        return shapes::kinds(shapes, row).has(kind_bit(nodes, at));
    }
    admits(shapes, row, nodes, at, pool)
}

// Whether the shape at a row of the shape table admits the value at a row of the node table.
#[cycle(admits_admits_items_admits_listed_admits_members)]
pub fn admits(shapes: &[u64], row: usize, nodes: &[u64], at: usize, pool: &[u64]) -> bool
    requires { ValueAsked shapes.now row nodes.now at pool.now }
    ensures told { ValueTold shapes.now row nodes.now at pool.now result }
{
    let bit = kind_bit(nodes, at);
    if !shapes::kinds(shapes, row).has(bit) {
        return false;
    }
    if bit.kinds < Shape::LIST.kinds {
        return true;
    }
    let end = at + nodes::row_size(nodes, at);
    if bit.kinds == Shape::LIST.kinds {
        return admits_items(shapes, row + 2, nodes, at + 3, end, pool);
    }
    let from = shapes::members(shapes, row);
    let to = row + shapes::size(shapes, row);
    admits_members(shapes, from, to, nodes, at + 3, end, pool)
        && lacked_have_null(shapes, from, to, nodes, at + 3, end, pool)
}
