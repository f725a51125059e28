// Whether a shape lies below another: the order goes down both together.
#![tactic(auto)]

ghost use Rattle.shapes.specs.Members.{SomeListed};
ghost use Rattle.order.specs.Comparing.{ShapesAsked, ShapesTold, PartsAsked, ElementTold, RecordTold};
ghost use Rattle.order.specs.Comparing.{FieldsAsked, FieldsTold, NullsTold, ListedAsked, Lacks};

use shapes::Shape;

// ---- members that the first shape lacks

// Whether a member of the second shape is one of the first's or has null.
fn may_lack(first: &[u64], from: usize, to: usize, second: &[u64], row: usize, pool: &[u64]) -> bool
    requires { SomeListed first.now pool.now from to }
    ensures told { Lacks first.now from to second.now row pool.now result }
{
    shapes::kinds(second, row).has(Shape::NULL)
        || shapes::find_named(first, from, to, pool, shapes::name(second, row)).is_some()
}

// Whether each member of the second shape that the first lacks has null.
fn lacked_have_null(
    first: &[u64],
    from: usize,
    to: usize,
    second: &[u64],
    at: usize,
    end: usize,
    pool: &[u64],
) -> bool
    requires { ListedAsked first.now from to second.now at end pool.now }
    ensures told { NullsTold first.now from to second.now at end pool.now result }
{
    let mut i = at;
    while i < end {
        if !may_lack(first, from, to, second, i, pool) {
            return false; // lacked, without null
        }
        i += shapes::size(second, i);
    }
    true
}

// ---- shapes

// Whether the element of the first shape, if it has list, lies below that of the second.
#[cycle(below_below_element_below_fields_below_record)]
fn below_element(
    first: &[u64],
    second: &[u64],
    pool: &[u64],
    a: usize,
    b: usize,
    left: usize,
) -> bool
    requires { PartsAsked first.now a second.now b pool.now left }
    ensures told { ElementTold first.now a second.now b pool.now result }
{
    !shapes::kinds(first, a).has(Shape::LIST) || below(first, second, pool, a + 2, b + 2, left - 1)
}

// Whether each member of the first shape is one of the second's and lies below it.
#[cycle(below_below_element_below_fields_below_record)]
fn below_fields(
    first: &[u64],
    from: usize,
    to: usize,
    second: &[u64],
    at: usize,
    end: usize,
    pool: &[u64],
    left: usize,
) -> bool
    requires { FieldsAsked first.now from to second.now at end pool.now left }
    ensures told { FieldsTold first.now from to second.now at end pool.now result }
{
    let mut i = from;
    while i < to {
        let named = shapes::find_named(second, at, end, pool, shapes::name(first, i));
        let Some(row) = named else {
            return false; // not listed
        };
        if !below(first, second, pool, i, row, left) {
            return false;
        }
        i += shapes::size(first, i);
    }
    true
}

// Whether the members of the first shape, if it has rec, lie below those of the second.
#[cycle(below_below_element_below_fields_below_record)]
fn below_record(
    first: &[u64],
    second: &[u64],
    pool: &[u64],
    a: usize,
    b: usize,
    left: usize,
) -> bool
    requires { PartsAsked first.now a second.now b pool.now left }
    ensures told { RecordTold first.now a second.now b pool.now result }
{
    if !shapes::kinds(first, a).has(Shape::REC) {
        return true;
    }
    let from = shapes::members(first, a);
    let to = a + shapes::size(first, a);
    let at = shapes::members(second, b);
    let end = b + shapes::size(second, b);
    below_fields(first, from, to, second, at, end, pool, left - 1)
        && lacked_have_null(first, from, to, second, at, end, pool)
}

// Whether the shape at row a of the first table lies below the one at row b of the second, with so much nesting left.
#[cycle(below_below_element_below_fields_below_record)]
pub fn below(first: &[u64], second: &[u64], pool: &[u64], a: usize, b: usize, left: usize) -> bool
    requires { ShapesAsked first.now a second.now b pool.now left }
    ensures told { ShapesTold first.now a second.now b pool.now result }
{
    if !shapes::kinds(first, a).is_within(shapes::kinds(second, b)) {
        return false;
    }
    below_element(first, second, pool, a, b, left) && below_record(first, second, pool, a, b, left)
}
