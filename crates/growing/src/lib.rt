// A shape that grows in place: rows opened, kinds added, the place of a name among its members.
#![tactic(auto)]

ghost use Rattle.std.specs.Prelude.{◌≡◌, true, List, ◌++◌, ◌∷◌, ℕ, ◌+◌, ◌%◌, ◌^◌, ◌≤◌, ◌<◌, length, get_or, take, drop};
ghost use Rattle.std.specs.Int.Bits.{bit_or};
ghost use Rattle.definitions.specs.Bytes.{Bytes};
ghost use Rattle.definitions.specs.Shape.{Fields, ascending_fields};
ghost use Rattle.nodes.specs.Nodes.{Refers};
ghost use Rattle.shapes.specs.Shapes.{head_of, size_at, kind_bits};
ghost use Rattle.join.specs.Replacing.{Puts};
ghost use Rattle.growing.specs.Growing.{member_start};
ghost use Rattle.growing.specs.Rows.{Room, NewRow, ShapeHeld, Readies, MeetsFields, FieldsHeld, FindsPlace, FindsNamed};

pub mod lacked;

use shapes::Shape;
use std::cmp::Ordering;

// ---- rows

// Opens a row for a shape of these kinds that has no parts; what stands from there on moves up.
pub fn open_row(
    shapes: &mut [u64],
    used: usize,
    row: usize,
    kinds: Shape,
    name: u64,
) -> Option<usize>
    requires room { Room shapes.old used }
    requires inside { row ≤ used }
    requires small { kinds.kinds < 128 }
    ensures opened { Puts shapes.old shapes.new used row 0 2 (NewRow kinds.kinds name) result }
{
    if shapes.len() - used < 2 {
        return None;
    }
    join::open_gap(&mut shapes[row..], used - row, 2);
    shapes::put_row(shapes, row, kinds, 2, name);
    Some(2)
}

// Sees to it that the shape at a row has an element's row: where it has no list, that of nothing.
pub fn ready_element(shapes: &mut [u64], used: usize, row: usize) -> Option<usize>
    requires shape_held { ShapeHeld shapes.old used row }
    requires room { Room shapes.old used }
    ensures ready { Readies shapes.old shapes.new used row result }
{
    if shapes::kinds(shapes, row).has(Shape::LIST) {
        return Some(0);
    }
    open_row(shapes, used, row + 2, Shape::NOTHING, 0)
}

// Adds kinds and words to a row's first word.
pub fn raise(shapes: &mut [u64], row: usize, kinds: Shape, words: usize)
    requires row_in_bounds { row < length shapes.old }
    requires fits { head_of (bit_or (get_or shapes.old row 0 % 128) kinds.kinds) (size_at shapes.old row + words) < 2 ^ 64 }
    ensures raised { shapes.new
        ≡ take row shapes.old ++ head_of (bit_or (get_or shapes.old row 0 % 128) kinds.kinds) (size_at shapes.old row + words)
        ∷ drop (row + 1) shapes.old }
{
    let all = shapes::kinds(shapes, row).union(kinds);
    let size = shapes::size(shapes, row) + words;
    shapes::put_head(shapes, row, all, size);
}

// ---- members

// The kinds of a new member before its value is joined into it.
#[tactic(auto, using(crate::proofs::Words::start_null, crate::proofs::Words::start_nothing))]
pub fn start_kinds(had: bool) -> Shape
    ensures told { result.kinds ≡ kind_bits (member_start had) }
{
    if had { Shape::NULL } else { Shape::NOTHING }
}

// The place of a name among the members whose rows stand from one row up to another: the row of the member that has it, or else
// that of the first member behind it.
pub fn find_place(
    shapes: &[u64],
    used: usize,
    first: usize,
    last: usize,
    pool: &[u64],
    name: u64,
) -> Result<usize, usize>
    requires fields_held { FieldsHeld shapes.now pool.now used first last }
    requires room { Room shapes.now used }
    ensures found { (p : List ℕ) (fs : Fields) (n : Bytes) → MeetsFields shapes.now pool.now used first last p fs
        → Refers p n name → FindsPlace shapes.now first last n p fs result }
{
    let mut row = first;
    // rows differ in size: no iterator of std's walks them
    while row < last {
        match shapes::compare_names(pool, name, shapes::name(shapes, row)) {
            Ordering::Less => return Err(row),
            Ordering::Equal => return Ok(row),
            Ordering::Greater => row += shapes::size(shapes, row),
        }
    }
    Err(row)
}

// The member of a name among those whose rows stand from one row up to another, by equal names: where names ascend, it is at
// its place.
pub fn find_listed(
    shapes: &[u64],
    used: usize,
    first: usize,
    last: usize,
    pool: &[u64],
    name: u64,
) -> Option<usize>
    requires { FieldsHeld shapes.now pool.now used first last }
    ensures found { (p : List ℕ) (fs : Fields) (n : Bytes) → MeetsFields shapes.now pool.now used first last p fs
        → ascending_fields fs ≡ true → Refers p n name → FindsNamed shapes.now first last n p fs result }
{
    shapes::find_named(shapes, first, last, pool, name)
}
