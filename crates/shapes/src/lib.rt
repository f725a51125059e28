// The table of a shape: two words a form, in preorder. The functions that read it are total: past its end stands 0.
#![tactic(auto)]

ghost use Rattle.std.specs.Prelude.{◌≡◌, List, ◌++◌, ◌∷◌, ℕ, ◌+◌, ◌/◌, ◌%◌, ◌^◌, ◌≤◌, ◌<◌, eqb, length, get_or, take, drop};
ghost use Rattle.std.specs.Int.Bits.{bit_or};
ghost use Rattle.definitions.specs.Bytes.{order};
ghost use Rattle.definitions.specs.Shape.{Fields};
ghost use Rattle.pool.specs.Pool.{text_in, ordering_of};
ghost use Rattle.shapes.specs.Shapes.{has_bit, head_of, size_at, members_at, FieldsStand};
ghost use Rattle.shapes.specs.Members.{SomeListed, Names, SomeStand, field_count};

use std::cmp::Ordering;

// The kinds of a shape, a set that is the sum of the kinds' bits.
#[derive(Clone, Copy, PartialEq, Eq)]
pub struct Shape {
    pub kinds: u64,
}

impl Shape {
    // the shape with no kind
    pub const NOTHING: Shape = Shape { kinds: 0 };

    pub const NULL: Shape = Shape { kinds: 1 };

    pub const BOOL: Shape = Shape { kinds: 2 };

    pub const INT: Shape = Shape { kinds: 4 };

    pub const DEC: Shape = Shape { kinds: 8 };

    pub const TEXT: Shape = Shape { kinds: 16 };

    pub const LIST: Shape = Shape { kinds: 32 };

    pub const REC: Shape = Shape { kinds: 64 };

    // Whether it has a kind.
    #[tactic(auto, unfolding(crate::specs::Shapes::has_bit))]
    pub fn has(self, kind: Shape) -> bool
        ensures told { result ≡ has_bit self.kinds kind.kinds }
    {
        self.kinds & kind.kinds != 0
    }

    // The kinds of both.
    pub fn union(self, others: Shape) -> Shape
        ensures made { result.kinds ≡ bit_or self.kinds others.kinds }
    {
        Shape {
            kinds: self.kinds | others.kinds,
        }
    }

    // Whether its kinds are all in another.
    pub fn is_within(self, others: Shape) -> bool
        ensures told { result ≡ eqb (bit_or self.kinds others.kinds) others.kinds }
    {
        self.union(others) == others
    }
}

// The word at a place.
fn word(shapes: &[u64], i: usize) -> u64
    ensures read { result ≡ get_or shapes.now i 0 }
{
    shapes.get(i).copied().unwrap_or(0)
}

// The kinds of the shape at a row.
pub fn kinds(shapes: &[u64], row: usize) -> Shape
    ensures read { result.kinds ≡ get_or shapes.now row 0 % 128 }
{
    Shape {
        kinds: word(shapes, row) % 128,
    }
}

// How many words the shape at a row takes.
#[tactic(auto, unfolding(crate::specs::Shapes::size_at))]
pub fn size(shapes: &[u64], row: usize) -> usize
    ensures read { result ≡ size_at shapes.now row }
{
    (word(shapes, row) / 128) as usize
}

// Where the name of the shape at a row stands.
pub fn name(shapes: &[u64], row: usize) -> u64
    ensures read { result ≡ get_or shapes.now (row + 1) 0 }
{
    // at the largest row no row + 1 fits
    if row < shapes.len() {
        word(shapes, row + 1)
    } else {
        0
    }
}

// Where the members of the shape at a row begin: behind its element, if it has one.
#[tactic(auto, using(crate::proofs::Rows::behind_element, crate::proofs::Rows::behind_row))]
pub fn members(shapes: &[u64], row: usize) -> usize
    requires row_in_bounds { row + 2 ≤ length shapes.now }
    requires within { members_at shapes.now row < 2 ^ 64 }
    ensures found { result ≡ members_at shapes.now row }
{
    if kinds(shapes, row).has(Shape::LIST) {
        row + 2 + size(shapes, row + 2)
    } else {
        row + 2
    }
}

// Puts the first word of a row.
#[tactic(auto, using(crate::proofs::Rows::head_put))]
pub fn put_head(shapes: &mut [u64], row: usize, kinds: Shape, size: usize)
    requires row_in_bounds { row < length shapes.old }
    requires fits { head_of kinds.kinds size < 2 ^ 64 }
    ensures put { shapes.new ≡ take row shapes.old ++ head_of kinds.kinds size ∷ drop (row + 1) shapes.old }
{
    shapes[row] = kinds.kinds + 128 * (size as u64);
}

// Puts the two words of a row.
#[tactic(auto, using(crate::proofs::Rows::row_put))]
pub fn put_row(shapes: &mut [u64], row: usize, kinds: Shape, size: usize, name: u64)
    requires row_in_bounds { row + 2 ≤ length shapes.old }
    requires fits { head_of kinds.kinds size < 2 ^ 64 }
    ensures put { shapes.new ≡ take row shapes.old ++ head_of kinds.kinds size ∷ name ∷ drop (row + 2) shapes.old }
{
    shapes[row] = kinds.kinds + 128 * (size as u64);
    shapes[row + 1] = name;
}

// The texts of two references in byte order.
pub fn compare_names(pool: &[u64], a: u64, b: u64) -> Ordering
    ensures compared { ordering_of result
        ≡ order (text_in pool.now (a % 65536) (a / 65536)) (text_in pool.now (b % 65536) (b / 65536)) }
{
    pool::compare(
        pool,
        nodes::text_word(a),
        nodes::text_bytes(a),
        nodes::text_word(b),
        nodes::text_bytes(b),
    )
}

// The row of the member whose name is at a reference, among those that stand from one row up to another.
pub fn find_named(shapes: &[u64], from: usize, end: usize, pool: &[u64], k: u64) -> Option<usize>
    requires { SomeListed shapes.now pool.now from end }
    ensures told { Names shapes.now from end pool.now k result }
{
    let w = nodes::text_word(k);
    let n = pool::held(pool, w, nodes::text_bytes(k));
    let mut row = from;
    // rows differ in size: no iterator of std's walks them
    while row < end {
        let m = shapes[row + 1];
        if pool::same_held(pool, w, n, nodes::text_word(m), nodes::text_bytes(m)) {
            return Some(row);
        }
        row += (shapes[row] / 128) as usize;
    }
    None
}

// How many members stand from one row up to another.
pub fn member_count(shapes: &[u64], from: usize, end: usize) -> usize
    requires { SomeStand shapes.now from end }
    ensures counted { (p : List ℕ) (fs : Fields) → FieldsStand shapes.now p from end fs → result ≡ field_count fs }
{
    let mut row = from;
    let mut count: usize = 0;
    // rows differ in size: no iterator of std's walks them
    while row < end {
        count += 1;
        row += (shapes[row] / 128) as usize;
    }
    count
}
