// The kinds that a value gives a shape.
ghost use Rattle.std.specs.Prelude.{◌≡◌, true, false, List, ℕ, ◌<◌};
ghost use Rattle.definitions.specs.Value.{Value};
ghost use Rattle.definitions.specs.Join.{shape_of};
ghost use Rattle.nodes.specs.Nodes.{kind_code};
ghost use Rattle.nodes.specs.Standing.{ValueStands};
ghost use Rattle.plain.specs.Table.{BoundedNumbers};
ghost use Rattle.shapes.specs.Shapes.{kind_bits};

use shapes::Shape;

// The kinds of a number: a decimal has int and dec.
fn number_kinds(int: bool) -> Shape
    ensures told { result.kinds ≡ elim int [ true ↦ 4 | false ↦ 12 ] }
{
    if int {
        Shape::INT
    } else {
        Shape::INT.union(Shape::DEC)
    }
}

// The kinds of a value that holds no others.
pub fn scalar_kinds(nodes: &[u64], at: usize) -> Shape
    ensures told { (p : List ℕ) (k : ℕ) (v : Value) → ValueStands nodes.now p at k v → BoundedNumbers v → kind_code v < 5
        → result.kinds ≡ kind_bits (shape_of v) }
{
    match nodes::row_kind(nodes, at) {
        nodes::NULL => Shape::NULL,
        nodes::NUMBER => number_kinds(nodes::row_is_int(nodes, at)),
        nodes::TEXT => Shape::TEXT,
        _ => Shape::BOOL,
    }
}
