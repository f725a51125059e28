// Null for the members of a shape whose names are not among others: those of a record's members or of a pack's results.
ghost use Rattle.std.specs.Prelude.{◌≡◌, true, List, ℕ, Bool};
ghost use Rattle.definitions.specs.Bytes.{Bytes};
ghost use Rattle.nodes.specs.Nodes.{Refers};
ghost use Rattle.plain.specs.Table.{Used};
ghost use Rattle.growing.specs.Rows.{Room, SomeNames, ListedHeld, NullsListed, Nullable, Nulls};

use shapes::Shape;

// Names that stand in a table.
pub trait Names {
    ghost there: { Self → List ℕ → (Bytes → Bool) → Type 0 };

    // Whether one of them is that of a reference.
    fn has(&self, pool: &[u64], name: u64) -> bool
        requires { SomeNames (there self.now) pool.now }
        ensures { (p : List ℕ) (n : Bytes) (among : Bytes → Bool) → Used pool.now p → Refers p n name → there self.now p among
            → result ≡ among n };
}

// Adds null to the member at a row, if its name is not among these.
fn null_member<N: Names>(shapes: &mut [u64], used: usize, row: usize, names: &N, pool: &[u64])
    requires listed_held { ListedHeld (N.there names.now) shapes.old pool.now used row }
    requires room { Room shapes.old used }
    ensures nulled { NullsListed (N.there names.now) shapes.old pool.now shapes.new used row }
{
    if !names.has(pool, shapes::name(shapes, row)) {
        crate::raise(shapes, row, Shape::NULL, 0);
    }
}

// Adds null to the members whose names are not among these.
pub fn null_lacked<N: Names>(
    shapes: &mut [u64],
    used: usize,
    first: usize,
    last: usize,
    names: &N,
    pool: &[u64],
)
    requires nullable { Nullable (N.there names.now) shapes.old pool.now used first last }
    requires room { Room shapes.old used }
    ensures nulled { Nulls (N.there names.now) shapes.old pool.now shapes.new used first last true }
{
    let mut row = first;
    while row < last {
        null_member(shapes, used, row, names, pool);
        row += shapes::size(shapes, row);
    }
}
