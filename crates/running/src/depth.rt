// How deep a result is nested.
ghost use Rattle.std.specs.Prelude.{◌≡◌, List, ℕ, ltb};
ghost use Rattle.definitions.specs.Value.{Value, nesting};
ghost use Rattle.nodes.specs.Standing.{ValueStands};
ghost use Rattle.running.specs.Depth.{SomeValue};

// Whether the value at a row is nested deeper than so much.
pub fn is_deep(nodes: &[u64], at: usize, left: usize) -> bool
    requires { SomeValue nodes.now at }
    ensures told { (p : List ℕ) (m : ℕ) (v : Value) → ValueStands nodes.now p at m v → result ≡ ltb left (nesting v) }
{
    if left == 0 {
        return true;
    }
    if nodes::row_kind(nodes, at) < nodes::LIST {
        return false;
    }
    let end = at + nodes::row_size(nodes, at);
    let mut i = at + 3;
    while i < end {
        if is_deep(nodes, i, left - 1) {
            return true;
        }
        i += nodes::row_size(nodes, i); // a row tells where the next begins
    }
    false
}
