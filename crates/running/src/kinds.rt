// The kinds that forms want.
ghost use Rattle.std.specs.Prelude.{◌≡◌, List, ℕ};
ghost use Rattle.definitions.specs.Value.{Value};
ghost use Rattle.definitions.specs.Shape.{among};
ghost use Rattle.definitions.specs.Admits.{kind_of};
ghost use Rattle.definitions.specs.Reader.{Test, Result};
ghost use Rattle.definitions.specs.Checking.{list_kinds, test_kinds};
ghost use Rattle.forms.specs.Forms.{test_code, form_code};
ghost use Rattle.running.specs.Bindings.{Bound};
ghost use Rattle.running.specs.Kinds.{wanted};

// The codes of the tests of `when`.
const BOOL: u64 = 1;

const INT: u64 = 2;

const NUM: u64 = 3;

const TEXT: u64 = 4;

// Whether the value at a row is of the kinds that the test of a code means.
pub fn is_kind(nodes: &[u64], at: usize, test: u64) -> bool
    ensures told { (p : List ℕ) (v : Value) (k : Test) → Bound nodes.now p at v → test_code k ≡ test
        → result ≡ among (kind_of v) (test_kinds k) }
{
    match nodes::row_kind(nodes, at) {
        nodes::NUMBER if test == INT => nodes::row_is_int(nodes, at),
        nodes::NUMBER => test == NUM,
        nodes::TRUE => test == BOOL,
        kind => kind == test, // the other codes are the same
    }
}

// Whether the value at a row is a list or null.
fn is_list(nodes: &[u64], at: usize) -> bool
    ensures told { (p : List ℕ) (v : Value) → Bound nodes.now p at v → result ≡ among (kind_of v) list_kinds }
{
    match nodes::row_kind(nodes, at) {
        nodes::NULL => true,
        kind => kind == nodes::LIST,
    }
}

// Whether the form of a code is not stuck on the value at a row.
pub fn is_wanted(nodes: &[u64], at: usize, code: u64) -> bool
    ensures told { (p : List ℕ) (v : Value) (form : Result) → Bound nodes.now p at v → form_code form ≡ code
        → result ≡ wanted form v }
{
    match code {
        forms::INT => is_kind(nodes, at, INT),
        forms::DEC => is_kind(nodes, at, NUM),
        forms::BOOL => is_kind(nodes, at, BOOL),
        forms::TEXT => is_kind(nodes, at, TEXT),
        forms::COUNT | forms::EACH => is_list(nodes, at),
        _ => true,
    }
}
