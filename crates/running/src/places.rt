// The values of places: rows of the document's table.
ghost use Rattle.std.specs.Prelude.{List, ℕ};
ghost use Rattle.definitions.specs.Bytes.{Bytes};
ghost use Rattle.definitions.specs.Value.{Members};
ghost use Rattle.definitions.specs.Running.{member_of};
ghost use Rattle.nodes.specs.Nodes.{Refers};
ghost use Rattle.running.specs.Bindings.{Bound};
ghost use Rattle.running.specs.Members.{RecordAt, SomeRecord};
ghost use Rattle.running.specs.Walk.{PlaceReady, SeesPlace, OperandReady, SeesOperand};

use crate::going::{At, Cursor, Tables};
use crate::kinds::is_wanted;
use reading::{Cause, Refusal};

// The row of the member of a name in the record at a row, or past the table's end where it is missing.
fn find_member(nodes: &[u64], at: usize, pool: &[u64], name: u64) -> usize
    requires { SomeRecord nodes.now pool.now at }
    ensures found { (p : List ℕ) (ms : Members) (n : Bytes) → RecordAt nodes.now pool.now at p ms → Refers p n name
        → Bound nodes.now p result (member_of n ms) }
{
    let end = at + nodes::row_size(nodes, at);
    let w = nodes::text_word(name);
    let n = pool::held(pool, w, nodes::text_bytes(name));
    let mut i = at + 3;
    while i < end {
        let k = nodes[i + 2];
        if pool::same_held(pool, w, n, nodes::text_word(k), nodes::text_bytes(k)) {
            return i;
        }
        i += nodes::row_size_in(nodes, i); // a row tells where the next begins
    }
    nodes.len() // where the table reads as null, which a missing member is
}

// Runs the place at a row: each form is entered before the one inside it, and stuck behind it.
pub fn run_place(t: &Tables, row: usize, bindings: &[u64], steps: usize) -> Result<At, Refusal>
    requires { PlaceReady t.now.forms.now t.now.nodes.now t.now.pool.now bindings.now t.now.limit row steps }
    ensures seen { SeesPlace t.now.forms.now t.now.nodes.now t.now.pool.now bindings.now t.now.limit row steps result }
{
    if t.limit <= steps {
        return Err(Refusal {
            cause: Cause::StepLimit,
            place: forms::place(t.forms, row),
        });
    }
    let payload = forms::payload(t.forms, row);
    if forms::code(t.forms, row) == forms::IT {
        return Ok(At {
            row: bindings[payload as usize] as usize,
            steps: steps + 1,
        });
    }
    let part = run_place(t, row + 3, bindings, steps + 1);
    let Ok(inner) = part else {
        return part;
    };
    let kind = nodes::row_kind(t.nodes, inner.row);
    if kind == nodes::NULL {
        return Ok(inner); // on null it reads null
    }
    if kind != nodes::RECORD {
        return Err(Refusal {
            cause: Cause::Stuck,
            place: forms::place(t.forms, row),
        });
    }
    Ok(At {
        row: find_member(t.nodes, inner.row, t.pool, payload),
        ..inner
    })
}

// Runs the place of the form at a row, which is then judged stuck or not on its value.
pub fn run_operand(t: &Tables, bindings: &[u64], c: Cursor, steps: usize) -> Result<At, Refusal>
    requires { OperandReady t.now.forms.now t.now.nodes.now t.now.pool.now bindings.now t.now.limit c.row c.bound steps }
    ensures seen { SeesOperand t.now.forms.now t.now.nodes.now t.now.pool.now bindings.now t.now.limit c.row
        c.bound steps result }
{
    let part = run_place(t, c.row + 3, bindings, steps);
    let Ok(found) = part else {
        return part;
    };
    if is_wanted(t.nodes, found.row, forms::code(t.forms, c.row)) {
        return Ok(found);
    }
    Err(Refusal {
        cause: Cause::Stuck,
        place: forms::place(t.forms, c.row),
    })
}
