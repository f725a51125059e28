// Results that are one value: of a place, a count, a literal.
ghost use Rattle.std.specs.Prelude.{◌≡◌, List, ℕ, ◌+◌, Ok};
ghost use Rattle.definitions.specs.Number.{Number};
ghost use Rattle.definitions.specs.Value.{Value};
ghost use Rattle.nodes.specs.Nodes.{head_word};
ghost use Rattle.running.specs.Bindings.{Bound};
ghost use Rattle.running.specs.Rows.{SomeBound};
ghost use Rattle.running.specs.Singles.{Giving, Gives, Wholes, Handed, Counts, NumberWord, SomeNumber, LiteralAt, SomeLiteral};

use crate::going::{Cursor, Done, Tables};
use crate::rows::{count_items, keep, put};

// Puts the value at a row of the document.
fn give_kept(t: &Tables, results: &mut [u64], at: usize, c: Cursor, steps: usize) -> Done
    requires giving { Giving t.now.limit c steps }
    requires there { SomeBound t.now.nodes.now at 0 }
    ensures given { Gives results.old results.new t.now.limit c steps (λ p v. Bound t.now.nodes.now p at v) (Ok result) }
{
    let kind = nodes::row_kind(t.nodes, at);
    let begun = keep(results, c.begun, t.nodes, at, c.name);
    Done { kind, begun, steps }
}

// The first word of the row of a number.
fn number_head(bits: u64, coefficient: u64) -> u64
    requires { SomeNumber bits coefficient }
    ensures made { (x : Number) → NumberWord bits coefficient x → result ≡ head_word (Value.number x) }
{
    let written = number::number_length(bits % 2 == 1, coefficient, bits / 2);
    nodes::head_word(nodes::NUMBER, bits, written)
}

// Puts the value at a row of the document without its fraction, if it has one.
fn give_int(t: &Tables, results: &mut [u64], at: usize, c: Cursor, steps: usize) -> Done
    requires giving { Giving t.now.limit c steps }
    requires there { SomeBound t.now.nodes.now at 0 }
    ensures given { Gives results.old results.new t.now.limit c steps (Wholes t.now.nodes.now at) (Ok result) }
{
    let scale = nodes::row_scale(t.nodes, at);
    if scale == 0 {
        return give_kept(t, results, at, c, steps);
    }
    let n = number::whole_part(nodes::row_payload(t.nodes, at), scale);
    let bits = nodes::number_bits(nodes::row_negative(t.nodes, at), 0);
    let begun = put(results, c.begun, number_head(bits, n), n, c.name);
    Done {
        kind: nodes::NUMBER,
        begun,
        steps,
    }
}

// Puts what a form of this code makes of the value at a row of the document: `int` takes its fraction, any other keeps it.
pub fn give_value(
    t: &Tables,
    results: &mut [u64],
    at: usize,
    code: u64,
    c: Cursor,
    steps: usize,
) -> Done
    requires giving { Giving t.now.limit c steps }
    requires there { SomeBound t.now.nodes.now at 0 }
    ensures given { Gives results.old results.new t.now.limit c steps (Handed t.now.nodes.now at code) (Ok result) }
{
    if code == forms::INT {
        return give_int(t, results, at, c, steps);
    }
    give_kept(t, results, at, c, steps)
}

// Puts how many elements the value at a row of the document has.
#[inline(always)]
pub fn give_count(t: &Tables, results: &mut [u64], at: usize, c: Cursor, steps: usize) -> Done
    requires giving { Giving t.now.limit c steps }
    requires there { SomeBound t.now.nodes.now at 0 }
    ensures given { Gives results.old results.new t.now.limit c steps (Counts t.now.nodes.now at) (Ok result) }
{
    let n = count_items(t.nodes, at);
    let begun = put(results, c.begun, number_head(0, n), n, c.name);
    Done {
        kind: nodes::NUMBER,
        begun,
        steps,
    }
}

// The first word of the row that the literal at a row comes to.
fn literal_head(forms: &[u64], row: usize, pool: &[u64]) -> u64
    requires { SomeLiteral forms.now pool.now row }
    ensures made { (p : List ℕ) (v : Value) → LiteralAt forms.now pool.now row p v → result ≡ head_word v }
{
    let payload = forms::payload(forms, row);
    match forms::code(forms, row) {
        forms::NUM => number_head(forms::operand(forms, row), payload),
        forms::STR => {
            let word = nodes::text_word(payload);
            let written = text::text_length(pool, word, nodes::text_bytes(payload));
            nodes::head_word(nodes::TEXT, 0, written)
        }
        forms::YES => nodes::head_word(nodes::TRUE, 0, 4),
        forms::NO => nodes::head_word(nodes::FALSE, 0, 5),
        _ => nodes::head_word(nodes::NULL, 0, 4),
    }
}

// Puts the literal at a row.
pub fn give_literal(t: &Tables, results: &mut [u64], c: Cursor) -> Done
    requires giving { Giving t.now.limit c (c.steps + 1) }
    requires there { SomeLiteral t.now.forms.now t.now.pool.now c.row }
    ensures given { Gives results.old results.new t.now.limit c (c.steps + 1)
        (λ p v. LiteralAt t.now.forms.now t.now.pool.now c.row p v) (Ok result) }
{
    let head = literal_head(t.forms, c.row, t.pool);
    let payload = forms::payload(t.forms, c.row);
    let begun = put(results, c.begun, head, payload, c.name);
    Done {
        kind: head % 8,
        begun,
        steps: c.steps + 1,
    }
}
