// A value of a node table and a pool as plain JSON: how long it is, and writing it.
#![tactic(auto)]

ghost use Rattle.std.specs.Prelude.{◌≡◌, List, ℕ, ◌+◌, ◌%◌, ◌≤◌, ◌<◌, length, get_or};
ghost use Rattle.definitions.specs.Value.{Value};
ghost use Rattle.definitions.specs.Plain.{plain};
ghost use Rattle.definitions.specs.Operations.{to_write, deliver};
ghost use Rattle.text.specs.Writes.{Writes};
ghost use Rattle.plain.specs.Table.{BoundedNumbers, Holds, Held, SomeValueStands, Writable, WritesValue, WritesFront};
ghost use Rattle.plain.specs.Parts.{comma, WritableText, WritesText, WritableLabel, WritesLabel, WritableParts, WritesParts};

use definitions::Answer;

// How long the value at a row is as plain JSON, so that a short output shows before a byte is written.
fn written_length(nodes: &[u64], at: usize) -> usize
    ensures measured { (p : List ℕ) (v : Value) → SomeValueStands nodes.now p at v → BoundedNumbers v → result ≡ length (plain v) }
{
    nodes::row_written(nodes, at)
}

// Writes a literal name.
pub fn write_bytes(out: &mut [u8], at: usize, name: &[u8]) -> usize
    requires { at + length name.now ≤ length out.old }
    ensures written { Writes out.old out.new at name.now result }
{
    let end = at + name.len();
    out[at..end].copy_from_slice(name);
    end
}

// Writes the text of the pool at a reference.
fn write_reference(out: &mut [u8], at: usize, pool: &[u64], k: u64) -> usize
    requires { WritableText pool.now k out.old at }
    ensures written { WritesText pool.now k out.old out.new at result }
{
    text::write_text(out, at, pool, nodes::text_word(k), nodes::text_bytes(k))
}

// Writes a comma, unless a part is the first.
fn write_comma(out: &mut [u8], at: usize, later: bool) -> usize
    requires { at + length (comma later) ≤ length out.old }
    ensures written { Writes out.old out.new at (comma later) result }
{
    if later {
        out[at] = b',';
        return at + 1;
    }
    at
}

// Writes what stands before the value at a row: a comma, unless it is the first; if named, its name and a colon.
fn write_label(
    out: &mut [u8],
    at: usize,
    nodes: &[u64],
    row: usize,
    pool: &[u64],
    later: bool,
    named: bool,
) -> usize
    requires { WritableLabel nodes.now pool.now later named row out.old at }
    ensures written { WritesLabel nodes.now pool.now later named row out.old out.new at result }
{
    let j = write_comma(out, at, later);
    if named {
        let end = write_reference(out, j, pool, nodes[row + 2]);
        out[end] = b':';
        return end + 1;
    }
    j
}

// Writes a value that holds no others.
fn write_single(out: &mut [u8], at: usize, nodes: &[u64], row: usize, pool: &[u64]) -> usize
    requires writable { Writable nodes.now pool.now row out.old at }
    requires single { get_or nodes.now row 0 % 8 < 5 }
    ensures written { WritesValue nodes.now pool.now row out.old out.new at result }
{
    match nodes::row_kind(nodes, row) {
        nodes::NULL => write_bytes(out, at, &nodes::NULL_NAME),
        nodes::FALSE => write_bytes(out, at, &nodes::FALSE_NAME),
        nodes::TRUE => write_bytes(out, at, &nodes::TRUE_NAME),
        nodes::NUMBER => {
            let negative = nodes::row_negative(nodes, row);
            let coefficient = nodes::row_payload(nodes, row);
            number::write_number(out, at, negative, coefficient, nodes::row_scale(nodes, row))
        }
        _ => write_reference(out, at, pool, nodes::row_payload(nodes, row)),
    }
}

// Writes the elements or members whose rows stand from a row up to an end, with commas between them.
#[cycle(write_at_write_parts)]
fn write_parts(
    out: &mut [u8],
    at: usize,
    nodes: &[u64],
    row: usize,
    end: usize,
    pool: &[u64],
    named: bool,
) -> usize
    requires { WritableParts nodes.now pool.now named row end out.old at }
    ensures written { WritesParts nodes.now pool.now named row end out.old out.new at result }
{
    let mut i = row;
    let mut j = at;
    while i < end {
        j = write_label(out, j, nodes, i, pool, row < i, named);
        j = write_at(out, j, nodes, i, pool);
        i += nodes::row_size_in(nodes, i);
    }
    j
}

// Writes the value at a row from a place on, and answers the place behind it.
#[cycle(write_at_write_parts)]
fn write_at(out: &mut [u8], at: usize, nodes: &[u64], row: usize, pool: &[u64]) -> usize
    requires { Writable nodes.now pool.now row out.old at }
    ensures written { WritesValue nodes.now pool.now row out.old out.new at result }
{
    let kind = nodes::row_kind(nodes, row);
    if kind < nodes::LIST {
        return write_single(out, at, nodes, row, pool);
    }
    let end = row + nodes::row_size(nodes, row);
    if kind == nodes::LIST {
        out[at] = b'[';
        let j = write_parts(out, at + 1, nodes, row + 3, end, pool, false);
        out[j] = b']';
        return j + 1;
    }
    out[at] = b'{';
    let j = write_parts(out, at + 1, nodes, row + 3, end, pool, true);
    out[j] = b'}';
    j + 1
}

// Writes the value at the first row at the front of the output, and answers its length.
fn write_value(out: &mut [u8], nodes: &[u64], pool: &[u64]) -> usize
    requires { Writable nodes.now pool.now 0 out.old 0 }
    ensures written { WritesFront nodes.now pool.now out.old out.new result }
{
    write_at(out, 0, nodes, 0, pool)
}

// The end of an operation that writes the value at the first row: refusal 15, or the bytes at the front of the output.
pub fn deliver(output: &mut [u8], nodes: &[u64], pool: &[u64], steps: usize) -> Answer
    requires { Held nodes.now pool.now }
    ensures answered { (v : Value) → Holds nodes.now pool.now 0 v
        → result ≡ (deliver output.old (to_write (plain v) steps)).answer }
    ensures kept { (v : Value) → Holds nodes.now pool.now 0 v
        → output.new ≡ (deliver output.old (to_write (plain v) steps)).output }
{
    let needed = written_length(nodes, 0);
    if output.len() < needed {
        return answers::output_short(needed);
    }
    let length = write_value(output, nodes, pool);
    answers::written(length, steps)
}
