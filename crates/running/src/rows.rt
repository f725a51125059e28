// Rows of results: put behind each other; those for which the table has no room are counted and not put.
ghost use Rattle.std.specs.Prelude.{◌≡◌, List, ◌++◌, ℕ, ◌+◌, ◌-◌, ◌*◌, ◌^◌, ◌≤◌, ◌<◌, max, length, take, drop};
ghost use Rattle.definitions.specs.Bytes.{Bytes};
ghost use Rattle.definitions.specs.Value.{Value, Items, Members, count};
ghost use Rattle.definitions.specs.Plain.{plain_text};
ghost use Rattle.definitions.specs.Running.{items_of};
ghost use Rattle.nodes.specs.Nodes.{head_of};
ghost use Rattle.nodes.specs.RowLaws.{with_row};
ghost use Rattle.plain.specs.PlainLaws.{items_length, members_length};
ghost use Rattle.running.specs.Bindings.{Bound};
ghost use Rattle.running.specs.Rows.{PutRow, SomeBound, Keeps, EndsItems, ItemsAt, SomeItems, NameAt, SomeName, MembersAt, SomeMembers};
ghost use Rattle.running.specs.Rows.{ListClosable, ClosesList, RecordClosable, ClosesRecord};

// Puts the three words of a row as number `begun`.
pub fn put(results: &mut [u64], begun: usize, head: u64, payload: u64, name: u64) -> usize
    requires { begun < 2 ^ 60 }
    ensures put { PutRow results.old results.new begun head payload name result }
{
    if results.len() < 3 * begun + 3 {
        return begun + 1;
    }
    nodes::put_row(results, 3 * begun, head, payload, name);
    begun + 1
}

// Copies words of the document's table into the results. Not by `copy_from_slice`, which calls `memmove`: the archive for C needs no such name.
fn copy_words(results: &mut [u64], to: usize, nodes: &[u64], from: usize, count: usize)
    requires count_in_bounds { to + count ≤ length results.old }
    requires within { from + count ≤ length nodes.now }
    ensures copied { results.new
        ≡ take to results.old ++ take count (drop from nodes.now) ++ drop (to + count) results.old }
{
    for i in 0..count {
        results[to + i] = nodes[from + i];
    }
}

// Copies the value at a row of the document's table, under a name. Null is put: it may stand past the table's end.
pub fn keep(results: &mut [u64], begun: usize, nodes: &[u64], at: usize, name: u64) -> usize
    requires { SomeBound nodes.now at begun }
    ensures kept { Keeps nodes.now at results.old results.new begun name result }
{
    if nodes::row_kind(nodes, at) == nodes::NULL {
        return put(results, begun, nodes::head_word(nodes::NULL, 0, 4), 0, name);
    }
    let size = nodes::row_size(nodes, at);
    let to = begun + size / 3;
    if results.len() < 3 * begun + size {
        return to;
    }
    copy_words(results, 3 * begun, nodes, at, size);
    results[3 * begun + 2] = name;
    to
}

// Where the elements of the value at a row end, which begin behind its row; of null and all but a list there are none.
pub fn items_end(nodes: &[u64], at: usize) -> usize
    requires { SomeBound nodes.now at 0 }
    ensures told { (p : List ℕ) (v : Value) → Bound nodes.now p at v → EndsItems nodes.now p at v result }
{
    if nodes::row_kind(nodes, at) == nodes::LIST {
        return at + nodes::row_size(nodes, at);
    }
    at + 3
}

// How many elements the value at a row has.
pub fn count_items(nodes: &[u64], at: usize) -> u64
    requires { SomeBound nodes.now at 0 }
    ensures counted { (p : List ℕ) (v : Value) → Bound nodes.now p at v → result ≡ count (items_of v) }
{
    let end = items_end(nodes, at);
    let mut i = at + 3;
    let mut n: u64 = 0;
    while i < end {
        n += 1;
        i += nodes::row_size(nodes, i); // a row tells where the next begins
    }
    n
}

// How long the elements from a row up to an end are in plain JSON, each with a comma.
fn items_length(results: &[u64], row: usize, end: usize) -> usize
    requires { SomeItems results.now row end }
    ensures measured { (p : List ℕ) (vs : Items) → ItemsAt results.now row end p vs → result ≡ items_length vs }
{
    let mut i = row;
    let mut length: usize = 0;
    while i < end {
        length += 1 + nodes::row_written(results, i);
        i += nodes::row_size(results, i); // a row tells where the next begins
    }
    length
}

// How long the name of the value at a row is in plain JSON.
fn name_length(results: &[u64], row: usize, pool: &[u64]) -> usize
    requires { SomeName results.now pool.now row }
    ensures measured { (p : List ℕ) (n : Bytes) → NameAt results.now pool.now row p n → result ≡ length (plain_text n) }
{
    let k = nodes::row_name(results, row);
    text::text_length(pool, nodes::text_word(k), nodes::text_bytes(k))
}

// How long the members from a row up to an end are in plain JSON, each with its name, a colon and a comma. Beside `items_length`: one
// function with a closure for what a name adds would be no plainer.
fn members_length(results: &[u64], row: usize, end: usize, pool: &[u64]) -> usize
    requires { SomeMembers results.now pool.now row end }
    ensures measured { (p : List ℕ) (ms : Members) → MembersAt results.now pool.now row end p ms → result ≡ members_length ms }
{
    let mut i = row;
    let mut length: usize = 0;
    while i < end {
        length += 2 + name_length(results, i, pool) + nodes::row_written(results, i);
        i += nodes::row_size(results, i); // a row tells where the next begins
    }
    length
}

// Puts the row of the list or record whose parts' rows end at number `to`. With a comma each they are so long `inside` the brackets,
// one comma too many.
fn close(results: &mut [u64], begun: usize, to: usize, kind: u64, inside: usize, name: u64)
    requires later { begun < to }
    requires to_in_bounds { 3 * to ≤ length results.old }
    requires few { to < 2 ^ 60 }
    requires short { inside < 2 ^ 50 }
    requires coded { kind < 8 }
    ensures closed { results.new
        ≡ with_row results.old begun (head_of kind 0 (1 + max 1 inside)) (3 * (to - begun)) name }
{
    let written = 1 + inside.max(1);
    let head = nodes::head_word(kind, 0, written);
    let size = 3 * (to - begun);
    nodes::put_row(results, 3 * begun, head, size as u64, name);
}

// Puts the row of the list whose elements' rows end at number `to`.
pub fn close_list(results: &mut [u64], begun: usize, to: usize, name: u64)
    requires { ListClosable results.old begun to }
    ensures closed { ClosesList results.old results.new begun to name }
{
    if results.len() < 3 * to {
        return;
    }
    let length = items_length(results, 3 * begun + 3, 3 * to);
    close(results, begun, to, nodes::LIST, length, name);
}

// Puts the row of the record whose members' rows end at number `to`.
pub fn close_record(results: &mut [u64], begun: usize, to: usize, pool: &[u64], name: u64)
    requires { RecordClosable results.old pool.now begun to }
    ensures closed { ClosesRecord results.old results.new pool.now begun to name }
{
    if results.len() < 3 * to {
        return;
    }
    let length = members_length(results, 3 * begun + 3, 3 * to, pool);
    close(results, begun, to, nodes::RECORD, length, name);
}
