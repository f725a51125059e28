// The table of a document's values: three words a value, in preorder. The functions that read it are total: past its end
// stands 0.
#![tactic(auto)]

ghost use Rattle.std.specs.Prelude.{◌≡◌, List, ◌++◌, ◌∷◌, ℕ, ◌+◌, ◌*◌, ◌/◌, ◌%◌, ◌^◌, ◌≤◌, ◌<◌, eqb, length, get_or, take, drop};
ghost use Rattle.definitions.specs.Number.{Number, is_int};
ghost use Rattle.definitions.specs.Value.{Value, Members, has_name};
ghost use Rattle.pool.specs.Pool.{text_in};
ghost use Rattle.nodes.specs.Nodes.{head_of, number_bits, reference, row_size, sign_bit};
ghost use Rattle.nodes.specs.Standing.{NumberStands, MembersStand, MembersHeld, SomeMembers, member_count};

// The codes of the kinds, numbers as a row's first word holds them: an enum would be made of that word at every read.
pub const NULL: u64 = 0;

pub const FALSE: u64 = 1;

pub const TRUE: u64 = 2;

pub const NUMBER: u64 = 3;

pub const TEXT: u64 = 4;

pub const LIST: u64 = 5;

pub const RECORD: u64 = 6;

// The literal names, as they are read and written.
pub const NULL_NAME: [u8; 4] = *b"null";

pub const FALSE_NAME: [u8; 5] = *b"false";

pub const TRUE_NAME: [u8; 4] = *b"true";

// ---- a row's words

// The word at a place.
fn word(nodes: &[u64], i: usize) -> u64
    ensures read { result ≡ get_or nodes.now i 0 }
{
    nodes.get(i).copied().unwrap_or(0)
}

// The code of the kind of the value at a row.
pub fn row_kind(nodes: &[u64], row: usize) -> u64
    ensures read { result ≡ get_or nodes.now row 0 % 8 }
{
    word(nodes, row) % 8
}

// Whether the number at a row is negative.
pub fn row_negative(nodes: &[u64], row: usize) -> bool
    ensures read { result ≡ eqb (get_or nodes.now row 0 / 8 % 2) 1 }
{
    word(nodes, row) / 8 % 2 == 1
}

// The scale of the number at a row.
pub fn row_scale(nodes: &[u64], row: usize) -> u64
    ensures read { result ≡ get_or nodes.now row 0 / 16 % 16 }
{
    word(nodes, row) / 16 % 16
}

// Whether the number of this sign and scale and this coefficient is an int: as many of its last digits as the scale says are
// zeros. Of a decimal most often the first one asked for is none; without a fraction none is asked for.
pub fn is_int(bits: u64, coefficient: u64) -> bool
    ensures told { (x : Number) → bits ≡ number_bits (Value.number x) → coefficient ≡ x.coefficient → result ≡ is_int x }
{
    let mut digits = coefficient;
    for _ in 0..bits / 2 {
        if digits % 10 != 0 {
            return false;
        }
        digits /= 10;
    }
    true
}

// Whether the number at a row is an int.
pub fn row_is_int(nodes: &[u64], row: usize) -> bool
    ensures told { (x : Number) → NumberStands nodes.now row x → result ≡ is_int x }
{
    is_int(word(nodes, row) / 8 % 32, row_payload(nodes, row))
}

// How long the value at a row is as plain JSON.
pub fn row_written(nodes: &[u64], row: usize) -> usize
    ensures read { result ≡ get_or nodes.now row 0 / 256 }
{
    (word(nodes, row) / 256) as usize
}

// The payload of a row.
pub fn row_payload(nodes: &[u64], row: usize) -> u64
    ensures read { result ≡ get_or nodes.now (row + 1) 0 }
{
    if row < nodes.len() {
        word(nodes, row + 1)
    } else {
        0
    }
}

// Where the name of the value at a row stands.
pub fn row_name(nodes: &[u64], row: usize) -> u64
    ensures read { result ≡ get_or nodes.now (row + 2) 0 }
{
    if row < nodes.len() {
        row_payload(nodes, row + 1)
    } else {
        0
    }
}

// How many words the value at a row takes: of a list or a record its payload, of any other three.
pub fn row_size(nodes: &[u64], row: usize) -> usize
    ensures sized { result ≡ row_size nodes.now row }
{
    if TEXT < row_kind(nodes, row) {
        row_payload(nodes, row) as usize
    } else {
        3
    }
}

// The same of a row that is there.
pub fn row_size_in(nodes: &[u64], row: usize) -> usize
    requires { row + 1 < length nodes.now }
    ensures sized { result ≡ row_size nodes.now row }
{
    if TEXT < nodes[row] % 8 {
        nodes[row + 1] as usize
    } else {
        3
    }
}

// ---- words made and taken apart

// A number's sign and scale.
pub fn number_bits(negative: bool, scale: u64) -> u64
    requires { scale < 2 ^ 62 }
    ensures made { result ≡ sign_bit negative + 2 * scale }
{
    if negative { 1 + 2 * scale } else { 2 * scale }
}

// The first word of a row: kind, sign and scale, and the length as plain JSON.
pub fn head_word(kind: u64, bits: u64, written: usize) -> u64
    requires { head_of kind bits written < 2 ^ 64 }
    ensures made { result ≡ head_of kind bits written }
{
    kind + 8 * bits + 256 * (written as u64)
}

// Where a text stands in the pool: its first word and its length in bytes.
pub fn text_reference(w: usize, n: usize) -> u64
    requires { reference w n < 2 ^ 64 }
    ensures made { result ≡ reference w n }
{
    (w + 65536 * n) as u64
}

// The first word of the text of a reference.
pub fn text_word(reference: u64) -> usize
    ensures split { result ≡ reference % 65536 }
{
    (reference % 65536) as usize
}

// The length in bytes of the text of a reference.
pub fn text_bytes(reference: u64) -> usize
    ensures split { result ≡ reference / 65536 }
{
    (reference / 65536) as usize
}

// ---- members

// Whether one of the members whose rows stand from one row up to another has the name of a reference.
pub fn has_member(nodes: &[u64], at: usize, end: usize, pool: &[u64], name: u64) -> bool
    requires { MembersHeld nodes.now pool.now at end }
    ensures found { (p : List ℕ) (ms : Members) → take (length p) pool.now ≡ p → length p < 65536
        → MembersStand nodes.now p at end ms → result ≡ has_name (text_in pool.now (name % 65536) (name / 65536)) ms }
{
    let w = text_word(name);
    let n = pool::held(pool, w, text_bytes(name));
    let mut i = at;
    // a row says how many words it takes, and no iterator of std steps so
    while i < end {
        let k = nodes[i + 2];
        if pool::same_held(pool, w, n, text_word(k), text_bytes(k)) {
            return true;
        }
        i += row_size_in(nodes, i);
    }
    false
}

// How many members stand from one row up to another.
pub fn member_count(nodes: &[u64], at: usize, end: usize) -> usize
    requires { SomeMembers nodes.now at end }
    ensures counted { (p : List ℕ) (ms : Members) → MembersStand nodes.now p at end ms → result ≡ member_count ms }
{
    let mut i = at;
    let mut count: usize = 0;
    while i < end {
        count += 1;
        i += row_size_in(nodes, i);
    }
    count
}

// ---- rows put

// Puts the three words of a row.
pub fn put_row(nodes: &mut [u64], row: usize, head: u64, payload: u64, name: u64)
    requires { row + 3 ≤ length nodes.old }
    ensures put { nodes.new ≡ take row nodes.old ++ head ∷ payload ∷ name ∷ drop (row + 3) nodes.old }
{
    nodes[row] = head;
    nodes[row + 1] = payload;
    nodes[row + 2] = name;
}
