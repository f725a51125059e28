// Values that hold no others: texts, literal names and numbers.
ghost use Rattle.std.specs.Prelude.{◌≡◌, ℕ, ◌+◌, ◌*◌, ◌≤◌, ◌<◌, List, length, get_or};
ghost use Rattle.definitions.specs.Json.{Gap};
ghost use Rattle.definitions.specs.Plain.{plain_number};
ghost use Rattle.json_reader.specs.JsonParts.{JudgesFull, Matches, Literal, TablePlaced, Ready, Reads, answer_of, AsRead, PutsNumber, NoRow, ScalarByte};
ghost use Rattle.number.specs.NumberRead.{number_in};
ghost use Rattle.number.specs.NumberWrite.{Bounded};

use crate::packed::{done, refused};
use crate::space::peek;
use nodes::{FALSE_NAME, NULL_NAME, TRUE_NAME};
use number::NumberRead;
use reading::{Cause, Cursor};

// What the limits leave: how many values may begin, and how deep the next ones may nest.
#[derive(Clone, Copy)]
pub struct Room {
    pub values: usize,
    pub left: usize,
}

impl Room {
    // Whether a value that begins here is one too many or too deep: refusal 6.
    pub fn is_full(self, begun: usize) -> bool
        ensures judged { JudgesFull self.values self.left begun result }
    {
        begun >= self.values || self.left == 0
    }
}

// How many bytes of a literal name stand at a place.
fn matching(doc: &[u8], at: usize, name: &[u8]) -> usize
    requires { at ≤ length doc.now }
    ensures matched { Matches doc.now at name.now result }
{
    for (i, b) in name.iter().enumerate() {
        if peek(doc, at + i) != *b as usize {
            return i;
        }
    }
    name.len()
}

// Reads a value of this kind by its literal name, whose first byte stands here.
fn read_literal(
    doc: &[u8],
    nodes: &mut [u64],
    room: Room,
    c: Cursor,
    name: u64,
    literal: &[u8],
    kind: u64,
) -> u64
    requires { TablePlaced doc.now nodes.old room.values c × Literal literal.now kind × (get_or doc.now c.at 256 ≡ get_or literal.now 0 256) }
    ensures read { (pool : List ℕ)
        → Reads Gap.value c.begun room.left room.values doc.now nodes.old pool nodes.new pool name c (answer_of result) }
{
    if room.is_full(c.begun) {
        return refused(Cause::ValueLimit, c.at);
    }
    let k = matching(doc, c.at, literal);
    if k < literal.len() {
        return refused(Cause::JsonSyntax, c.at + k);
    }
    nodes::put_row(nodes, 3 * c.begun, nodes::head_word(kind, 0, k), 0, name);
    done(Cursor {
        at: c.at + k,
        begun: c.begun + 1,
        ..c
    })
}

// Reads a text, whose opening quote stands here.
fn read_text_value(
    doc: &[u8],
    nodes: &mut [u64],
    pool: &mut [u64],
    room: Room,
    c: Cursor,
    name: u64,
) -> u64
    requires { Ready doc.now nodes.old pool.old room.values c × (get_or doc.now c.at 256 ≡ 0x22) }
    ensures read { Reads Gap.value c.begun room.left room.values doc.now nodes.old pool.old nodes.new
        pool.new name c (answer_of result) }
{
    if room.is_full(c.begun) {
        return refused(Cause::ValueLimit, c.at);
    }
    match text::read_text(doc, c.at + 1, pool, c.top) {
        Ok(read) => {
            let reference = nodes::text_reference(c.top, read.length);
            let head = nodes::head_word(nodes::TEXT, 0, read.written);
            nodes::put_row(nodes, 3 * c.begun, head, reference, name);
            done(Cursor {
                at: read.end,
                begun: c.begun + 1,
                top: c.top + (read.length + 7) / 8,
            })
        }
        Err(place) => refused(Cause::JsonSyntax, place),
    }
}

// How long a number is as plain JSON: as it was read, but for a zero, whose minus goes.
fn written_length(at: usize, x: NumberRead) -> usize
    requires { Bounded (number_in x) × AsRead at x }
    ensures { result ≡ length (plain_number (number_in x)) }
{
    if x.coefficient == 0 {
        return number::number_length(x.negative, x.coefficient, x.scale);
    }
    x.end - at
}

// Puts the row of a number that refusals 4 and 6 are not for.
fn put_number(nodes: &mut [u64], c: Cursor, name: u64, x: NumberRead) -> u64
    requires row { (3 * c.begun + 3 ≤ length nodes.old) × (c.begun < 32768) × Bounded (number_in x) × AsRead c.at x }
    requires packed { (x.end ≤ 65536) × (c.top < 65536) }
    ensures put { PutsNumber nodes.old nodes.new c name x result }
{
    let bits = nodes::number_bits(x.negative, x.scale);
    let written = written_length(c.at, x);
    let head = nodes::head_word(nodes::NUMBER, bits, written);
    nodes::put_row(nodes, 3 * c.begun, head, x.coefficient, name);
    done(Cursor {
        at: x.end,
        begun: c.begun + 1,
        ..c
    })
}

// Reads a number, or refuses where no value begins.
fn read_number_value(doc: &[u8], nodes: &mut [u64], room: Room, c: Cursor, name: u64) -> u64
    requires { TablePlaced doc.now nodes.old room.values c × NoRow (get_or doc.now c.at 256) }
    ensures read { (pool : List ℕ)
        → Reads Gap.value c.begun room.left room.values doc.now nodes.old pool nodes.new pool name c (answer_of result) }
{
    let x = number::read_number(doc, c.at);
    if x.end == c.at {
        return refused(Cause::JsonSyntax, c.at);
    }
    let full = room.is_full(c.begun);
    if x.complete {
        if x.beyond {
            return refused(Cause::NumberLimit, c.at);
        }
        if full {
            return refused(Cause::ValueLimit, c.at);
        }
        return put_number(nodes, c, name, x);
    }
    if full {
        return refused(Cause::ValueLimit, c.at);
    }
    refused(Cause::JsonSyntax, x.end)
}

// Reads a value that is no list and no record, from its first byte on.
pub fn read_scalar(
    doc: &[u8],
    nodes: &mut [u64],
    pool: &mut [u64],
    room: Room,
    c: Cursor,
    name: u64,
) -> u64
    requires { Ready doc.now nodes.old pool.old room.values c × ScalarByte (get_or doc.now c.at 256) }
    ensures read { Reads Gap.value c.begun room.left room.values doc.now nodes.old pool.old nodes.new
        pool.new name c (answer_of result) }
{
    let b = peek(doc, c.at);
    if b == 0x22 {
        return read_text_value(doc, nodes, pool, room, c, name);
    }
    if b == 0x74 {
        return read_literal(doc, nodes, room, c, name, &TRUE_NAME, nodes::TRUE);
    }
    if b == 0x66 {
        return read_literal(doc, nodes, room, c, name, &FALSE_NAME, nodes::FALSE);
    }
    if b == 0x6E {
        return read_literal(doc, nodes, room, c, name, &NULL_NAME, nodes::NULL);
    }
    read_number_value(doc, nodes, room, c, name)
}
