// Values, lists and records: the value reader calls the list and the record reader, which call it back; the nesting left falls.
ghost use Rattle.std.specs.Prelude.{suc, ◌<◌};
ghost use Rattle.definitions.specs.Json.{Gap};
ghost use Rattle.json_reader.specs.JsonParts.{Ready, Reads, answer_of};

use crate::name::read_name;
use crate::packed::{opened, refused};
use crate::parts::{Bracket, first_part, next_part};
use crate::scalar::{Room, read_scalar};
use crate::space::{peek, skip_white};
use reading::{Cause, Cursor};
use std::ops::ControlFlow;

// Reads the rest of a list from behind its bracket, with this room inside; its row is the next one.
#[cycle(read_list_read_record_read_value)]
fn read_list(
    doc: &[u8],
    nodes: &mut [u64],
    pool: &mut [u64],
    room: Room,
    c: Cursor,
    name: u64,
) -> u64
    requires { Ready doc.now nodes.old pool.old room.values c × (c.begun < room.values) }
    ensures read { Reads Gap.first_item (suc c.begun) (suc room.left) room.values doc.now nodes.old pool.old
        nodes.new pool.new name c (answer_of result) }
{
    let mut turn = first_part(doc, nodes, c, Bracket::Square, name);
    loop {
        match turn {
            ControlFlow::Continue(part) => {
                let r = read_value(doc, nodes, pool, room, part.from, 0);
                let Ok(to) = opened(r) else {
                    return r;
                };
                let length = nodes::row_written(nodes, 3 * part.from.begun);
                let total = part.written + length + 1;
                turn = next_part(doc, nodes, c, Bracket::Square, name, to, total);
            }
            ControlFlow::Break(answer) => return answer,
        }
    }
}

// Reads the rest of a record from behind its brace, with this room inside; its row is the next one.
#[cycle(read_list_read_record_read_value)]
fn read_record(
    doc: &[u8],
    nodes: &mut [u64],
    pool: &mut [u64],
    room: Room,
    c: Cursor,
    name: u64,
) -> u64
    requires { Ready doc.now nodes.old pool.old room.values c × (c.begun < room.values) }
    ensures read { Reads Gap.first_name (suc c.begun) (suc room.left) room.values doc.now nodes.old pool.old
        nodes.new pool.new name c (answer_of result) }
{
    let mut turn = first_part(doc, nodes, c, Bracket::Curly, name);
    let mut seen: u64 = 0;
    loop {
        match turn {
            ControlFlow::Continue(part) => {
                let first = c.begun + 1;
                match read_name(doc, nodes, pool, first, part.from, seen) {
                    Ok(named) => {
                        seen = named.seen;
                        let r = read_value(doc, nodes, pool, room, named.to, named.word);
                        let Ok(to) = opened(r) else {
                            return r;
                        };
                        let length = nodes::row_written(nodes, 3 * named.to.begun);
                        let total = part.written + named.written + length + 2;
                        turn = next_part(doc, nodes, c, Bracket::Curly, name, to, total);
                    }
                    Err(r) => return refused(r.cause, r.place),
                }
            }
            ControlFlow::Break(answer) => return answer,
        }
    }
}

// Reads a value that may begin at c, with this room, and puts its row under this name.
#[cycle(read_list_read_record_read_value)]
pub fn read_value(
    doc: &[u8],
    nodes: &mut [u64],
    pool: &mut [u64],
    room: Room,
    c: Cursor,
    name: u64,
) -> u64
    requires { Ready doc.now nodes.old pool.old room.values c }
    ensures read { Reads Gap.value c.begun room.left room.values doc.now nodes.old pool.old nodes.new
        pool.new name c (answer_of result) }
{
    let at = skip_white(doc, c.at);
    let Some(bracket) = Bracket::opened_by(peek(doc, at)) else {
        let from = Cursor { at, ..c };
        return read_scalar(doc, nodes, pool, room, from, name);
    };
    if room.is_full(c.begun) {
        return refused(Cause::ValueLimit, at);
    }
    let inside = Room {
        left: room.left - 1,
        ..room
    };
    let inner = Cursor { at: at + 1, ..c };
    match bracket {
        Bracket::Square => read_list(doc, nodes, pool, inside, inner, name),
        Bracket::Curly => read_record(doc, nodes, pool, inside, inner, name),
    }
}
