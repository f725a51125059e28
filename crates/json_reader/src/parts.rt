// The parts of a list or a record: what comes behind the opening bracket and behind each part.
ghost use Rattle.std.specs.Prelude.{◌≡◌, ℕ, ◌+◌, ◌*◌, ◌^◌, ◌≤◌, ◌<◌, List, length};
ghost use Rattle.nodes.specs.Nodes.{head_of};
ghost use Rattle.json_reader.specs.JsonParts.{Packs, TablePlaced, code_of, closing_of, OpenedBy, Turns, Closes, BehindReady, Goes_on};

use crate::packed::{done, refused};
use crate::space::{COMMA, peek, skip_white};
use reading::{Cause, Cursor};
use std::ops::ControlFlow;

// The brackets of a list, or of a record.
#[derive(Clone, Copy)]
pub enum Bracket {
    Square,
    Curly,
}

impl Bracket {
    // The brackets that a byte opens.
    pub fn opened_by(b: usize) -> Option<Bracket>
        ensures told { OpenedBy b result }
    {
        match b {
            0x5B => Some(Bracket::Square),
            0x7B => Some(Bracket::Curly),
            _ => None,
        }
    }

    // The kind of value, as its row tells it.
    fn kind(self) -> u64
        ensures { result ≡ code_of self }
    {
        match self {
            Bracket::Square => nodes::LIST,
            Bracket::Curly => nodes::RECORD,
        }
    }

    // The closing bracket.
    fn closing(self) -> usize
        ensures { result ≡ closing_of self }
    {
        match self {
            Bracket::Square => 0x5D,
            Bracket::Curly => 0x7D,
        }
    }
}

// A part that may begin at a place, where what stands before is so long in plain JSON.
#[derive(Clone, Copy)]
pub struct Part {
    pub from: Cursor,
    pub written: usize,
}

// What comes next: a part, or the answer.
pub type Turn = ControlFlow<u64, Part>;

// Puts the row of the list or record whose parts have been read up to `to`; it is that of value `begun`.
fn put_row_of(
    nodes: &mut [u64],
    begun: usize,
    bracket: Bracket,
    name: u64,
    to: Cursor,
    written: usize,
) -> u64
    requires rows { (begun ≤ to.begun) × (3 * begun + 3 ≤ length nodes.old) × (3 * to.begun < 2 ^ 60) }
    requires head { head_of (code_of bracket) 0 written < 2 ^ 64 }
    requires packed { Packs to }
    ensures closed { Closes nodes.old nodes.new begun bracket name to written result }
{
    let head = nodes::head_word(bracket.kind(), 0, written);
    let size = 3 * (to.begun - begun);
    nodes::put_row(nodes, 3 * begun, head, size as u64, name);
    done(to)
}

// Goes on behind an opening bracket, which stands before c; its row is the next one.
pub fn first_part(doc: &[u8], nodes: &mut [u64], c: Cursor, bracket: Bracket, name: u64) -> Turn
    requires { TablePlaced doc.now nodes.old (c.begun + 1) c }
    ensures entered { (seen left values : ℕ) (pool : List ℕ) → TablePlaced doc.now nodes.old values c → c.begun < values
        → Turns bracket seen left values doc.now nodes.old pool nodes.new pool name c result }
{
    let at = skip_white(doc, c.at);
    let from = Cursor {
        at,
        begun: c.begun + 1,
        ..c
    };
    if peek(doc, at) == bracket.closing() {
        let to = Cursor { at: at + 1, ..from };
        return ControlFlow::Break(put_row_of(nodes, c.begun, bracket, name, to, 2));
    }
    ControlFlow::Continue(Part { from, written: 1 })
}

// Goes on behind a part that ends at `to`, of the list or record that was opened at c.
pub fn next_part(
    doc: &[u8],
    nodes: &mut [u64],
    c: Cursor,
    bracket: Bracket,
    name: u64,
    to: Cursor,
    written: usize,
) -> Turn
    requires { BehindReady doc.now nodes.old c to written }
    ensures gone { Goes_on doc.now nodes.old nodes.new c bracket name to written result }
{
    // nearly always a comma, and right there
    if peek(doc, to.at) == COMMA {
        let from = Cursor {
            at: to.at + 1,
            ..to
        };
        return ControlFlow::Continue(Part { from, written });
    }
    let i = skip_white(doc, to.at);
    let b = peek(doc, i);
    let behind = Cursor { at: i + 1, ..to };
    if b == COMMA {
        return ControlFlow::Continue(Part {
            from: behind,
            written,
        });
    }
    if b == bracket.closing() {
        return ControlFlow::Break(put_row_of(nodes, c.begun, bracket, name, behind, written));
    }
    ControlFlow::Break(refused(Cause::JsonSyntax, i))
}
