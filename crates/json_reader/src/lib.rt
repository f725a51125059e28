// JSON documents (RFC 8259), read into a node table: one row a value, in preorder, its texts in a pool.
#![tactic(auto)]

ghost use Rattle.json_reader.specs.JsonRead.{Tables, ReadsDocument};

mod name; // names of members
mod packed; // what reading a value comes to, as a word
mod parts; // what comes behind brackets and parts
mod scalar; // values that hold no others
mod space; // between tokens
mod value; // values, lists and records

use definitions::Limits;
use reading::{Cause, Cursor, Extent, Refusal};
use scalar::Room;

// Reads a document: white space, a value, white space, and the end. Its rows go into the node table, its texts into the pool
// from word `top` on: the words before it hold another text's.
pub fn read_document(
    doc: &[u8],
    nodes: &mut [u64],
    pool: &mut [u64],
    top: usize,
    limits: Limits,
) -> Result<Extent, Refusal>
    requires { Tables doc.now nodes.old pool.old top limits.values }
    ensures read { ReadsDocument limits doc.now nodes.old pool.old nodes.new pool.new top result }
{
    let start = Cursor {
        at: 0,
        begun: 0,
        top, // behind the other text's
    };
    let room = Room {
        values: limits.values,
        left: limits.nesting,
    };
    let r = value::read_value(doc, nodes, pool, room, start, 0);
    let to = packed::opened(r)?;
    let end = space::skip_white(doc, to.at);
    if end < doc.len() {
        return Err(Refusal {
            cause: Cause::JsonSyntax,
            place: end,
        });
    }
    Ok(Extent {
        words: 3 * to.begun,
        top: to.top,
    })
}
