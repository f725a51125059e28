// A document of some format, judged and read into a node table behind the texts that the pool already has. A further format
// is one arm more here, and nothing above this crate knows of it.
#![tactic(auto)]

ghost use Rattle.std.specs.Prelude.{◌≤◌, length};
ghost use Rattle.definitions.specs.Json.{read_json};
ghost use Rattle.definitions.specs.Operations.{source};
ghost use Rattle.documents.specs.Documents.{DocumentRoom, JudgesDocument, ReadsAs};

use definitions::{Format, Limits};
use reading::{Cause, Extent, Refusal};

// Reads a JSON document that is short enough. It begins no more values than its bytes and what may be open pay for, and asks for
// room for no more.
fn read_json(
    document: &[u8],
    nodes: &mut [u64],
    pool: &mut [u64],
    top: usize,
    limits: Limits,
) -> Result<Extent, Refusal>
    requires document_room { DocumentRoom document.now nodes.old pool.old top limits }
    requires short { length document.now ≤ limits.bytes }
    ensures read { ReadsAs read_json limits document.now pool.old nodes.new pool.new top result }
{
    let few = slices::fewer(limits, (document.len() + limits.nesting) / 2);
    json_reader::read_document(document, nodes, pool, top, few)
}

// Judges a document, and reads it. One that is too long is not read.
pub fn read(
    format: Format,
    document: &[u8],
    nodes: &mut [u64],
    pool: &mut [u64],
    top: usize,
    limits: Limits,
) -> Result<Extent, Refusal>
    requires { DocumentRoom document.now nodes.old pool.old top limits }
    ensures judged { JudgesDocument (source format) limits document.now pool.old nodes.new pool.new
        top result }
{
    if limits.bytes < document.len() {
        return Err(Refusal {
            cause: Cause::TextTooLong,
            place: 0,
        });
    }
    match format {
        Format::Json => read_json(document, nodes, pool, top, limits),
    }
}
