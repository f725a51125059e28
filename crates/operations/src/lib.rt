// The operations of the scope document on lent slices, at limits that are handed over: nothing is asked of what is lent or handed
// over, every answer is one of the definitions, and so is the output afterwards.
#![tactic(auto)]

ghost use Rattle.std.specs.Prelude.{◌≡◌, [], ◌∷◌, length};
ghost use Rattle.definitions.specs.Json.{read_json};
ghost use Rattle.definitions.specs.Operations.{plain_operation, infer_operation, join_operation, below_operation, admits_operation};
ghost use Rattle.definitions.specs.Operations.{check_operation, run_operation};
ghost use Rattle.definitions.specs.WorkSlices.{plain_slices, infer_slices, join_slices, below_slices, admits_slices, check_slices};
ghost use Rattle.definitions.specs.WorkSlices.{run_slices};

use definitions::{Answer, Format, Limits};

// Writes a document as plain JSON.
pub fn plain(
    limits: Limits,
    document: &[u8],
    output: &mut [u8],
    nodes: &mut [u64],
    pool: &mut [u64],
) -> Answer
    ensures answered { result ≡
        (plain_operation read_json (plain_slices limits) (length nodes.old ∷ length pool.old ∷ []) limits
        document.now output.old).answer }
    ensures written { output.new ≡
        (plain_operation read_json (plain_slices limits) (length nodes.old ∷ length pool.old ∷ []) limits
        document.now output.old).output }
{
    if let Err(cause) = slices::judge_document(limits, nodes.len(), pool.len()) {
        return answers::refusal(cause.number(), 0, 0);
    }
    perform::plain(Format::Json, document, output, nodes, pool, limits)
}

// Joins the shape of a document into a shape, and writes it.
pub fn infer(
    limits: Limits,
    shape: &[u8],
    document: &[u8],
    output: &mut [u8],
    shapes: &mut [u64],
    nodes: &mut [u64],
    pool: &mut [u64],
) -> Answer
    ensures answered { result ≡
        (infer_operation read_json (infer_slices limits)
        (length shapes.old ∷ length nodes.old ∷ length pool.old ∷ []) limits
        shape.now document.now output.old).answer }
    ensures written { output.new ≡
        (infer_operation read_json (infer_slices limits)
        (length shapes.old ∷ length nodes.old ∷ length pool.old ∷ []) limits
        shape.now document.now output.old).output }
{
    let judged = slices::judge_shape_document(limits, shapes.len(), nodes.len(), pool.len()); // a shape and a document
    if let Err(cause) = judged { // no sample is looked at
        return answers::refusal(cause.number(), 0, 0);
    }
    let rows = 2 * limits.values; // the table grows to the result, and not past 11
    perform::infer(
        Format::Json,
        shape,
        document,
        output,
        &mut shapes[..rows],
        nodes,
        pool,
        limits,
    )
}

// Joins two shapes, and writes the result.
pub fn join(
    limits: Limits,
    first: &[u8],
    second: &[u8],
    output: &mut [u8],
    shapes: &mut [u64],
    others: &mut [u64],
    pool: &mut [u64],
) -> Answer
    ensures answered { result ≡
        (join_operation (join_slices limits)
        (length shapes.old ∷ length others.old ∷ length pool.old ∷ []) limits
        first.now second.now output.old).answer }
    ensures written { output.new ≡
        (join_operation (join_slices limits)
        (length shapes.old ∷ length others.old ∷ length pool.old ∷ []) limits
        first.now second.now output.old).output }
{
    if let Err(cause) = slices::judge_two_shapes(limits, shapes.len(), others.len(), pool.len()) { // two shapes
        return answers::refusal(cause.number(), 0, 0);
    }
    let rows = 2 * limits.values; // as for infer
    perform::join(
        first,
        second,
        output,
        &mut shapes[..rows],
        others,
        pool,
        limits,
    )
}

// Whether a shape is below another.
pub fn below(
    limits: Limits,
    first: &[u8],
    second: &[u8],
    shapes: &mut [u64],
    others: &mut [u64],
    pool: &mut [u64],
) -> Answer
    ensures answered { result ≡
        below_operation (below_slices limits)
        (length shapes.old ∷ length others.old ∷ length pool.old ∷ []) limits
        first.now second.now }
{
    if let Err(cause) = slices::judge_two_shapes(limits, shapes.len(), others.len(), pool.len()) { // as for join
        return answers::refusal(cause.number(), 0, 0);
    }
    perform::below(first, second, shapes, others, pool, limits)
}

// Whether a shape admits a document.
pub fn admits(
    limits: Limits,
    shape: &[u8],
    document: &[u8],
    shapes: &mut [u64],
    nodes: &mut [u64],
    pool: &mut [u64],
) -> Answer
    ensures answered { result ≡
        admits_operation read_json (admits_slices limits)
        (length shapes.old ∷ length nodes.old ∷ length pool.old ∷ []) limits
        shape.now document.now }
{
    let judged = slices::judge_shape_document(limits, shapes.len(), nodes.len(), pool.len()); // as for infer
    if let Err(cause) = judged {
        return answers::refusal(cause.number(), 0, 0);
    }
    perform::admits(Format::Json, shape, document, shapes, nodes, pool, limits)
}

// Checks a reader against a shape, and writes the shape of what it gives.
pub fn check(
    limits: Limits,
    reader: &[u8],
    shape: &[u8],
    output: &mut [u8],
    forms: &mut [u64],
    shapes: &mut [u64],
    results: &mut [u64],
    bindings: &mut [u64],
    pool: &mut [u64],
) -> Answer
    ensures answered { result ≡
        (check_operation (check_slices limits)
        (length forms.old ∷ length shapes.old ∷ length results.old
        ∷ length bindings.old ∷ length pool.old ∷ []) limits
        reader.now shape.now output.old).answer }
    ensures written { output.new ≡
        (check_operation (check_slices limits)
        (length forms.old ∷ length shapes.old ∷ length results.old
        ∷ length bindings.old ∷ length pool.old ∷ []) limits
        reader.now shape.now output.old).output }
{
    let judged = slices::judge_reader_shape(
        limits,
        forms.len(),
        shapes.len(),
        results.len(),
        bindings.len(), // one for each level of the reader
        pool.len(),
    );
    if let Err(cause) = judged {
        return answers::refusal(cause.number(), 0, 0);
    }
    let read = slices::shape_words(limits, limits.bytes); // no shape that is read has more
    let rows = 2 * limits.values; // as for infer
    perform::check(
        reader,
        shape,
        output,
        forms,
        &mut shapes[..read],
        &mut results[..rows],
        bindings,
        pool,
        limits,
    )
}

// Runs a reader on a document, and writes what it gives as plain JSON.
pub fn run(
    limits: Limits,
    reader: &[u8],
    document: &[u8],
    output: &mut [u8],
    forms: &mut [u64],
    nodes: &mut [u64],
    results: &mut [u64],
    bindings: &mut [u64],
    pool: &mut [u64],
) -> Answer
    ensures answered { result ≡
        (run_operation read_json (run_slices limits)
        (length forms.old ∷ length nodes.old ∷ length results.old
        ∷ length bindings.old ∷ length pool.old ∷ []) limits
        reader.now document.now output.old).answer }
    ensures written { output.new ≡
        (run_operation read_json (run_slices limits)
        (length forms.old ∷ length nodes.old ∷ length results.old
        ∷ length bindings.old ∷ length pool.old ∷ []) limits
        reader.now document.now output.old).output }
{
    let judged = slices::judge_reader_document(
        limits,
        forms.len(),
        nodes.len(),
        results.len(),
        bindings.len(), // as for check
        pool.len(),
    );
    if let Err(cause) = judged {
        return answers::refusal(cause.number(), 0, 0);
    }
    let read = slices::value_words(limits, limits.bytes); // no document has more
    let rows = 3 * limits.values; // and no result
    perform::run(
        Format::Json,
        reader,
        document,
        output,
        forms,
        &mut nodes[..read],
        &mut results[..rows],
        bindings,
        pool,
        limits,
    )
}
