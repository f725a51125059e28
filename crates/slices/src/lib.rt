// What goes before the texts of an operation: whether its limits are in range, and its work slices as long as published at them.
#![tactic(auto)]

ghost use Rattle.std.specs.Prelude.{◌≡◌, true, false, [], ◌∷◌, min, OnOk};
ghost use Rattle.definitions.specs.Limits.{set_of, in_range};
ghost use Rattle.definitions.specs.Operations.{slices_short};
ghost use Rattle.definitions.specs.Calls.{buffer_published};
ghost use Rattle.definitions.specs.WorkSlices.{shape_words, name_words, most_values, value_words, text_words, most_reader_forms, reader_texts};
ghost use Rattle.definitions.specs.WorkSlices.{for_document, for_shape_document, for_grown_document, for_two_shapes, for_grown_shapes};
ghost use Rattle.definitions.specs.WorkSlices.{for_reader_shape, for_reader_document};
ghost use Rattle.definitions.specs.WorkSlices.{plain_slices, infer_slices, join_slices, check_slices, run_slices};
ghost use Rattle.slices.specs.Small.{Small};
ghost use Rattle.slices.specs.Fewer.{with_values};
ghost use Rattle.slices.specs.Prelude.{before, Before};

use definitions::Limits;
use reading::Cause;

// The largest set, `standard` of the definitions.
pub const STANDARD: Limits = Limits {
    bytes: 16384,
    values: 512,
    nesting: 32,
    steps: 65536,
};

// Four numbers as a set, whatever they are.
pub fn set(bytes: u64, values: u64, nesting: u64, steps: u64) -> Limits
    ensures made { result ≡ set_of bytes values nesting steps }
{
    Limits {
        bytes: bytes as usize,
        values: values as usize,
        nesting: nesting as usize,
        steps: steps as usize,
    }
}

// Whether each limit is in its range.
#[tactic(auto, unfolding(definitions::specs::Limits::in_range))]
fn in_range(limits: Limits) -> bool
    ensures told { result ≡ in_range limits }
{
    matches!(
        limits,
        Limits {
            bytes: 1024..=16384,
            values: 16..=512,
            nesting: 4..=32,
            steps: 256..=65536,
        }
    )
}

// Limits for a text that can begin no more than so many values or forms.
pub fn fewer(limits: Limits, most: usize) -> Limits
    ensures made { result ≡ with_values limits (min limits.values most) }
{
    Limits {
        values: limits.values.min(most),
        ..limits
    }
}

// The words that the names of a shape text of so many bytes can take.
pub fn name_words(limits: Limits, bytes: usize) -> usize
    requires { Small limits }
    ensures counted { result ≡ name_words limits bytes }
{
    (limits.bytes.min(bytes) + 6) / 8
}

// The words that the forms of a shape text of so many bytes can take.
pub fn shape_words(limits: Limits, bytes: usize) -> usize
    requires { Small limits }
    ensures counted { result ≡ shape_words limits bytes }
{
    2 * limits.values.min((limits.bytes.min(bytes) + 6) / 7)
}

// The most values that are read of a document of so many bytes.
fn most_values(limits: Limits, bytes: usize) -> usize
    requires { Small limits }
    ensures counted { result ≡ most_values limits bytes }
{
    limits
        .values
        .min((limits.bytes.min(bytes) + limits.nesting) / 2)
}

// The words that the values of a document of so many bytes can take.
pub fn value_words(limits: Limits, bytes: usize) -> usize
    requires { Small limits }
    ensures counted { result ≡ value_words limits bytes }
{
    3 * most_values(limits, bytes)
}

// The words that the texts and names of a document of so many bytes can take.
fn text_words(limits: Limits, bytes: usize) -> usize
    requires { Small limits }
    ensures counted { result ≡ text_words limits bytes }
{
    (limits.bytes.min(bytes) + 8 * most_values(limits, bytes)).saturating_sub(2) / 8
}

// The most forms that are read of a reader of so many bytes.
pub fn most_reader_forms(limits: Limits, bytes: usize) -> usize
    requires { Small limits }
    ensures counted { result ≡ most_reader_forms limits bytes }
{
    let written = (limits.bytes.min(bytes) + 2) / 3;
    limits.values.min(written.max(1))
}

// The words that the names and texts of a reader of so many bytes can take.
fn reader_texts(limits: Limits, bytes: usize) -> usize
    requires { Small limits }
    ensures counted { result ≡ reader_texts limits bytes }
{
    (limits.bytes.min(bytes) + 5 * most_reader_forms(limits, bytes) + 6) / 8
}

// Whether one of some slices is shorter than asked for.
fn one_short<const N: usize>(asked: &[usize; N], lent: &[usize; N]) -> bool
    ensures told { result ≡ slices_short asked.now lent.now }
{
    asked.iter().zip(lent).any(|(least, n)| *n < *least)
}

// Whether a slice is short for a document of so many bytes.
pub fn document_short(limits: Limits, document: usize, nodes: usize, pool: usize) -> bool
    requires { Small limits }
    ensures told { result ≡ slices_short (for_document limits document) (nodes ∷ pool ∷ []) }
{
    one_short(
        &[value_words(limits, document), text_words(limits, document)],
        &[nodes, pool],
    )
}

// Whether a slice is short for a shape and a document of so many bytes.
pub fn shape_document_short(
    limits: Limits,
    shape: usize,
    document: usize,
    shapes: usize,
    nodes: usize,
    pool: usize,
) -> bool
    requires { Small limits }
    ensures told { result ≡ slices_short (for_shape_document limits shape document) (shapes ∷ nodes ∷ pool ∷ []) }
{
    let texts = name_words(limits, shape) + text_words(limits, document);
    one_short(
        &[
            shape_words(limits, shape),
            value_words(limits, document),
            texts,
        ],
        &[shapes, nodes, pool],
    )
}

// The same where the shape grows.
pub fn grown_document_short(
    limits: Limits,
    shape: usize,
    document: usize,
    shapes: usize,
    nodes: usize,
    pool: usize,
) -> bool
    requires { Small limits }
    ensures told { result ≡ slices_short (for_grown_document limits shape document) (shapes ∷ nodes ∷ pool ∷ []) }
{
    let texts = name_words(limits, shape) + text_words(limits, document);
    one_short(
        &[2 * limits.values, value_words(limits, document), texts],
        &[shapes, nodes, pool],
    )
}

// Whether a slice is short for two shapes of so many bytes.
pub fn two_shapes_short(
    limits: Limits,
    first: usize,
    second: usize,
    shapes: usize,
    others: usize,
    pool: usize,
) -> bool
    requires { Small limits }
    ensures told { result ≡ slices_short (for_two_shapes limits first second) (shapes ∷ others ∷ pool ∷ []) }
{
    let names = name_words(limits, first) + name_words(limits, second);
    one_short(
        &[
            shape_words(limits, first),
            shape_words(limits, second),
            names,
        ],
        &[shapes, others, pool],
    )
}

// The same where the first grows.
pub fn grown_shapes_short(
    limits: Limits,
    first: usize,
    second: usize,
    shapes: usize,
    others: usize,
    pool: usize,
) -> bool
    requires { Small limits }
    ensures told { result ≡ slices_short (for_grown_shapes limits first second) (shapes ∷ others ∷ pool ∷ []) }
{
    let names = name_words(limits, first) + name_words(limits, second);
    one_short(
        &[2 * limits.values, shape_words(limits, second), names],
        &[shapes, others, pool],
    )
}

// Whether a slice is short for a reader and a shape of so many bytes.
pub fn reader_shape_short(
    limits: Limits,
    reader: usize,
    shape: usize,
    forms: usize,
    shapes: usize,
    results: usize,
    bindings: usize,
    pool: usize,
) -> bool
    requires { Small limits }
    ensures told { result ≡ slices_short (for_reader_shape limits reader shape) (forms ∷ shapes ∷ results ∷ bindings ∷ pool ∷ []) }
{
    let texts = reader_texts(limits, reader) + name_words(limits, shape);
    one_short(
        &[
            3 * most_reader_forms(limits, reader),
            shape_words(limits, shape),
            2 * limits.values,
            limits.nesting,
            texts,
        ],
        &[forms, shapes, results, bindings, pool],
    )
}

// Whether a slice is short for a reader and a document of so many bytes.
pub fn reader_document_short(
    limits: Limits,
    reader: usize,
    document: usize,
    forms: usize,
    nodes: usize,
    results: usize,
    bindings: usize,
    pool: usize,
) -> bool
    requires { Small limits }
    ensures told { result ≡ slices_short (for_reader_document limits reader document) (forms ∷ nodes ∷ results ∷ bindings ∷ pool ∷ []) }
{
    let texts = reader_texts(limits, reader) + text_words(limits, document);
    one_short(
        &[
            3 * most_reader_forms(limits, reader),
            value_words(limits, document),
            3 * limits.values,
            limits.nesting,
            texts,
        ],
        &[forms, nodes, results, bindings, pool],
    )
}

// That each limit is in its range, or 18.
fn judge_limits(limits: Limits) -> Result<(), Cause>
    ensures told { result ≡ before (in_range limits) false }
    ensures small { OnOk result (Small limits) }
{
    if in_range(limits) {
        Ok(())
    } else {
        Err(Cause::LimitOutOfRange)
    }
}

// That no slice is short, or 1.
fn judge_work(short: bool) -> Result<(), Cause>
    ensures told { result ≡ before true short }
{
    if short { Err(Cause::TooShort) } else { Ok(()) }
}

// Whether a document is to be looked at: not at limits out of range, nor with a slice shorter than published.
pub fn judge_document(limits: Limits, nodes: usize, pool: usize) -> Result<(), Cause>
    ensures told { Before limits (plain_slices limits) (nodes ∷ pool ∷ []) result }
{
    judge_limits(limits)?;
    judge_work(document_short(limits, limits.bytes, nodes, pool))
}

// The same before a shape and a document.
pub fn judge_shape_document(
    limits: Limits,
    shapes: usize,
    nodes: usize,
    pool: usize,
) -> Result<(), Cause>
    ensures told { Before limits (infer_slices limits) (shapes ∷ nodes ∷ pool ∷ []) result }
{
    judge_limits(limits)?;
    judge_work(grown_document_short(limits, limits.bytes, limits.bytes, shapes, nodes, pool))
}

// The same before two shapes.
pub fn judge_two_shapes(
    limits: Limits,
    shapes: usize,
    others: usize,
    pool: usize,
) -> Result<(), Cause>
    ensures told { Before limits (join_slices limits) (shapes ∷ others ∷ pool ∷ []) result }
{
    judge_limits(limits)?;
    judge_work(grown_shapes_short(limits, limits.bytes, limits.bytes, shapes, others, pool))
}

// The same before a reader and a shape.
pub fn judge_reader_shape(
    limits: Limits,
    forms: usize,
    shapes: usize,
    results: usize,
    bindings: usize,
    pool: usize,
) -> Result<(), Cause>
    ensures told { Before limits (check_slices limits) (forms ∷ shapes ∷ results ∷ bindings ∷ pool ∷ []) result }
{
    judge_limits(limits)?;
    judge_work(reader_shape_short(
        limits,
        limits.bytes,
        limits.bytes,
        forms,
        shapes,
        results,
        bindings,
        pool,
    ))
}

// The same before a reader and a document.
pub fn judge_reader_document(
    limits: Limits,
    forms: usize,
    nodes: usize,
    results: usize,
    bindings: usize,
    pool: usize,
) -> Result<(), Cause>
    ensures told { Before limits (run_slices limits) (forms ∷ nodes ∷ results ∷ bindings ∷ pool ∷ []) result }
{
    judge_limits(limits)?;
    judge_work(reader_document_short(
        limits,
        limits.bytes,
        limits.bytes,
        forms,
        nodes,
        results,
        bindings,
        pool,
    ))
}

// The same before the texts of a C call, whose answer buffer is the one slice that is lent.
pub fn judge_call(limits: Limits, answer: usize) -> Result<(), Cause>
    ensures told { Before limits buffer_published (answer ∷ []) result }
{
    judge_limits(limits)?;
    judge_work(one_short(&[40], &[answer])) // five words
}
