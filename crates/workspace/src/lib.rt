// The operations with work slices of their own, as the C calls want them: as long as the limits and the texts ask, in a few lengths,
// since clearing long ones would show in the time of a call. The first lengths of each operation are enough for every text at the
// smallest set of limits; short texts are tried before in slices for few values, and what is accepted so is accepted at the set too.
#![tactic(auto)]

ghost use Rattle.std.specs.Prelude.{◌≡◌, ◌+◌, ◌≤◌, false, [], ◌∷◌, length};
ghost use Rattle.definitions.specs.Operations.{slices_short, source, finish, say, plain_judged, infer_judged, join_judged, below_judged};
ghost use Rattle.definitions.specs.Operations.{admits_judged, check_judged, run_judged};
ghost use Rattle.definitions.specs.WorkSlices.{for_document, for_shape_document, for_grown_document, for_two_shapes, for_grown_shapes};
ghost use Rattle.definitions.specs.WorkSlices.{for_reader_shape, for_reader_document};
ghost use Rattle.slices.specs.Small.{Small};

use definitions::{Answer, Format, Limits};

// `plain` in work slices of so many words.
fn plain_in<const NODES: usize, const POOL: usize>(
    format: Format,
    limits: Limits,
    document: &[u8],
    output: &mut [u8],
) -> Answer
    requires small { Small limits }
    requires long { slices_short (for_document limits (length document.now)) (NODES ∷ POOL ∷ []) ≡ false }
    requires words { NODES + POOL ≤ 65536 }
    ensures answered { result ≡ (finish output.old (plain_judged (source format) limits document.now)).answer }
    ensures written { output.new ≡
        (finish output.old (plain_judged (source format) limits document.now)).output }
{
    let mut nodes = [0u64; NODES];
    let mut pool = [0u64; POOL];
    perform::plain(format, document, output, &mut nodes, &mut pool, limits)
}

// `plain` in work slices for as many values as the document may have.
#[tactic(auto, using(crate::proofs::Tiers::most_document))]
fn full_plain(format: Format, limits: Limits, document: &[u8], output: &mut [u8]) -> Answer
    requires { Small limits }
    ensures answered { result ≡ (finish output.old (plain_judged (source format) limits document.now)).answer }
    ensures written { output.new ≡
        (finish output.old (plain_judged (source format) limits document.now)).output }
{
    let n = document.len();
    if !slices::document_short(limits, n, 48, 143) {
        return plain_in::<48, 143>(format, limits, document, output);
    }
    if !slices::document_short(limits, n, 429, 174) {
        return plain_in::<429, 174>(format, limits, document, output);
    }
    if !slices::document_short(limits, n, 813, 334) {
        return plain_in::<813, 334>(format, limits, document, output);
    }
    if !slices::document_short(limits, n, 1536, 1023) {
        return plain_in::<1536, 1023>(format, limits, document, output);
    }
    plain_in::<1536, 2559>(format, limits, document, output)
}

// `plain` with work slices of its own.
// A short document is tried for few values first: less is cleared than for as many as it may have.
pub fn plain(format: Format, limits: Limits, document: &[u8], output: &mut [u8]) -> Answer
    requires { Small limits }
    ensures answered { result ≡ (finish output.old (plain_judged (source format) limits document.now)).answer }
    ensures written { output.new ≡
        (finish output.old (plain_judged (source format) limits document.now)).output }
{
    if document.len() < 384 {
        let tried = plain_in::<96, 79>(format, slices::fewer(limits, 32), document, output);
        if tried.number == 0 {
            return tried;
        }
    }
    full_plain(format, limits, document, output)
}

// `infer` in work slices of so many words.
fn infer_in<const SHAPES: usize, const NODES: usize, const POOL: usize>(
    format: Format,
    limits: Limits,
    shape: &[u8],
    document: &[u8],
    output: &mut [u8],
) -> Answer
    requires small { Small limits }
    requires long { slices_short (for_grown_document limits (length shape.now) (length document.now)) (SHAPES ∷ NODES ∷ POOL ∷ []) ≡ false }
    requires words { SHAPES + NODES + POOL ≤ 65536 }
    ensures answered { result ≡
        (finish output.old (infer_judged (source format) limits shape.now document.now)).answer }
    ensures written { output.new ≡
        (finish output.old (infer_judged (source format) limits shape.now document.now)).output }
{
    let mut shapes = [0u64; SHAPES];
    let mut nodes = [0u64; NODES];
    let mut pool = [0u64; POOL];
    perform::infer(
        format,
        shape,
        document,
        output,
        &mut shapes,
        &mut nodes,
        &mut pool,
        limits,
    )
}

// `infer` in work slices for as many values as the texts may have.
#[tactic(auto, using(crate::proofs::Tiers::most_grown_document))]
fn full_infer(
    format: Format,
    limits: Limits,
    shape: &[u8],
    document: &[u8],
    output: &mut [u8],
) -> Answer
    requires { Small limits }
    ensures answered { result ≡
        (finish output.old (infer_judged (source format) limits shape.now document.now)).answer }
    ensures written { output.new ≡
        (finish output.old (infer_judged (source format) limits shape.now document.now)).output }
{
    let n = shape.len();
    let m = document.len();
    if !slices::grown_document_short(limits, n, m, 32, 48, 271) {
        return infer_in::<32, 48, 271>(format, limits, shape, document, output);
    }
    if !slices::grown_document_short(limits, n, m, 1024, 429, 238) {
        return infer_in::<1024, 429, 238>(format, limits, shape, document, output);
    }
    if !slices::grown_document_short(limits, n, m, 1024, 1536, 1151) {
        return infer_in::<1024, 1536, 1151>(format, limits, shape, document, output);
    }
    if !slices::grown_document_short(limits, n, m, 1024, 1536, 2815) {
        return infer_in::<1024, 1536, 2815>(format, limits, shape, document, output);
    }
    infer_in::<1024, 1536, 4607>(format, limits, shape, document, output)
}

// `infer` with work slices of its own.
// Short texts are tried for few values first, as for `plain`.
pub fn infer(
    format: Format,
    limits: Limits,
    shape: &[u8],
    document: &[u8],
    output: &mut [u8],
) -> Answer
    requires { Small limits }
    ensures answered { result ≡
        (finish output.old (infer_judged (source format) limits shape.now document.now)).answer }
    ensures written { output.new ≡
        (finish output.old (infer_judged (source format) limits shape.now document.now)).output }
{
    if shape.len() < 768 && document.len() < 384 {
        let tried = infer_in::<64, 96, 175>(
            format,
            slices::fewer(limits, 32),
            shape,
            document,
            output,
        );
        if tried.number == 0 {
            return tried;
        }
    }
    full_infer(format, limits, shape, document, output)
}

// `join` in work slices of so many words.
fn join_in<const SHAPES: usize, const OTHERS: usize, const POOL: usize>(
    limits: Limits,
    first: &[u8],
    second: &[u8],
    output: &mut [u8],
) -> Answer
    requires small { Small limits }
    requires long { slices_short (for_grown_shapes limits (length first.now) (length second.now)) (SHAPES ∷ OTHERS ∷ POOL ∷ []) ≡ false }
    requires words { SHAPES + OTHERS + POOL ≤ 65536 }
    ensures answered { result ≡ (finish output.old (join_judged limits first.now second.now)).answer }
    ensures written { output.new ≡
        (finish output.old (join_judged limits first.now second.now)).output }
{
    let mut shapes = [0u64; SHAPES];
    let mut others = [0u64; OTHERS];
    let mut pool = [0u64; POOL];
    perform::join(
        first,
        second,
        output,
        &mut shapes,
        &mut others,
        &mut pool,
        limits,
    )
}

// `join` with work slices of its own.
#[tactic(auto, using(crate::proofs::Tiers::most_grown_shapes))]
pub fn join(limits: Limits, first: &[u8], second: &[u8], output: &mut [u8]) -> Answer
    requires { Small limits }
    ensures answered { result ≡ (finish output.old (join_judged limits first.now second.now)).answer }
    ensures written { output.new ≡
        (finish output.old (join_judged limits first.now second.now)).output }
{
    let n = first.len();
    let m = second.len();
    if !slices::grown_shapes_short(limits, n, m, 32, 32, 256) {
        return join_in::<32, 32, 256>(limits, first, second, output);
    }
    if !slices::grown_shapes_short(limits, n, m, 1024, 294, 256) {
        return join_in::<1024, 294, 256>(limits, first, second, output);
    }
    join_in::<1024, 1024, 4096>(limits, first, second, output)
}

// `below` in work slices of so many words.
fn below_in<const SHAPES: usize, const OTHERS: usize, const POOL: usize>(
    limits: Limits,
    first: &[u8],
    second: &[u8],
) -> Answer
    requires small { Small limits }
    requires long { slices_short (for_two_shapes limits (length first.now) (length second.now)) (SHAPES ∷ OTHERS ∷ POOL ∷ []) ≡ false }
    requires words { SHAPES + OTHERS + POOL ≤ 65536 }
    ensures answered { result ≡ say (below_judged limits first.now second.now) }
{
    let mut shapes = [0u64; SHAPES];
    let mut others = [0u64; OTHERS];
    let mut pool = [0u64; POOL];
    perform::below(first, second, &mut shapes, &mut others, &mut pool, limits)
}

// `below` with work slices of its own.
#[tactic(auto, using(crate::proofs::Tiers::most_two_shapes))]
pub fn below(limits: Limits, first: &[u8], second: &[u8]) -> Answer
    requires { Small limits }
    ensures answered { result ≡ say (below_judged limits first.now second.now) }
{
    let n = first.len();
    let m = second.len();
    if !slices::two_shapes_short(limits, n, m, 294, 294, 256) {
        return below_in::<294, 294, 256>(limits, first, second);
    }
    below_in::<1024, 1024, 4096>(limits, first, second)
}

// `admits` in work slices of so many words.
fn admits_in<const SHAPES: usize, const NODES: usize, const POOL: usize>(
    format: Format,
    limits: Limits,
    shape: &[u8],
    document: &[u8],
) -> Answer
    requires small { Small limits }
    requires long { slices_short (for_shape_document limits (length shape.now) (length document.now)) (SHAPES ∷ NODES ∷ POOL ∷ []) ≡ false }
    requires words { SHAPES + NODES + POOL ≤ 65536 }
    ensures answered { result ≡ say (admits_judged (source format) limits shape.now document.now) }
{
    let mut shapes = [0u64; SHAPES];
    let mut nodes = [0u64; NODES];
    let mut pool = [0u64; POOL];
    perform::admits(
        format,
        shape,
        document,
        &mut shapes,
        &mut nodes,
        &mut pool,
        limits,
    )
}

// `admits` in work slices for as many values as the texts may have.
#[tactic(auto, using(crate::proofs::Tiers::most_shape_document))]
fn full_admits(format: Format, limits: Limits, shape: &[u8], document: &[u8]) -> Answer
    requires { Small limits }
    ensures answered { result ≡ say (admits_judged (source format) limits shape.now document.now) }
{
    let n = shape.len();
    let m = document.len();
    if !slices::shape_document_short(limits, n, m, 32, 48, 271) {
        return admits_in::<32, 48, 271>(format, limits, shape, document);
    }
    if !slices::shape_document_short(limits, n, m, 146, 429, 238) {
        return admits_in::<146, 429, 238>(format, limits, shape, document);
    }
    if !slices::shape_document_short(limits, n, m, 294, 1536, 1151) {
        return admits_in::<294, 1536, 1151>(format, limits, shape, document);
    }
    if !slices::shape_document_short(limits, n, m, 586, 1536, 2815) {
        return admits_in::<586, 1536, 2815>(format, limits, shape, document);
    }
    admits_in::<1024, 1536, 4607>(format, limits, shape, document)
}

// `admits` with work slices of its own.
// Short texts are tried for few values first, as for `plain`.
pub fn admits(format: Format, limits: Limits, shape: &[u8], document: &[u8]) -> Answer
    requires { Small limits }
    ensures answered { result ≡ say (admits_judged (source format) limits shape.now document.now) }
{
    if shape.len() < 768 && document.len() < 384 {
        let tried = admits_in::<64, 96, 175>(format, slices::fewer(limits, 32), shape, document);
        if tried.number == 0 {
            return tried;
        }
    }
    full_admits(format, limits, shape, document)
}

// `check` in work slices of so many words.
fn check_in<
    const FORMS: usize,
    const SHAPES: usize,
    const RESULTS: usize,
    const BINDINGS: usize,
    const POOL: usize,
>(limits: Limits, reader: &[u8], shape: &[u8], output: &mut [u8]) -> Answer
    requires small { Small limits }
    requires long { slices_short (for_reader_shape limits (length reader.now) (length shape.now)) (FORMS ∷ SHAPES ∷ RESULTS ∷ BINDINGS ∷ POOL ∷ []) ≡ false }
    requires words { FORMS + SHAPES + RESULTS + BINDINGS + POOL ≤ 65536 }
    ensures answered { result ≡ (finish output.old (check_judged limits reader.now shape.now)).answer }
    ensures written { output.new ≡
        (finish output.old (check_judged limits reader.now shape.now)).output }
{
    let mut forms = [0u64; FORMS];
    let mut shapes = [0u64; SHAPES];
    let mut results = [0u64; RESULTS];
    let mut bindings = [0u64; BINDINGS];
    let mut pool = [0u64; POOL];
    perform::check(
        reader,
        shape,
        output,
        &mut forms,
        &mut shapes,
        &mut results,
        &mut bindings,
        &mut pool,
        limits,
    )
}

// `check` with work slices of its own.
#[tactic(auto, using(crate::proofs::Tiers::most_reader_shape))]
pub fn check(limits: Limits, reader: &[u8], shape: &[u8], output: &mut [u8]) -> Answer
    requires { Small limits }
    ensures answered { result ≡ (finish output.old (check_judged limits reader.now shape.now)).answer }
    ensures written { output.new ≡
        (finish output.old (check_judged limits reader.now shape.now)).output }
{
    let n = reader.len();
    let m = shape.len();
    if !slices::reader_shape_short(limits, n, m, 48, 32, 32, 4, 266) {
        return check_in::<48, 32, 32, 4, 266>(limits, reader, shape, output);
    }
    if !slices::reader_shape_short(limits, n, m, 255, 146, 1024, 32, 149) {
        return check_in::<255, 146, 1024, 32, 149>(limits, reader, shape, output);
    }
    if !slices::reader_shape_short(limits, n, m, 1023, 294, 1024, 32, 469) {
        return check_in::<1023, 294, 1024, 32, 469>(limits, reader, shape, output);
    }
    check_in::<1536, 1024, 1024, 32, 4416>(limits, reader, shape, output)
}

// `run` in work slices of so many words.
fn run_in<
    const FORMS: usize,
    const NODES: usize,
    const RESULTS: usize,
    const BINDINGS: usize,
    const POOL: usize,
>(format: Format, limits: Limits, reader: &[u8], document: &[u8], output: &mut [u8]) -> Answer
    requires small { Small limits }
    requires long { slices_short (for_reader_document limits (length reader.now) (length document.now))
        (FORMS ∷ NODES ∷ RESULTS ∷ BINDINGS ∷ POOL ∷ []) ≡ false }
    requires words { FORMS + NODES + RESULTS + BINDINGS + POOL ≤ 65536 }
    ensures answered { result ≡
        (finish output.old (run_judged (source format) limits reader.now document.now)).answer }
    ensures written { output.new ≡
        (finish output.old (run_judged (source format) limits reader.now document.now)).output }
{
    let mut forms = [0u64; FORMS];
    let mut nodes = [0u64; NODES];
    let mut results = [0u64; RESULTS];
    let mut bindings = [0u64; BINDINGS];
    let mut pool = [0u64; POOL];
    perform::run(
        format,
        reader,
        document,
        output,
        &mut forms,
        &mut nodes,
        &mut results,
        &mut bindings,
        &mut pool,
        limits,
    )
}

// `run` in work slices for as many values as the texts may have.
#[tactic(auto, using(crate::proofs::Tiers::most_reader_document))]
fn full_run(
    format: Format,
    limits: Limits,
    reader: &[u8],
    document: &[u8],
    output: &mut [u8],
) -> Answer
    requires { Small limits }
    ensures answered { result ≡
        (finish output.old (run_judged (source format) limits reader.now document.now)).answer }
    ensures written { output.new ≡
        (finish output.old (run_judged (source format) limits reader.now document.now)).output }
{
    let n = reader.len();
    let m = document.len();
    if !slices::reader_document_short(limits, n, m, 48, 48, 48, 4, 281) {
        return run_in::<48, 48, 48, 4, 281>(format, limits, reader, document, output);
    }
    if !slices::reader_document_short(limits, n, m, 255, 429, 1536, 32, 259) {
        return run_in::<255, 429, 1536, 32, 259>(format, limits, reader, document, output);
    }
    if !slices::reader_document_short(limits, n, m, 1023, 1536, 1536, 32, 1364) {
        return run_in::<1023, 1536, 1536, 32, 1364>(format, limits, reader, document, output);
    }
    if !slices::reader_document_short(limits, n, m, 255, 1536, 1536, 32, 2644) {
        return run_in::<255, 1536, 1536, 32, 2644>(format, limits, reader, document, output);
    }
    run_in::<1536, 1536, 1536, 32, 4927>(format, limits, reader, document, output)
}

// `run` with work slices of its own.
// Short texts are tried for few values first, as for `plain`.
pub fn run(
    format: Format,
    limits: Limits,
    reader: &[u8],
    document: &[u8],
    output: &mut [u8],
) -> Answer
    requires { Small limits }
    ensures answered { result ≡
        (finish output.old (run_judged (source format) limits reader.now document.now)).answer }
    ensures written { output.new ≡
        (finish output.old (run_judged (source format) limits reader.now document.now)).output }
{
    if reader.len() < 384 && document.len() < 384 {
        let tried = run_in::<96, 96, 96, 32, 147>(
            format,
            slices::fewer(limits, 32),
            reader,
            document,
            output,
        );
        if tried.number == 0 {
            return tried;
        }
    }
    full_run(format, limits, reader, document, output)
}
