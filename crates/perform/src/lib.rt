// Each operation whole, on its texts: they are judged and read, a walk goes over the tables, and an end writes or says what
// came of it. Asked of the caller: work slices that are long enough for these texts, limits no larger than the paper's and, where
// a table grows, one that is not too long to be measured.
#![tactic(auto)]

ghost use Rattle.std.specs.Prelude.{◌≡◌, ◌≤◌, length};
ghost use Rattle.definitions.specs.Shape.{Shape};
ghost use Rattle.definitions.specs.Operations.{source, shape_out, finish, say, plain_judged, infer_judged, join_judged, below_judged, admits_judged};
ghost use Rattle.definitions.specs.Operations.{check_judged, run_judged};
ghost use Rattle.inputs.specs.Inputs.{ShapeDocumentSlices, TwoShapesSlices};
ghost use Rattle.perform.specs.Perform.{DocumentSlices, GrownDocumentSlices, GrownShapesSlices, CheckSlices, RunSlices};
ghost use Rattle.perform.specs.Perform.{GrowsTo, SomeGrown};

use definitions::{Answer, Format, Limits};
use reading::Cause;
use running::Halt;

// Writes a document as plain JSON.
#[inline(always)]
pub fn plain(
    format: Format,
    document: &[u8],
    output: &mut [u8],
    nodes: &mut [u64],
    pool: &mut [u64],
    limits: Limits,
) -> Answer
    requires { DocumentSlices document.now nodes.old pool.old limits }
    ensures answered { result ≡ (finish output.old (plain_judged (source format) limits document.now)).answer }
    ensures written { output.new ≡
        (finish output.old (plain_judged (source format) limits document.now)).output }
{
    match documents::read(format, document, nodes, pool, 0, limits) {
        Ok(_) => plain::deliver(output, nodes, pool, 0),
        Err(why) => answers::refused(1, why),
    }
}

// Writes the shape that a table grew to, or refuses it where the table was too short.
fn deliver_grown(
    grown: Option<usize>,
    output: &mut [u8],
    shapes: &[u64],
    pool: &[u64],
    limits: Limits,
) -> Answer
    requires { SomeGrown grown shapes.now pool.now limits }
    ensures answered { (u : Shape) → GrowsTo u grown shapes.now pool.now limits → result ≡
        (finish output.old (shape_out limits u)).answer }
    ensures written { (u : Shape) → GrowsTo u grown shapes.now pool.now limits → output.new ≡
        (finish output.old (shape_out limits u)).output }
{
    match grown {
        Some(_) => shape_writer::deliver(output, shapes, pool, limits),
        None => answers::refusal(Cause::ShapeLimit.number(), 0, 0), // more forms than the table has room for
    }
}

// Joins the shape of a document into a shape, and writes it.
pub fn infer(
    format: Format,
    shape: &[u8],
    document: &[u8],
    output: &mut [u8],
    shapes: &mut [u64],
    nodes: &mut [u64],
    pool: &mut [u64],
    limits: Limits,
) -> Answer
    requires grown_document_slices { GrownDocumentSlices shape.now document.now shapes.old nodes.old pool.old limits }
    requires table { length shapes.old ≤ 65536 }
    ensures answered { result ≡
        (finish output.old (infer_judged (source format) limits shape.now document.now)).answer }
    ensures written { output.new ≡
        (finish output.old (infer_judged (source format) limits shape.now document.now)).output }
{
    match inputs::shape_document(format, shape, document, shapes, nodes, pool, limits) {
        Ok(texts) => {
            let grown = infer::infer_at(shapes, texts.first, 0, nodes, 0, pool);
            deliver_grown(grown, output, shapes, pool, limits)
        }
        Err(why) => answers::refused(why.text, why.refusal),
    }
}

// Joins two shapes, and writes the result.
pub fn join(
    first: &[u8],
    second: &[u8],
    output: &mut [u8],
    shapes: &mut [u64],
    others: &mut [u64],
    pool: &mut [u64],
    limits: Limits,
) -> Answer
    requires grown_shapes_slices { GrownShapesSlices first.now second.now shapes.old others.old pool.old limits }
    requires table { length shapes.old ≤ 65536 }
    ensures answered { result ≡ (finish output.old (join_judged limits first.now second.now)).answer }
    ensures written { output.new ≡
        (finish output.old (join_judged limits first.now second.now)).output }
{
    match inputs::two_shapes(first, second, shapes, others, pool, limits) {
        Ok(texts) => {
            let grown = join::join_at(shapes, texts.first, 0, others, 0, pool, limits.nesting);
            deliver_grown(grown, output, shapes, pool, limits)
        }
        Err(why) => answers::refused(why.text, why.refusal),
    }
}

// Whether a shape is below another.
#[inline(always)]
pub fn below(
    first: &[u8],
    second: &[u8],
    shapes: &mut [u64],
    others: &mut [u64],
    pool: &mut [u64],
    limits: Limits,
) -> Answer
    requires { TwoShapesSlices first.now second.now shapes.old others.old pool.old limits }
    ensures answered { result ≡ say (below_judged limits first.now second.now) }
{
    match inputs::two_shapes(first, second, shapes, others, pool, limits) {
        Ok(_) => answers::said(order::below(shapes, others, pool, 0, 0, limits.nesting)),
        Err(why) => answers::refused(why.text, why.refusal),
    }
}

// Whether a shape admits a document.
#[inline(always)]
pub fn admits(
    format: Format,
    shape: &[u8],
    document: &[u8],
    shapes: &mut [u64],
    nodes: &mut [u64],
    pool: &mut [u64],
    limits: Limits,
) -> Answer
    requires { ShapeDocumentSlices shape.now document.now shapes.old nodes.old pool.old limits }
    ensures answered { result ≡ say (admits_judged (source format) limits shape.now document.now) }
{
    match inputs::shape_document(format, shape, document, shapes, nodes, pool, limits) {
        Ok(_) => answers::said(admits::admits(shapes, 0, nodes, 0, pool)),
        Err(why) => answers::refused(why.text, why.refusal),
    }
}

// Checks a reader against a shape, and writes the shape of what it gives.
pub fn check(
    reader: &[u8],
    shape: &[u8],
    output: &mut [u8],
    forms: &mut [u64],
    shapes: &mut [u64],
    results: &mut [u64],
    bindings: &mut [u64],
    pool: &mut [u64],
    limits: Limits,
) -> Answer
    requires check_slices { CheckSlices reader.now shape.now forms.old shapes.old results.old bindings.old pool.old limits }
    requires table { length shapes.old ≤ 65536 }
    requires grown { length results.old ≤ 65536 }
    ensures answered { result ≡ (finish output.old (check_judged limits reader.now shape.now)).answer }
    ensures written { output.new ≡
        (finish output.old (check_judged limits reader.now shape.now)).output }
{
    match inputs::reader_shape(reader, shape, forms, shapes, pool, limits) {
        Ok(_) => match checking::check(forms, shapes, pool, bindings) {
            Ok(_) => {
                let grown = result_shape::result(
                    forms,
                    shapes,
                    pool,
                    bindings,
                    results,
                    limits.nesting,
                );
                deliver_grown(grown, output, results, pool, limits)
            }
            Err(why) => answers::refused(1, why),
        },
        Err(why) => answers::refused(why.text, why.refusal),
    }
}

// Runs a reader on a document, and writes what it gives as plain JSON.
pub fn run(
    format: Format,
    reader: &[u8],
    document: &[u8],
    output: &mut [u8],
    forms: &mut [u64],
    nodes: &mut [u64],
    results: &mut [u64],
    bindings: &mut [u64],
    pool: &mut [u64],
    limits: Limits,
) -> Answer
    requires run_slices { RunSlices reader.now document.now forms.old nodes.old results.old bindings.old pool.old limits }
    requires table { length nodes.old ≤ 65536 }
    requires made { length results.old ≤ 65536 }
    ensures answered { result ≡
        (finish output.old (run_judged (source format) limits reader.now document.now)).answer }
    ensures written { output.new ≡
        (finish output.old (run_judged (source format) limits reader.now document.now)).output }
{
    match inputs::reader_document(format, reader, document, forms, nodes, pool, limits) {
        Ok(_) => match running::run(forms, nodes, pool, bindings, results, limits) {
            Ok(steps) => plain::deliver(output, results, pool, steps),
            Err(Halt::Over) => answers::refusal(Cause::ResultLimit.number(), 0, 0),
            Err(Halt::Refused(why)) => answers::refused(1, why),
        },
        Err(why) => answers::refused(why.text, why.refusal),
    }
}
