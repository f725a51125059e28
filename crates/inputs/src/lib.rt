// The texts of an operation, judged in order and read: all of the first one's causes go before any of the second's.
#![tactic(auto)]

ghost use Rattle.std.specs.Prelude.{◌≡◌};
ghost use Rattle.definitions.specs.ShapeText.{read_shape};
ghost use Rattle.definitions.specs.Reader.{read_reader};
ghost use Rattle.definitions.specs.Operations.{source};
ghost use Rattle.inputs.specs.Refused.{of_text};
ghost use Rattle.inputs.specs.Inputs.{ShapeRoom, JudgesShape, JudgesFirst, JudgesBoth};
ghost use Rattle.inputs.specs.Inputs.{ShapeDocumentSlices, ShapeDocumentHeld, TwoShapesSlices, TwoShapesHeld};
ghost use Rattle.inputs.specs.Inputs.{ReaderRoom, JudgesReader, ReaderShapeSlices, ReaderShapeHeld};
ghost use Rattle.inputs.specs.Inputs.{ReaderDocumentSlices, ReaderDocumentHeld};

use definitions::{Format, Limits};
use reading::{Cause, Extent, Refusal};

// What two texts take that were read: so many words each of its own table, and so many of the pool.
#[derive(Clone, Copy)]
pub struct Texts {
    pub first: usize,
    pub second: usize,
    pub top: usize,
}

// Which of the texts is refused, and why.
#[derive(Clone, Copy)]
pub struct TextRefusal {
    pub text: u64,
    pub refusal: Refusal,
}

fn in_first(refusal: Refusal) -> TextRefusal
    ensures { result ≡ of_text 1 refusal }
{
    TextRefusal { text: 1, refusal }
}

fn in_second(refusal: Refusal) -> TextRefusal
    ensures { result ≡ of_text 2 refusal }
{
    TextRefusal { text: 2, refusal }
}

// What the texts take: the second one's part of the pool lies behind that of the first.
fn both(first: Extent, second: Extent) -> Texts
    ensures { result ≡ record { first = first.words; second = second.words; top = second.top } }
{
    Texts {
        first: first.words,
        second: second.words,
        top: second.top,
    }
}

// Judges a shape text, and reads it behind the names of another. A text that is too long is not read, and a shorter one begins no
// more forms than its bytes pay for.
fn read_shape(
    text: &[u8],
    shapes: &mut [u64],
    pool: &mut [u64],
    top: usize,
    limits: Limits,
) -> Result<Extent, Refusal>
    requires { ShapeRoom text.now shapes.old pool.old top limits }
    ensures judged { JudgesShape limits text.now pool.old shapes.new pool.new top result }
{
    if limits.bytes < text.len() {
        return Err(Refusal {
            cause: Cause::TextTooLong,
            place: 0,
        });
    }
    let few = slices::fewer(limits, (text.len() + 6) / 7);
    shape_reader::read_shape(text, shapes, pool, top, few)
}

// Judges and reads the first text: its names take no more of the pool than one text's can.
fn first_shape(
    text: &[u8],
    shapes: &mut [u64],
    pool: &mut [u64],
    limits: Limits,
) -> Result<Extent, Refusal>
    requires { ShapeRoom text.now shapes.old pool.old 0 limits }
    ensures judged { JudgesFirst limits text.now pool.old shapes.new pool.new result }
{
    let names = slices::name_words(limits, text.len());
    read_shape(text, shapes, &mut pool[..names], 0, limits)
}

// A shape, then a document.
pub fn shape_document(
    format: Format,
    shape: &[u8],
    document: &[u8],
    shapes: &mut [u64],
    nodes: &mut [u64],
    pool: &mut [u64],
    limits: Limits,
) -> Result<Texts, TextRefusal>
    requires { ShapeDocumentSlices shape.now document.now shapes.old nodes.old pool.old limits }
    ensures judged { JudgesBoth limits read_shape shape.now (source format) document.now
        (ShapeDocumentHeld limits shapes.new nodes.new pool.new) result }
{
    let first = first_shape(shape, shapes, pool, limits).map_err(in_first)?;
    let second = documents::read(format, document, nodes, pool, first.top, limits).map_err(
        in_second,
    )?;
    Ok(both(first, second))
}

// Two shapes.
pub fn two_shapes(
    one: &[u8],
    other: &[u8],
    shapes: &mut [u64],
    others: &mut [u64],
    pool: &mut [u64],
    limits: Limits,
) -> Result<Texts, TextRefusal>
    requires { TwoShapesSlices one.now other.now shapes.old others.old pool.old limits }
    ensures judged { JudgesBoth limits read_shape one.now read_shape other.now
        (TwoShapesHeld limits shapes.new others.new pool.new) result }
{
    let first = first_shape(one, shapes, pool, limits).map_err(in_first)?;
    let second = read_shape(other, others, pool, first.top, limits).map_err(in_second)?;
    Ok(both(first, second))
}

// Judges and reads a reader. A text that is too long is not read, and a shorter one begins no more forms than its bytes pay for.
fn first_reader(
    text: &[u8],
    forms: &mut [u64],
    pool: &mut [u64],
    limits: Limits,
) -> Result<Extent, Refusal>
    requires { ReaderRoom text.now forms.old pool.old limits }
    ensures judged { JudgesReader limits text.now forms.new pool.new result }
{
    if limits.bytes < text.len() {
        return Err(Refusal {
            cause: Cause::TextTooLong,
            place: 0,
        });
    }
    let few = slices::fewer(limits, slices::most_reader_forms(limits, text.len()));
    form_reader::read_reader(text, forms, pool, 0, few)
}

// A reader, then a shape.
pub fn reader_shape(
    reader: &[u8],
    shape: &[u8],
    forms: &mut [u64],
    shapes: &mut [u64],
    pool: &mut [u64],
    limits: Limits,
) -> Result<Texts, TextRefusal>
    requires { ReaderShapeSlices reader.now shape.now forms.old shapes.old pool.old limits }
    ensures judged { JudgesBoth limits read_reader reader.now read_shape shape.now
        (ReaderShapeHeld limits forms.new shapes.new pool.new) result }
{
    let first = first_reader(reader, forms, pool, limits).map_err(in_first)?;
    let second = read_shape(shape, shapes, pool, first.top, limits).map_err(in_second)?;
    Ok(both(first, second))
}

// A reader, then a document.
pub fn reader_document(
    format: Format,
    reader: &[u8],
    document: &[u8],
    forms: &mut [u64],
    nodes: &mut [u64],
    pool: &mut [u64],
    limits: Limits,
) -> Result<Texts, TextRefusal>
    requires { ReaderDocumentSlices reader.now document.now forms.old nodes.old pool.old limits }
    ensures judged { JudgesBoth limits read_reader reader.now (source format) document.now
        (ReaderDocumentHeld limits forms.new nodes.new pool.new) result }
{
    let first = first_reader(reader, forms, pool, limits).map_err(in_first)?;
    let second = documents::read(format, document, nodes, pool, first.top, limits).map_err(
        in_second,
    )?;
    Ok(both(first, second))
}
