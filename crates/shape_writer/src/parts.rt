// The parts of a shape text, written and measured.
ghost use Rattle.std.specs.Prelude.{◌≡◌, ◌+◌, ◌^◌, ◌≤◌, length, replicate};
ghost use Rattle.definitions.specs.ShapeText.{new_line};
ghost use Rattle.shapes.specs.Shapes.{has_bit};
ghost use Rattle.text.specs.Writes.{Writes};
ghost use Rattle.shape_writer.specs.Layout.{word_of, head_text};
ghost use Rattle.shape_writer.specs.Writing.{WritesWord, LengthOfWord, PrintableLabel, WritesLabel, LengthOfLabel};

use plain::write_bytes;
use shapes::Shape;

// Writes n spaces, and answers the place behind them.
fn write_spaces(out: &mut [u8], at: usize, n: usize) -> usize
    requires { at + n ≤ length out.old }
    ensures written { Writes out.old out.new at (replicate n 0x20) result }
{
    let end = at + n;
    out[at..end].fill(b' ');
    end
}

// Writes a line feed and a space for each form around.
pub fn write_line(out: &mut [u8], at: usize, around: usize) -> usize
    requires { at + length (new_line around) ≤ length out.old }
    ensures written { Writes out.old out.new at (new_line around) result }
{
    let j = write_bytes(out, at, b"\n");
    write_spaces(out, j, around)
}

// Writes the word of a kind where a set of kinds has it.
fn write_word(out: &mut [u8], at: usize, kinds: Shape, kind: Shape, word: &[u8]) -> usize
    requires { at + length (word_of (has_bit kinds.kinds kind.kinds) word.now) ≤ length out.old }
    ensures written { WritesWord kinds.kinds kind.kinds word.now out.old out.new at result }
{
    if kinds.has(kind) {
        return write_bytes(out, at, word);
    }
    at
}

// Writes how the form of a shape with these kinds begins: word by word and not over a table, since the compiler then makes one or two
// stores of each.
pub fn write_head(out: &mut [u8], at: usize, kinds: Shape) -> usize
    requires { at + length (head_text kinds.kinds) ≤ length out.old }
    ensures written { Writes out.old out.new at (head_text kinds.kinds) result }
{
    let mut j = write_bytes(out, at, b"(shape");
    j = write_word(out, j, kinds, Shape::NULL, b" null");
    j = write_word(out, j, kinds, Shape::BOOL, b" bool");
    j = write_word(out, j, kinds, Shape::INT, b" int");
    j = write_word(out, j, kinds, Shape::DEC, b" dec");
    j = write_word(out, j, kinds, Shape::TEXT, b" text");
    j = write_word(out, j, kinds, Shape::LIST, b" list");
    write_word(out, j, kinds, Shape::REC, b" rec")
}

// Writes what stands before the shape of a member, whose name is at a reference.
pub fn write_label(out: &mut [u8], at: usize, pool: &[u64], k: u64, around: usize) -> usize
    requires { PrintableLabel pool.now k at around (length out.old + 1) }
    ensures written { WritesLabel pool.now k around out.old out.new at result }
{
    let mut j = write_line(out, at, around);
    j = write_bytes(out, j, b"(member ");
    j = text::write_text(out, j, pool, nodes::text_word(k), nodes::text_bytes(k));
    write_line(out, j, around + 1)
}

// How long the word of a kind is, n bytes, where a set of kinds has it.
fn word_length(kinds: Shape, kind: Shape, n: usize) -> usize
    ensures measured { LengthOfWord kinds.kinds kind.kinds n result }
    ensures bounded { result ≤ n }
{
    if kinds.has(kind) { n } else { 0 }
}

// How long the beginning of a form is whose shape has these kinds.
pub fn head_length(kinds: Shape) -> usize
    ensures measured { result ≡ length (head_text kinds.kinds) }
{
    let single = word_length(kinds, Shape::NULL, 5)
        + word_length(kinds, Shape::BOOL, 5)
        + word_length(kinds, Shape::TEXT, 5);
    let number = word_length(kinds, Shape::INT, 4) + word_length(kinds, Shape::DEC, 4);
    6 + single + number + word_length(kinds, Shape::LIST, 5) + word_length(kinds, Shape::REC, 4)
}

// The length of what stands before the shape of a member, whose name is at a reference.
pub fn label_length(pool: &[u64], k: u64, around: usize) -> usize
    requires { PrintableLabel pool.now k 0 around (2 ^ 64) }
    ensures measured { LengthOfLabel pool.now k around result }
{
    text::text_length(pool, nodes::text_word(k), nodes::text_bytes(k)) + 2 * around + 11
}
