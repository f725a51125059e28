// The kind words of a shape.
ghost use Rattle.std.specs.Prelude.{◌≡◌, ◌≤◌, length};
ghost use Rattle.definitions.specs.ShapeText.{kind_words};
ghost use Rattle.definitions.specs.Tokens.{look_word};
ghost use Rattle.tokens.specs.TokenRead.{word_in};
ghost use Rattle.shape_reader.specs.ShapeParts.{kind_code, Follows, ReadsKinds};

use reading::Refusal;
use shapes::Shape;
use tokens::expect::misplaced;

// The bit of the kind whose word stands from one place to another; of another word no bit, which `may_come` refuses as a kind out of order.
fn kind_of(text: &[u8], at: usize, end: usize) -> Shape
    requires { (at ≤ end) × (end ≤ length text.now) }
    ensures told { result.kinds ≡ kind_code (look_word kind_words (word_in text.now at end)) }
{
    match tokens::word_value(text, at, end) {
        0x6E756C6C04 => Shape::NULL, // null
        0x626F6F6C04 => Shape::BOOL, // bool
        0x696E7403 => Shape::INT, // int
        0x64656303 => Shape::DEC, // dec
        0x7465787404 => Shape::TEXT, // text
        0x6C69737404 => Shape::LIST, // list
        0x72656303 => Shape::REC, // rec
        _ => Shape::NOTHING,
    }
}

// Whether a kind may follow these: a later kind has a higher bit, and dec comes only behind int.
#[tactic(auto, using(crate::proofs::KindSets::dec_alone, crate::proofs::KindSets::higher_kind))]
fn may_come(kinds: Shape, kind: Shape) -> bool
    ensures told { Follows kinds.kinds kind.kinds result }
{
    if kind.kinds == Shape::DEC.kinds && kinds.kinds < Shape::INT.kinds {
        return false;
    }
    kinds.kinds < kind.kinds
}

// Kinds that were read, up to an end.
#[derive(Clone, Copy)]
pub struct Kinds {
    pub kinds: Shape,
    pub end: usize,
}

// Reads the kind words behind the word `shape`, up to where none stands.
pub fn read_kinds(text: &[u8], at: usize) -> Result<Kinds, Refusal>
    requires { at ≤ length text.now }
    ensures read { ReadsKinds text.now at result }
{
    let mut kinds = Shape::NOTHING;
    let mut end = at;
    while let Ok(word) = tokens::expect::next_word(text, end) {
        let kind = kind_of(text, word.place, word.end);
        if !may_come(kinds, kind) {
            return Err(misplaced(word.place));
        }
        kinds = Shape {
            kinds: kinds.kinds + kind.kinds,
        };
        end = word.end;
    }
    Ok(Kinds { kinds, end })
}
