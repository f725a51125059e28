// Shapes without parts as they are written: in one line, a space before each kind word. They are seen by words of eight bytes; whatever
// is laid out in another way is read word by word. A constant has the bytes that stand beside it, the first in the lowest place, and kind
// words with the space before them.
ghost use Rattle.std.specs.Prelude.{◌≤◌, length};
ghost use Rattle.shape_reader.specs.Leaves.{OtherKinds, StandsLeaf, FindsLeaf};

use crate::kinds::Kinds;
use reading::Cursor;
use shapes::Shape;

// The kinds of numbers that stand at a place, up to the closing bracket.
fn number_kinds(text: &[u8], at: usize) -> Option<Kinds>
    requires { at ≤ length text.now }
    ensures told { OtherKinds text.now at result }
{
    if text.len() - at < 9 {
        return None;
    }
    let x = tokens::standing::eight_at(text, at);
    // int)
    if x % 0x10000000000 == 0x29746E6920 {
        return Some(Kinds {
            kinds: Shape::INT,
            end: at + 5,
        });
    }
    // int dec
    if x == 0x63656420746E6920 && text[at + 8] == b')' {
        let kinds = Shape {
            kinds: Shape::INT.kinds + Shape::DEC.kinds,
        };
        return Some(Kinds { kinds, end: at + 9 });
    }
    None
}

// The kinds without null that stand at a place, up to the closing bracket.
fn other_kinds(text: &[u8], at: usize) -> Option<Kinds>
    requires { at ≤ length text.now }
    ensures told { OtherKinds text.now at result }
{
    if text.len() - at < 8 {
        return None;
    }
    let x = tokens::standing::eight_at(text, at) % 0x1000000000000;
    // text)
    if x == 0x297478657420 {
        return Some(Kinds {
            kinds: Shape::TEXT,
            end: at + 6,
        });
    }
    // bool)
    if x == 0x296C6F6F6220 {
        return Some(Kinds {
            kinds: Shape::BOOL,
            end: at + 6,
        });
    }
    number_kinds(text, at)
}

// The shape without parts whose bracket stands at a place.
fn leaf_at(text: &[u8], at: usize) -> Option<Kinds>
    requires { at ≤ length text.now }
    ensures told { StandsLeaf text.now at result }
{
    if text.len() - at < 14 {
        return None;
    }
    // (shape
    if tokens::standing::eight_at(text, at) % 0x1000000000000 != 0x657061687328 {
        return None;
    }
    let x = tokens::standing::eight_at(text, at + 6);
    // null
    if x % 0x10000000000 != 0x6C6C756E20 {
        return other_kinds(text, at + 6);
    }
    // null)
    if x % 0x1000000000000 == 0x296C6C756E20 {
        return Some(Kinds {
            kinds: Shape::NULL,
            end: at + 12,
        });
    }
    let others = other_kinds(text, at + 11)?;
    let kinds = Shape {
        kinds: Shape::NULL.kinds + others.kinds.kinds,
    };
    Some(Kinds {
        kinds,
        end: others.end,
    })
}

// The shape without parts that must begin at c, if one does and may, with so much nesting left.
pub fn find_leaf(text: &[u8], values: usize, left: usize, c: Cursor) -> Option<Kinds>
    requires { c.at ≤ length text.now }
    ensures found { FindsLeaf text.now values left c result }
{
    if tokens::expect::is_full(values, left, c.begun) {
        return None;
    }
    leaf_at(text, tokens::skip_space(text, c.at))
}
