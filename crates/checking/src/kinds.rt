// Sets of kinds: what a form wants and gives, and what `when` leaves.
ghost use Rattle.std.specs.Prelude.{◌<◌};
ghost use Rattle.checking.specs.KindSets.{TellsTest, TellsCut, TellsOut, TellsGain};

use shapes::Shape;

// The kinds of numbers.
pub const NUMBERS: Shape = Shape {
    kinds: Shape::INT.kinds | Shape::DEC.kinds,
};

// The kinds of what has elements: null reads as none.
pub const LISTS: Shape = Shape {
    kinds: Shape::LIST.kinds | Shape::NULL.kinds,
};

// The kinds of what has members: null reads as none.
pub const RECORDS: Shape = Shape {
    kinds: Shape::REC.kinds | Shape::NULL.kinds,
};

// The code of the test `num`; that of every other test is the place of its kind's bit.
const NUM: u64 = 3;

// The code of the test `int`.
const INT: u64 = 2;

// The kinds that a test means.
fn test_kinds(test: u64) -> Shape
    ensures told { TellsTest test result.kinds }
    ensures small { result.kinds < 128 }
{
    if test == NUM {
        return NUMBERS;
    }
    if test < 7 {
        Shape { kinds: 1 << test }
    } else {
        Shape::NOTHING
    }
}

// Of these kinds those that a test means.
pub fn cut(kinds: Shape, test: u64) -> Shape
    ensures told { TellsCut kinds.kinds test result.kinds }
{
    Shape {
        kinds: kinds.kinds & test_kinds(test).kinds,
    }
}

// Of these kinds those that a test does not mean; where there are decimals, `int` leaves int.
pub fn taken_out(kinds: Shape, test: u64) -> Shape
    ensures told { TellsOut kinds.kinds test result.kinds }
{
    if test == INT && kinds.has(Shape::DEC) {
        return kinds;
    }
    Shape {
        kinds: kinds.kinds & (127 - test_kinds(test).kinds),
    }
}

// These kinds, with null where those of the place have it.
pub fn gain_null(kinds: Shape, place: Shape) -> Shape
    ensures told { TellsGain kinds.kinds place.kinds result.kinds }
{
    if place.has(Shape::NULL) {
        return kinds.union(Shape::NULL);
    }
    kinds
}
