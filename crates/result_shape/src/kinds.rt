// The kinds that a form gives, where it has no parts to give.
ghost use Rattle.result_shape.specs.Giving.{TellsBare};

use checking::simple;
use shapes::Shape;

// The kinds of a conversion, of `count` and of a literal.
pub fn bare_kinds(code: u64, operand: u64, payload: u64) -> Shape
    ensures told { TellsBare code operand payload result.kinds }
{
    if code == forms::COUNT {
        return Shape::INT;
    }
    if code < forms::COUNT {
        return simple::conversion_kinds(code);
    }
    simple::literal_kinds(code, operand, payload)
}
