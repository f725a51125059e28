// What is left of a shape of one table, joined into a shape of another.
ghost use Rattle.definitions.specs.Join.{join};
ghost use Rattle.join.specs.Joining.{join_records, join_elements};
ghost use Rattle.result_shape.specs.Giving.{Tables, KeptAsked, GivesKept};

use checking::bindings::Binding;
use shapes::Shape;

// Joins the members, where rec is left.
fn keep_members(
    shapes: &[u64],
    of: Binding,
    pool: &[u64],
    res: &mut [u64],
    used: usize,
    dest: usize,
    deep: usize,
) -> Option<usize>
    requires kept_asked { KeptAsked shapes.now pool.now res.old of.row of.kinds.kinds used dest deep }
    requires tables { Tables shapes.now res.old used }
    ensures kept { GivesKept join_records shapes.now pool.now res.old res.new
        of.row of.kinds.kinds used dest deep result }
{
    if !of.kinds.has(Shape::REC) {
        return Some(0);
    }
    join::join_record(res, used, dest, shapes, of.row, pool, deep)
}

// Joins the element, where list is left.
fn keep_element(
    shapes: &[u64],
    of: Binding,
    pool: &[u64],
    res: &mut [u64],
    used: usize,
    dest: usize,
    deep: usize,
) -> Option<usize>
    requires kept_asked { KeptAsked shapes.now pool.now res.old of.row of.kinds.kinds used dest deep }
    requires tables { Tables shapes.now res.old used }
    ensures kept { GivesKept join_elements shapes.now pool.now res.old res.new
        of.row of.kinds.kinds used dest deep result }
{
    if !of.kinds.has(Shape::LIST) {
        return Some(0);
    }
    join::join_element(res, used, dest, shapes, of.row, pool, deep)
}

// Joins what these kinds leave of the shape at a row into that of another table.
pub fn keep(
    shapes: &[u64],
    of: Binding,
    pool: &[u64],
    res: &mut [u64],
    used: usize,
    dest: usize,
    deep: usize,
) -> Option<usize>
    requires kept_asked { KeptAsked shapes.now pool.now res.old of.row of.kinds.kinds used dest deep }
    requires tables { Tables shapes.now res.old used }
    ensures kept { GivesKept join shapes.now pool.now res.old res.new
        of.row of.kinds.kinds used dest deep result }
{
    let words = keep_members(shapes, of, pool, res, used, dest, deep)?;
    let more = keep_element(shapes, of, pool, res, used + words, dest, deep)?;
    growing::raise(res, dest, of.kinds, 0);
    Some(words + more)
}
