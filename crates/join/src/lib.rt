// Joining a shape into another in place: what is new takes its place in byte order, and what stands behind it moves up.
#![tactic(auto)]

ghost use Rattle.std.specs.Prelude.{◌≡◌, ◌++◌, ◌∷◌, ◌+◌, ◌*◌, ◌%◌, ◌^◌, ◌≤◌, ◌<◌, true, false, length, get_or, take, drop};
ghost use Rattle.definitions.specs.Join.{join};
ghost use Rattle.shapes.specs.Shapes.{has_bit};
ghost use Rattle.join.specs.Replacing.{Opened, Puts};
ghost use Rattle.join.specs.Joining.{Insertable, Copied, null_head, TellsNext, passed_words, Mergeable, Merges, Turns, Turned};
ghost use Rattle.join.specs.Joining.{AddsNothing, Puttable, PutsNull, Beside, BecomesBoth, Joinable, JoinsTo, join_records, join_elements};

use shapes::Shape;
use std::cmp::Ordering;

// A function that changes a table in place answers how many words more it uses, or nothing where it can't hold what is to stand in it.
// The tables stay parameters of their own: a struct would be lent on at each call with another count of used words, which is no plainer.

// Moves the first words of a part, as many as are used, up by a gap.
pub fn open_gap(part: &mut [u64], used: usize, gap: usize)
    requires { used + gap ≤ length part.old }
    ensures opened { Opened part.old part.new used gap }
{
    part.copy_within(0..used, gap);
}

// Copies words of a second table to a place of a first. Not by `copy_from_slice`, which calls `memmove`: the archive for C needs no such name.
fn copy_rows(shapes: &mut [u64], at: usize, second: &[u64], from: usize, count: usize)
    requires count_in_bounds { at + count ≤ length shapes.old }
    requires within { from + count ≤ length second.now }
    ensures copied { shapes.new
        ≡ take at shapes.old ++ take count (drop from second.now) ++ drop (at + count) shapes.old }
{
    for i in 0..count {
        shapes[at + i] = second[from + i];
    }
}

// Puts words of a second table at a place of a first, whose later words move up.
fn put_rows(
    shapes: &mut [u64],
    used: usize,
    at: usize,
    second: &[u64],
    from: usize,
    count: usize,
) -> Option<usize>
    requires { Insertable shapes.old second.now used at from count }
    ensures put { Puts shapes.old shapes.new used at 0 count (Copied second.now from count) result }
{
    if shapes.len() - used < count {
        return None;
    }
    open_gap(&mut shapes[at..], used - at, count);
    copy_rows(shapes, at, second, from, count);
    Some(count)
}

// Adds null to the shape at a row.
#[tactic(auto, using(crate::proofs::Heads::null_kept, crate::proofs::Heads::null_put))]
fn add_null(shapes: &mut [u64], row: usize)
    requires row_in_bounds { row < length shapes.old }
    requires fits { get_or shapes.old row 0 + 1 < 2 ^ 64 }
    ensures added { shapes.new
        ≡ take row shapes.old ++ null_head (get_or shapes.old row 0) ∷ drop (row + 1) shapes.old }
{
    if shapes::kinds(shapes, row).has(Shape::NULL) {
        return;
    }
    shapes[row] += 1;
}

// Tells in the first word of the shape at a row that it has a kind more, or none, and words more.
#[tactic(auto, using(crate::proofs::Heads::head_set))]
fn grow_head(shapes: &mut [u64], row: usize, kind: Shape, words: usize)
    requires row_in_bounds { row < length shapes.old }
    requires fits { get_or shapes.old row 0 + kind.kinds + 128 * words < 2 ^ 64 }
    ensures told { shapes.new
        ≡ take row shapes.old ++ (get_or shapes.old row 0 + kind.kinds + 128 * words) ∷ drop (row + 1) shapes.old }
{
    shapes[row] += kind.kinds + 128 * (words as u64);
}

// Whose member is next where those of two shapes are walked together: less is the first's alone.
fn next_member(
    shapes: &[u64],
    row: usize,
    end: usize,
    second: &[u64],
    other: usize,
    to: usize,
    pool: &[u64],
) -> Ordering
    ensures told { TellsNext shapes.now second.now pool.now row end other to result }
{
    if to <= other {
        return Ordering::Less;
    }
    if end <= row {
        return Ordering::Greater;
    }
    let k = shapes::name(shapes, row);
    let m = shapes::name(second, other);
    // the two shapes mostly have their names from one
    if k == m {
        return Ordering::Equal;
    }
    shapes::compare_names(pool, k, m)
}

// How many words of the second a turn passes.
fn second_step(second: &[u64], other: usize, order: Ordering) -> usize
    ensures told { result ≡ passed_words second.now other order }
{
    match order {
        Ordering::Less => 0,
        Ordering::Equal | Ordering::Greater => shapes::size(second, other),
    }
}

// Puts a shape of a second table at a place of a first, with null added.
fn put_member(
    shapes: &mut [u64],
    used: usize,
    at: usize,
    second: &[u64],
    from: usize,
) -> Option<usize>
    requires { Puttable shapes.old second.now used at from }
    ensures put { PutsNull shapes.old shapes.new second.now used at from result }
{
    let count = shapes::size(second, from);
    let words = put_rows(shapes, used, at, second, from, count)?;
    add_null(shapes, at);
    Some(words)
}

// Gives the first, which lacks rec, the second's members.
fn put_members(
    shapes: &mut [u64],
    used: usize,
    row: usize,
    second: &[u64],
    other: usize,
) -> Option<usize>
    requires beside { Beside shapes.old second.now used row other }
    requires lacks { has_bit (get_or shapes.old row 0 % 128) 64 ≡ false }
    requires there { has_bit (get_or second.now other 0 % 128) 64 ≡ true }
    ensures put { BecomesBoth join_records shapes.old shapes.new second.now used row other result }
{
    let end = row + shapes::size(shapes, row);
    let from = shapes::members(second, other);
    let to = other + shapes::size(second, other);
    let words = put_rows(shapes, used, end, second, from, to - from)?;
    grow_head(shapes, row, Shape::REC, words);
    Some(words)
}

// Gives the first, which lacks list, the second's element.
fn put_element(
    shapes: &mut [u64],
    used: usize,
    row: usize,
    second: &[u64],
    other: usize,
) -> Option<usize>
    requires beside { Beside shapes.old second.now used row other }
    requires lacks { has_bit (get_or shapes.old row 0 % 128) 32 ≡ false }
    requires there { has_bit (get_or second.now other 0 % 128) 32 ≡ true }
    ensures put { BecomesBoth join_elements shapes.old shapes.new second.now used row other result }
{
    let count = shapes::size(second, other + 2);
    let words = put_rows(shapes, used, row + 2, second, other + 2, count)?;
    grow_head(shapes, row, Shape::LIST, words);
    Some(words)
}

// Whether the shape at a row of a second table has no parts and no kind that the one at a row of a first lacks: a join changes nothing.
fn adds_nothing(shapes: &[u64], row: usize, second: &[u64], other: usize) -> bool
    ensures told { result ≡ true → AddsNothing shapes.now second.now row other }
{
    let kinds = shapes::kinds(second, other);
    !kinds.has(Shape::LIST) && !kinds.has(Shape::REC) && kinds.is_within(shapes::kinds(shapes, row))
}

// Joins the next member of the second into the first: a member of only one is kept with null added.
#[cycle(join_at_join_element_join_members_join_next_join_record)]
fn join_next(
    shapes: &mut [u64],
    used: usize,
    row: usize,
    second: &[u64],
    other: usize,
    order: Ordering,
    pool: &[u64],
    left: usize,
) -> Option<usize>
    requires { Turns order shapes.old second.now pool.now used row other left }
    ensures turned { Turned order shapes.old shapes.new second.now pool.now used row other left result }
{
    match order {
        Ordering::Less => {
            add_null(shapes, row);
            Some(0)
        }
        Ordering::Equal => {
            if adds_nothing(shapes, row, second, other) {
                return Some(0);
            }
            join_at(shapes, used, row, second, other, pool, left)
        }
        Ordering::Greater => put_member(shapes, used, row, second, other),
    }
}

// Joins the members of the second, up to an end, into those of the first, up to an end: both ascend, and are walked together.
#[cycle(join_at_join_element_join_members_join_next_join_record)]
fn join_members(
    shapes: &mut [u64],
    used: usize,
    row: usize,
    end: usize,
    second: &[u64],
    other: usize,
    to: usize,
    pool: &[u64],
    left: usize,
) -> Option<usize>
    requires { Mergeable shapes.old second.now pool.now used row end other to left }
    ensures merged { Merges shapes.old shapes.new second.now pool.now used row end other to left result }
{
    let mut i = row;
    let mut j = other;
    let mut words: usize = 0;
    // rows differ in size: no iterator of std's walks them
    while i + j < end + words + to {
        let order = next_member(shapes, i, end + words, second, j, to, pool);
        let more = join_next(shapes, used + words, i, second, j, order, pool, left)?;
        i += shapes::size(shapes, i);
        j += second_step(second, j, order);
        words += more;
    }
    Some(words)
}

// Joins the second's members into the first's.
#[cycle(join_at_join_element_join_members_join_next_join_record)]
pub fn join_record(
    shapes: &mut [u64],
    used: usize,
    row: usize,
    second: &[u64],
    other: usize,
    pool: &[u64],
    left: usize,
) -> Option<usize>
    requires { Joinable shapes.old second.now pool.now used row other left }
    ensures joined { JoinsTo join_records shapes.old shapes.new second.now pool.now used row other left result }
{
    if !shapes::kinds(second, other).has(Shape::REC) {
        return Some(0);
    }
    if !shapes::kinds(shapes, row).has(Shape::REC) {
        return put_members(shapes, used, row, second, other);
    }
    let at = shapes::members(shapes, row);
    let end = row + shapes::size(shapes, row);
    let from = shapes::members(second, other);
    let to = other + shapes::size(second, other);
    let words = join_members(shapes, used, at, end, second, from, to, pool, left - 1)?;
    grow_head(shapes, row, Shape::NOTHING, words);
    Some(words)
}

// Joins the second's element into the first's.
#[cycle(join_at_join_element_join_members_join_next_join_record)]
pub fn join_element(
    shapes: &mut [u64],
    used: usize,
    row: usize,
    second: &[u64],
    other: usize,
    pool: &[u64],
    left: usize,
) -> Option<usize>
    requires { Joinable shapes.old second.now pool.now used row other left }
    ensures joined { JoinsTo join_elements shapes.old shapes.new second.now pool.now
        used row other left result }
{
    if !shapes::kinds(second, other).has(Shape::LIST) {
        return Some(0);
    }
    if !shapes::kinds(shapes, row).has(Shape::LIST) {
        return put_element(shapes, used, row, second, other);
    }
    let words = join_at(shapes, used, row + 2, second, other + 2, pool, left - 1)?;
    grow_head(shapes, row, Shape::NOTHING, words);
    Some(words)
}

// Joins the shape at a row of a second table into that at a row of a first, in place.
#[cycle(join_at_join_element_join_members_join_next_join_record)]
pub fn join_at(
    shapes: &mut [u64],
    used: usize,
    row: usize,
    second: &[u64],
    other: usize,
    pool: &[u64],
    left: usize,
) -> Option<usize>
    requires { Joinable shapes.old second.now pool.now used row other left }
    ensures joined { JoinsTo join shapes.old shapes.new second.now pool.now used row other left result }
{
    let words = join_record(shapes, used, row, second, other, pool, left)?;
    let more = join_element(shapes, used + words, row, second, other, pool, left)?;
    let kinds = shapes::kinds(shapes, row).union(shapes::kinds(second, other));
    let size = shapes::size(shapes, row);
    shapes::put_head(shapes, row, kinds, size);
    Some(words + more)
}
