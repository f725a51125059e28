// The shape that a checked reader gives: each form joins what it gives into a row of the result's table, in place. Both branches of
// `when` and `if` are joined into one row, and a condition makes no rows. Where it walks `env` has the bindings, and `into` the result.
#![tactic(auto)]

ghost use Rattle.std.specs.Prelude.{◌%◌, ◌≤◌, ◌≡◌, length, get_or};
ghost use Rattle.checking.specs.Bindings.{Kept};
ghost use Rattle.result_shape.specs.Giving.{Tables, ResultAsked, GivesResult, PairAsked, GivesPair, PackAsked, GivesPack};
ghost use Rattle.result_shape.specs.Giving.{ReaderAsked, GivesReader};

use checking::bindings::Binding;
use checking::{bindings, places};
use shapes::Shape;

mod keeping;
mod kinds;
mod lacked;

// A reader that has passed the check: its forms, the table of the shape that it was checked against, and the pool of their names.
#[derive(Drop)]
struct Reader<'a> {
    forms: &'a [u64],
    shapes: &'a [u64],
    pool: &'a [u64],
}

// Joins the shape of the place of a `keep`.
fn result_keep(
    reader: &Reader,
    row: usize,
    env: &[u64],
    bound: usize,
    into: &mut [u64],
    used: usize,
    dest: usize,
    deep: usize,
) -> Option<usize>
    requires result_asked { ResultAsked reader.now.forms.now reader.now.shapes.now reader.now.pool.now env.now into.old row bound used dest deep }
    requires tables { Tables reader.now.shapes.now into.old used }
    requires code { get_or reader.now.forms.now row 0 % 32 ≡ 7 }
    ensures given { GivesResult reader.now.forms.now reader.now.shapes.now reader.now.pool.now env.now into.old
        into.new row bound used dest deep result }
{
    let Ok(of) = places::locate(reader.forms, row + 3, reader.shapes, reader.pool, env) else {
        unreachable!() // the check has passed
    };
    keeping::keep(reader.shapes, of, reader.pool, into, used, dest, deep)
}

// Joins what an `each` gives: its result, into the element.
#[cycle(result_choose_result_each_result_into_result_pack_result_pair_result_pairs_result_when)]
fn result_each(
    reader: &Reader,
    row: usize,
    env: &mut [u64],
    bound: usize,
    into: &mut [u64],
    used: usize,
    dest: usize,
    deep: usize,
) -> Option<usize>
    requires result_asked { ResultAsked reader.now.forms.now reader.now.shapes.now reader.now.pool.now env.old into.old row bound used dest deep }
    requires tables { Tables reader.now.shapes.now into.old used }
    requires code { get_or reader.now.forms.now row 0 % 32 ≡ 9 }
    ensures given { GivesResult reader.now.forms.now reader.now.shapes.now reader.now.pool.now env.old into.old
        into.new row bound used dest deep result }
    ensures kept { Kept env.old env.new bound }
{
    let Ok(of) = places::locate(reader.forms, row + 3, reader.shapes, reader.pool, env) else {
        unreachable!() // the check has passed
    };
    bindings::bind_element(env, bound, reader.shapes, of);
    let opened = growing::ready_element(into, used, dest)?;
    let part = row + 3 + forms::size(reader.forms, row + 3);
    let words = result_into(
        reader,
        part,
        env,
        bound + 1,
        into,
        used + opened,
        dest + 2,
        deep,
    )?;
    growing::raise(into, dest, Shape::LIST, opened + words);
    Some(opened + words)
}

// Joins what the branches of a `when` give, each with its own kinds of the place bound.
#[cycle(result_choose_result_each_result_into_result_pack_result_pair_result_pairs_result_when)]
fn result_when(
    reader: &Reader,
    row: usize,
    env: &mut [u64],
    bound: usize,
    into: &mut [u64],
    used: usize,
    dest: usize,
    deep: usize,
) -> Option<usize>
    requires result_asked { ResultAsked reader.now.forms.now reader.now.shapes.now reader.now.pool.now env.old into.old row bound used dest deep }
    requires tables { Tables reader.now.shapes.now into.old used }
    requires code { get_or reader.now.forms.now row 0 % 32 ≡ 10 }
    ensures given { GivesResult reader.now.forms.now reader.now.shapes.now reader.now.pool.now env.old into.old
        into.new row bound used dest deep result }
    ensures kept { Kept env.old env.new bound }
{
    let Ok(of) = places::locate(reader.forms, row + 3, reader.shapes, reader.pool, env) else {
        unreachable!() // the check has passed
    };
    let test = forms::operand(reader.forms, row);
    let first = row + 3 + forms::size(reader.forms, row + 3);
    let second = first + forms::size(reader.forms, first);
    let kinds = checking::kinds::cut(of.kinds, test);
    bindings::bind(env, bound, Binding { kinds, ..of });
    let words = result_into(reader, first, env, bound + 1, into, used, dest, deep)?;
    let kinds = checking::kinds::taken_out(of.kinds, test);
    bindings::bind(env, bound, Binding { kinds, ..of });
    let more = result_into(
        reader,
        second,
        env,
        bound + 1,
        into,
        used + words,
        dest,
        deep,
    )?;
    Some(words + more)
}

// Joins what the branches of an `if` give.
#[cycle(result_choose_result_each_result_into_result_pack_result_pair_result_pairs_result_when)]
fn result_choose(
    reader: &Reader,
    row: usize,
    env: &mut [u64],
    bound: usize,
    into: &mut [u64],
    used: usize,
    dest: usize,
    deep: usize,
) -> Option<usize>
    requires result_asked { ResultAsked reader.now.forms.now reader.now.shapes.now reader.now.pool.now env.old into.old row bound used dest deep }
    requires tables { Tables reader.now.shapes.now into.old used }
    requires code { get_or reader.now.forms.now row 0 % 32 ≡ 11 }
    ensures given { GivesResult reader.now.forms.now reader.now.shapes.now reader.now.pool.now env.old into.old
        into.new row bound used dest deep result }
    ensures kept { Kept env.old env.new bound }
{
    let first = row + 3 + forms::size(reader.forms, row + 3);
    let second = first + forms::size(reader.forms, first);
    let words = result_into(reader, first, env, bound, into, used, dest, deep)?;
    let more = result_into(reader, second, env, bound, into, used + words, dest, deep)?;
    Some(words + more)
}

// Joins one of a pack's results into the members whose rows stand from one row up to another; a new one has null, if there were
// members before.
#[cycle(result_choose_result_each_result_into_result_pack_result_pair_result_pairs_result_when)]
fn result_pair(
    reader: &Reader,
    row: usize,
    env: &mut [u64],
    bound: usize,
    into: &mut [u64],
    used: usize,
    first: usize,
    last: usize,
    deep: usize,
    had: bool,
) -> Option<usize>
    requires pair_asked { PairAsked reader.now.forms.now reader.now.shapes.now reader.now.pool.now env.old into.old row bound used first last deep }
    requires tables { Tables reader.now.shapes.now into.old used }
    ensures given { GivesPair reader.now.forms.now reader.now.shapes.now reader.now.pool.now env.old into.old
        into.new row bound used first last deep had result }
    ensures kept { Kept env.old env.new bound }
{
    let name = forms::name(reader.forms, row);
    match growing::find_place(into, used, first, last, reader.pool, name) {
        Ok(place) => result_into(reader, row, env, bound, into, used, place, deep),
        Err(place) => {
            let opened = growing::open_row(into, used, place, growing::start_kinds(had), name)?;
            let words = result_into(reader, row, env, bound, into, used + opened, place, deep)?;
            Some(opened + words)
        }
    }
}

// Joins a pack's results, whose rows stand from one row up to another, into the members of a shape.
#[cycle(result_choose_result_each_result_into_result_pack_result_pair_result_pairs_result_when)]
fn result_pairs(
    reader: &Reader,
    row: usize,
    end: usize,
    env: &mut [u64],
    bound: usize,
    into: &mut [u64],
    used: usize,
    first: usize,
    last: usize,
    deep: usize,
    had: bool,
) -> Option<usize>
    requires pack_asked { PackAsked reader.now.forms.now reader.now.shapes.now reader.now.pool.now env.old into.old row end bound used first last deep }
    requires tables { Tables reader.now.shapes.now into.old used }
    ensures given { GivesPack reader.now.forms.now reader.now.shapes.now reader.now.pool.now env.old into.old
        into.new row end bound used first last deep had result }
    ensures kept { Kept env.old env.new bound }
{
    let mut i = row;
    let mut grown: usize = 0;
    while i < end {
        grown += result_pair(
            reader,
            i,
            env,
            bound,
            into,
            used + grown,
            first,
            last + grown,
            deep,
            had,
        )?;
        i += forms::size(reader.forms, i);
    }
    Some(grown)
}

// Joins what a pack gives: its results, each into the member of its name.
#[cycle(result_choose_result_each_result_into_result_pack_result_pair_result_pairs_result_when)]
fn result_pack(
    reader: &Reader,
    row: usize,
    env: &mut [u64],
    bound: usize,
    into: &mut [u64],
    used: usize,
    dest: usize,
    deep: usize,
) -> Option<usize>
    requires result_asked { ResultAsked reader.now.forms.now reader.now.shapes.now reader.now.pool.now env.old into.old row bound used dest deep }
    requires tables { Tables reader.now.shapes.now into.old used }
    requires code { get_or reader.now.forms.now row 0 % 32 ≡ 17 }
    ensures given { GivesResult reader.now.forms.now reader.now.shapes.now reader.now.pool.now env.old into.old
        into.new row bound used dest deep result }
    ensures kept { Kept env.old env.new bound }
{
    let end = row + forms::size(reader.forms, row);
    let had = shapes::kinds(into, dest).has(Shape::REC);
    let first = shapes::members(into, dest);
    let last = dest + shapes::size(into, dest);
    let words = result_pairs(
        reader,
        row + 3,
        end,
        env,
        bound,
        into,
        used,
        first,
        last,
        deep,
        had,
    )?;
    lacked::null_others(
        into,
        used + words,
        first,
        last + words,
        reader.forms,
        row + 3,
        end,
        reader.pool,
        had,
    );
    growing::raise(into, dest, Shape::REC, words);
    Some(words)
}

// Joins what the form at a row gives into the shape at a row of the result's table.
#[cycle(result_choose_result_each_result_into_result_pack_result_pair_result_pairs_result_when)]
fn result_into(
    reader: &Reader,
    row: usize,
    env: &mut [u64],
    bound: usize,
    into: &mut [u64],
    used: usize,
    dest: usize,
    deep: usize,
) -> Option<usize>
    requires result_asked { ResultAsked reader.now.forms.now reader.now.shapes.now reader.now.pool.now env.old into.old row bound used dest deep }
    requires tables { Tables reader.now.shapes.now into.old used }
    ensures given { GivesResult reader.now.forms.now reader.now.shapes.now reader.now.pool.now env.old into.old
        into.new row bound used dest deep result }
    ensures kept { Kept env.old env.new bound }
{
    match forms::code(reader.forms, row) {
        forms::KEEP => result_keep(reader, row, env, bound, into, used, dest, deep),
        forms::EACH => result_each(reader, row, env, bound, into, used, dest, deep),
        forms::WHEN => result_when(reader, row, env, bound, into, used, dest, deep),
        forms::IF => result_choose(reader, row, env, bound, into, used, dest, deep),
        forms::PACK => result_pack(reader, row, env, bound, into, used, dest, deep),
        code => {
            let operand = forms::operand(reader.forms, row);
            let kinds = kinds::bare_kinds(code, operand, forms::payload(reader.forms, row));
            growing::raise(into, dest, kinds, 0);
            Some(0)
        }
    }
}

// The shape that the reader gives, in a table that holds nothing before; the shape it was checked against stands at the first row.
pub fn result(
    forms: &[u64],
    shapes: &[u64],
    pool: &[u64],
    bindings: &mut [u64],
    res: &mut [u64],
    deep: usize,
) -> Option<usize>
    requires reader_asked { ReaderAsked forms.now shapes.now pool.now bindings.old deep }
    requires small { length res.old ≤ 65536 }
    requires few { length shapes.now ≤ 65536 }
    ensures given { GivesReader forms.now shapes.now pool.now bindings.old res.new
        deep (length res.old) result }
{
    if res.len() < 2 {
        return None;
    }
    shapes::put_row(res, 0, Shape::NOTHING, 2, 0);
    let kinds = shapes::kinds(shapes, 0);
    bindings::bind(bindings, 0, Binding { row: 0, kinds });
    let reader = Reader {
        forms,
        shapes,
        pool,
    };
    result_into(&reader, 0, bindings, 1, res, 2, 0, deep)
}
