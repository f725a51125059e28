// Checking a reader against a shape: which form is refused with 9 or 10, or which kinds its result has.
#![tactic(auto)]

ghost use Rattle.std.specs.Prelude.{◌%◌, ◌^◌, ◌<◌, ◌≡◌, length, get_or};
ghost use Rattle.checking.specs.CheckContracts.{FormAsked, GivesForm, ReaderAsked, ChecksReader};

use bindings::Binding;
use reading::Refusal;
use shapes::Shape;

pub mod bindings;
pub mod kinds;
pub mod places;
pub mod simple;

// Checks `each`: its place, its result with the element bound, then the form itself.
#[cycle(check_each_check_form_check_if_check_pack_check_when)]
fn check_each(
    forms: &[u64],
    row: usize,
    shapes: &[u64],
    pool: &[u64],
    bindings: &mut [u64],
    bound: usize,
) -> Result<Shape, Refusal>
    requires form_asked { FormAsked forms.now shapes.now pool.now bindings.old row bound }
    requires small { length shapes.now < 2 ^ 56 }
    requires each { get_or forms.now row 0 % 32 ≡ 9 }
    ensures checked { GivesForm forms.now shapes.now pool.now bindings.old bindings.new
        row bound result }
{
    let found = places::locate(forms, row + 3, shapes, pool, bindings);
    let Ok(of) = found else {
        return simple::refusal(found);
    };
    bindings::bind_element(bindings, bound, shapes, of);
    let body = row + 3 + forms::size(forms, row + 3);
    let part = check_form(forms, body, shapes, pool, bindings, bound + 1);
    let Ok(_) = part else {
        return part;
    };
    let place = forms::place(forms, row);
    simple::want(of.kinds, kinds::LISTS, Shape::LIST, place)
}

// Checks `when`: its place, then each result with what K leaves of the place bound.
#[cycle(check_each_check_form_check_if_check_pack_check_when)]
fn check_when(
    forms: &[u64],
    row: usize,
    shapes: &[u64],
    pool: &[u64],
    bindings: &mut [u64],
    bound: usize,
) -> Result<Shape, Refusal>
    requires form_asked { FormAsked forms.now shapes.now pool.now bindings.old row bound }
    requires small { length shapes.now < 2 ^ 56 }
    requires when { get_or forms.now row 0 % 32 ≡ 10 }
    ensures checked { GivesForm forms.now shapes.now pool.now bindings.old bindings.new
        row bound result }
{
    let found = places::locate(forms, row + 3, shapes, pool, bindings);
    let Ok(of) = found else {
        return simple::refusal(found);
    };
    let test = forms::operand(forms, row);
    let first = row + 3 + forms::size(forms, row + 3);
    let cut = kinds::cut(of.kinds, test);
    bindings::bind(bindings, bound, Binding { kinds: cut, ..of });
    let part = check_form(forms, first, shapes, pool, bindings, bound + 1);
    let Ok(a) = part else {
        return part;
    };
    let second = first + forms::size(forms, first);
    let rest = kinds::taken_out(of.kinds, test);
    bindings::bind(bindings, bound, Binding { kinds: rest, ..of });
    let part = check_form(forms, second, shapes, pool, bindings, bound + 1);
    let Ok(b) = part else {
        return part;
    };
    Ok(a.union(b))
}

// Checks `if`: its three results, then that the first is a bool.
#[cycle(check_each_check_form_check_if_check_pack_check_when)]
fn check_if(
    forms: &[u64],
    row: usize,
    shapes: &[u64],
    pool: &[u64],
    bindings: &mut [u64],
    bound: usize,
) -> Result<Shape, Refusal>
    requires form_asked { FormAsked forms.now shapes.now pool.now bindings.old row bound }
    requires small { length shapes.now < 2 ^ 56 }
    requires choose { get_or forms.now row 0 % 32 ≡ 11 }
    ensures checked { GivesForm forms.now shapes.now pool.now bindings.old bindings.new
        row bound result }
{
    let part = check_form(forms, row + 3, shapes, pool, bindings, bound);
    let Ok(a) = part else {
        return part;
    };
    let second = row + 3 + forms::size(forms, row + 3);
    let part = check_form(forms, second, shapes, pool, bindings, bound);
    let Ok(b) = part else {
        return part;
    };
    let third = second + forms::size(forms, second);
    let part = check_form(forms, third, shapes, pool, bindings, bound);
    let Ok(c) = part else {
        return part;
    };
    let place = forms::place(forms, row);
    simple::want(a, Shape::BOOL, b.union(c), place)
}

// Checks `pack`: its results.
#[cycle(check_each_check_form_check_if_check_pack_check_when)]
fn check_pack(
    forms: &[u64],
    row: usize,
    shapes: &[u64],
    pool: &[u64],
    bindings: &mut [u64],
    bound: usize,
) -> Result<Shape, Refusal>
    requires form_asked { FormAsked forms.now shapes.now pool.now bindings.old row bound }
    requires small { length shapes.now < 2 ^ 56 }
    requires pack { get_or forms.now row 0 % 32 ≡ 17 }
    ensures checked { GivesForm forms.now shapes.now pool.now bindings.old bindings.new
        row bound result }
{
    let end = row + forms::size(forms, row);
    let mut i = row + 3;
    while i < end {
        let part = check_form(forms, i, shapes, pool, bindings, bound);
        let Ok(_) = part else {
            return part;
        };
        i += forms::size(forms, i); // a row tells where the next begins
    }
    Ok(Shape::REC)
}

// Checks the result at a row of the forms table.
#[cycle(check_each_check_form_check_if_check_pack_check_when)]
fn check_form(
    forms: &[u64],
    row: usize,
    shapes: &[u64],
    pool: &[u64],
    bindings: &mut [u64],
    bound: usize,
) -> Result<Shape, Refusal>
    requires form_asked { FormAsked forms.now shapes.now pool.now bindings.old row bound }
    requires small { length shapes.now < 2 ^ 56 }
    ensures checked { GivesForm forms.now shapes.now pool.now bindings.old bindings.new
        row bound result }
{
    match forms::code(forms, row) {
        forms::EACH => check_each(forms, row, shapes, pool, bindings, bound),
        forms::WHEN => check_when(forms, row, shapes, pool, bindings, bound),
        forms::IF => check_if(forms, row, shapes, pool, bindings, bound),
        forms::PACK => check_pack(forms, row, shapes, pool, bindings, bound),
        _ => simple::check_simple(forms, row, shapes, pool, bindings),
    }
}

// Checks a reader against the shape at the first row of the shapes table, which is bound to the document.
pub fn check(
    forms: &[u64],
    shapes: &[u64],
    pool: &[u64],
    bindings: &mut [u64],
) -> Result<Shape, Refusal>
    requires reader_asked { ReaderAsked forms.now shapes.now pool.now bindings.old }
    requires small { length shapes.now < 2 ^ 56 }
    ensures checked { ChecksReader forms.now shapes.now pool.now bindings.old result }
    ensures same { length bindings.new ≡ length bindings.old }
{
    let kinds = shapes::kinds(shapes, 0);
    bindings::bind(bindings, 0, Binding { row: 0, kinds });
    check_form(forms, 0, shapes, pool, bindings, 1)
}
