// Running forms: each calls its parts back, at later rows of the forms table.
ghost use Rattle.running.specs.Walk.{Ready, Entered, Following, Runs, Follows};

use crate::going::{Cursor, Done, Tables};
use crate::kinds::is_kind;
use crate::places::run_operand;
use crate::rows::{close_list, close_record, items_end};
use crate::singles::{give_count, give_literal, give_value};
use reading::{Cause, Refusal};

// Runs the results of a pack, each under its name.
#[cycle(run_each_run_form_run_if_run_on_run_pack_run_when)]
fn run_pack(
    t: &Tables,
    bindings: &mut [u64],
    results: &mut [u64],
    c: Cursor,
) -> Result<Done, Refusal>
    requires { Entered t.now.forms.now t.now.nodes.now t.now.pool.now bindings.old results.old t.now.limit c 17 }
    ensures ran { Runs t.now.forms.now t.now.nodes.now t.now.pool.now bindings.old bindings.new
        results.old results.new t.now.limit c result }
{
    let end = c.row + forms::size(t.forms, c.row);
    let mut row = c.row + 3;
    let mut begun = c.begun + 1;
    let mut steps = c.steps + 1;
    while row < end {
        let name = forms::name(t.forms, row);
        let part = Cursor {
            row,
            name,
            bound: c.bound,
            begun,
            steps,
        };
        let r = run_form(t, bindings, results, part);
        let Ok(done) = r else {
            return r;
        };
        begun = done.begun;
        steps = done.steps;
        row += forms::size(t.forms, row); // a row tells where the next begins
    }
    close_record(results, c.begun, begun, t.pool, c.name);
    Ok(Done {
        kind: nodes::RECORD,
        begun,
        steps,
    })
}

// Runs the chosen branch of an `if`. Its condition makes no rows: it runs where the table has no room.
#[cycle(run_each_run_form_run_if_run_on_run_pack_run_when)]
fn run_if(t: &Tables, bindings: &mut [u64], results: &mut [u64], c: Cursor) -> Result<Done, Refusal>
    requires { Entered t.now.forms.now t.now.nodes.now t.now.pool.now bindings.old results.old t.now.limit c 11 }
    ensures ran { Runs t.now.forms.now t.now.nodes.now t.now.pool.now bindings.old bindings.new
        results.old results.new t.now.limit c result }
{
    let first = c.row + 3;
    let test = Cursor {
        row: first,
        name: 0,
        begun: results.len(),
        steps: c.steps + 1,
        ..c
    };
    let r = run_form(t, bindings, results, test);
    let Ok(done) = r else {
        return r;
    };
    let steps = done.steps;
    let second = first + forms::size(t.forms, first);
    if done.kind == nodes::TRUE {
        let part = Cursor {
            row: second,
            steps,
            ..c
        };
        return run_form(t, bindings, results, part);
    }
    if done.kind == nodes::FALSE {
        let part = Cursor {
            row: second + forms::size(t.forms, second),
            steps,
            ..c
        };
        return run_form(t, bindings, results, part);
    }
    Err(Refusal {
        cause: Cause::Stuck,
        place: forms::place(t.forms, c.row),
    })
}

// Runs a branch of `when`, with the value at a row of the document bound.
#[cycle(run_each_run_form_run_if_run_on_run_pack_run_when)]
#[inline(always)]
fn run_when(
    t: &Tables,
    bindings: &mut [u64],
    results: &mut [u64],
    c: Cursor,
    at: usize,
    steps: usize,
) -> Result<Done, Refusal>
    requires { Following t.now.forms.now t.now.nodes.now t.now.pool.now bindings.old results.old t.now.limit c at steps 10 10 }
    ensures ran { Follows t.now.forms.now t.now.nodes.now t.now.pool.now bindings.old bindings.new
        results.old results.new t.now.limit c at steps result }
{
    bindings[c.bound] = at as u64;
    let place = c.row + 3;
    let first = place + forms::size(t.forms, place);
    let bound = c.bound + 1;
    if is_kind(t.nodes, at, forms::operand(t.forms, c.row)) {
        let part = Cursor {
            row: first,
            bound,
            steps,
            ..c
        };
        return run_form(t, bindings, results, part);
    }
    let part = Cursor {
        row: first + forms::size(t.forms, first),
        bound,
        steps,
        ..c
    };
    run_form(t, bindings, results, part)
}

// Runs the result of `each` for each element of the value at a row of the document, with the element bound.
#[cycle(run_each_run_form_run_if_run_on_run_pack_run_when)]
#[inline(always)]
fn run_each(
    t: &Tables,
    bindings: &mut [u64],
    results: &mut [u64],
    c: Cursor,
    at: usize,
    behind: usize,
) -> Result<Done, Refusal>
    requires { Following t.now.forms.now t.now.nodes.now t.now.pool.now bindings.old results.old t.now.limit c at behind 9 9 }
    ensures ran { Follows t.now.forms.now t.now.nodes.now t.now.pool.now bindings.old bindings.new
        results.old results.new t.now.limit c at behind result }
{
    let place = c.row + 3;
    let body = place + forms::size(t.forms, place);
    let bound = c.bound;
    let end = items_end(t.nodes, at);
    let mut i = at + 3;
    let mut begun = c.begun + 1;
    let mut steps = behind;
    while i < end {
        bindings[bound] = i as u64;
        let part = Cursor {
            row: body,
            name: 0,
            bound: bound + 1,
            begun,
            steps,
        };
        let r = run_form(t, bindings, results, part);
        let Ok(done) = r else {
            return r;
        };
        begun = done.begun;
        steps = done.steps;
        i += nodes::row_size(t.nodes, i); // a row tells where the next begins
    }
    close_list(results, c.begun, begun, c.name);
    Ok(Done {
        kind: nodes::LIST,
        begun,
        steps,
    })
}

// Goes on in a form whose place has given the value at a row of the document.
#[cycle(run_each_run_form_run_if_run_on_run_pack_run_when)]
fn run_on(
    t: &Tables,
    bindings: &mut [u64],
    results: &mut [u64],
    c: Cursor,
    at: usize,
    steps: usize,
) -> Result<Done, Refusal>
    requires { Following t.now.forms.now t.now.nodes.now t.now.pool.now bindings.old results.old t.now.limit c at steps 0 10 }
    ensures ran { Follows t.now.forms.now t.now.nodes.now t.now.pool.now bindings.old bindings.new
        results.old results.new t.now.limit c at steps result }
{
    match forms::code(t.forms, c.row) {
        forms::WHEN => run_when(t, bindings, results, c, at, steps),
        forms::EACH => run_each(t, bindings, results, c, at, steps),
        forms::COUNT => Ok(give_count(t, results, at, c, steps)),
        code => Ok(give_value(t, results, at, code, c, steps)),
    }
}

// Runs the form at a row.
#[cycle(run_each_run_form_run_if_run_on_run_pack_run_when)]
pub fn run_form(
    t: &Tables,
    bindings: &mut [u64],
    results: &mut [u64],
    c: Cursor,
) -> Result<Done, Refusal>
    requires { Ready t.now.forms.now t.now.nodes.now t.now.pool.now bindings.old results.old t.now.limit c }
    ensures ran { Runs t.now.forms.now t.now.nodes.now t.now.pool.now bindings.old bindings.new
        results.old results.new t.now.limit c result }
{
    if t.limit <= c.steps {
        return Err(Refusal {
            cause: Cause::StepLimit,
            place: forms::place(t.forms, c.row),
        });
    }
    match forms::code(t.forms, c.row) {
        forms::PACK => run_pack(t, bindings, results, c),
        forms::IF => run_if(t, bindings, results, c),
        code if forms::IF < code => Ok(give_literal(t, results, c)),
        _ => {
            let found = run_operand(t, bindings, c, c.steps + 1);
            let Ok(at) = found else {
                return Err(found.unwrap_err());
            };
            run_on(t, bindings, results, c, at.row, at.steps)
        }
    }
}
