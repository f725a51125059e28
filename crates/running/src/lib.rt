// Running a reader on a document: a walk over its forms, an environment of the document's rows, and a table of results.
#![tactic(auto)]

ghost use Rattle.std.specs.Prelude.{◌≡◌};
ghost use Rattle.running.specs.declared.Halt.TheVariants.{Refused};
ghost use Rattle.running.specs.Run.{Runnable, RunsReader};

mod depth; // how deep a result is nested
mod going; // where running stands, and what it comes to
mod kinds; // the kinds that forms want
mod places;
mod rows; // rows of results
mod singles; // results that are one value
mod walk;

use definitions::Limits;
use going::{Cursor, Tables};
use reading::Refusal;

// Why a run gives no result.
#[derive(Clone, Copy)]
pub enum Halt {
    // a result of more values, or nested deeper, than allowed
    Over,
    // a form that is refused
    Refused(Refusal),
}

impl From<Refusal> for Halt {
    ghost from_gives = { λ why h. h ≡ Refused why };

    fn from(why: Refusal) -> Halt {
        Halt::Refused(why)
    }
}

// Runs the reader of a forms table on the document of a node table. The first rows of the results then hold a value, made in so
// many steps.
pub fn run(
    forms: &[u64],
    nodes: &[u64],
    pool: &[u64],
    bindings: &mut [u64],
    results: &mut [u64],
    limits: Limits,
) -> Result<usize, Halt>
    requires { Runnable forms.now nodes.now pool.now bindings.old results.old limits }
    ensures ran { RunsReader forms.now nodes.now pool.now results.new limits result }
{
    bindings[0] = 0; // the document's row
    let t = Tables {
        forms,
        nodes,
        pool,
        limit: limits.steps,
    };
    let start = Cursor {
        row: 0,
        name: 0,
        bound: 1,
        begun: 0,
        steps: 0,
    };
    let done = walk::run_form(&t, bindings, results, start)?;
    if limits.values < done.begun {
        return Err(Halt::Over);
    }
    if depth::is_deep(results, 0, limits.nesting) {
        return Err(Halt::Over);
    }
    Ok(done.steps)
}
