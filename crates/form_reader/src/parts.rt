// The results inside a result, one after the other, and the bracket behind them.
ghost use Rattle.std.specs.Prelude.{◌≡◌, ◌^◌, ◌<◌};
ghost use Rattle.form_reader.specs.FormLeads.{parts_of, inner_bound};
ghost use Rattle.form_reader.specs.FormParts.{PartsKnown, PairsKnown, Turns, PairTurns};

use crate::opening::close_form;
use reading::{Cursor, Refusal};
use tokens::expect;
use tokens::expect::misplaced;

// How many results a result of this code has; of a pack, which may have any number, 0.
#[tactic(auto, using(crate::proofs::LeadLaws::parts_told))]
pub fn parts_of(code: u64) -> usize
    ensures told { result ≡ parts_of code }
{
    match code {
        forms::EACH => 1,
        forms::WHEN => 2,
        forms::IF => 3,
        _ => 0,
    }
}

// How many bindings there are inside a result of this code.
#[tactic(auto, using(crate::proofs::LeadLaws::bounds_told))]
pub fn inner_bound(code: u64, bound: usize) -> usize
    requires { bound < 2 ^ 63 }
    ensures told { result ≡ inner_bound code bound }
{
    match code {
        forms::EACH | forms::WHEN => bound + 1,
        _ => bound,
    }
}

// What comes next: a result from a cursor on, under a name, and how many more behind it; or none, and the bracket behind them is read.
#[derive(Clone, Copy)]
pub enum Turn {
    More {
        from: Cursor,
        name: u64,
        more: usize,
    },
    End {
        to: Cursor,
    },
}

// Goes on where a name or the bracket that ends a pack must come, behind the results whose rows begin at row `first`. It stays
// a call, as `read_text` does.
#[inline(never)]
fn next_pair(
    text: &[u8],
    forms: &[u64],
    pool: &mut [u64],
    first: usize,
    c: Cursor,
) -> Result<Turn, Refusal>
    requires { PairsKnown text.now forms.now pool.old first c }
    ensures read { PairTurns text.now forms.now pool.old pool.new first c result }
{
    let Ok(quoted) = expect::next_text(text, c.at, pool, c.top) else {
        let to = close_form(text, c)?;
        return Ok(Turn::End { to });
    };
    if forms::has_name(forms, 3 * first, 3 * c.begun, pool, c.top, quoted.bytes) {
        return Err(misplaced(quoted.place));
    }
    let from = Cursor {
        at: quoted.end,
        top: c.top + (quoted.bytes + 7) / 8,
        ..c
    };
    let name = nodes::text_reference(c.top, quoted.bytes);
    Ok(Turn::More {
        from,
        name,
        more: 0,
    })
}

// Goes on inside a result of this code, of whose results so many must come, behind those whose rows begin at row `first`.
pub fn next_part(
    text: &[u8],
    forms: &[u64],
    pool: &mut [u64],
    code: u64,
    more: usize,
    first: usize,
    c: Cursor,
) -> Result<Turn, Refusal>
    requires { PartsKnown text.now forms.now pool.old code more first c }
    ensures read { Turns text.now forms.now pool.old pool.new code more first c result }
{
    if 0 < more {
        return Ok(Turn::More {
            from: c,
            name: 0,
            more: more - 1,
        });
    }
    if code == forms::PACK {
        return next_pair(text, forms, pool, first, c);
    }
    let to = close_form(text, c)?;
    Ok(Turn::End { to })
}
