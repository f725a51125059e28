// Null for the members of a shape that a pack lacks.
ghost use Rattle.growing.specs.Rows.{Room, Nullable, Nulls};
ghost use Rattle.result_shape.specs.Giving.{PairsThere};

use growing::lacked::{Names, null_lacked};

// The results of a pack, whose rows stand in the forms table from one row up to another.
#[derive(Drop)]
struct Pairs<'a> {
    forms: &'a [u64],
    at: usize,
    end: usize,
}

impl Names for Pairs<'_> {
    ghost there = { λ s. PairsThere s.forms.now s.at s.end };

    fn has(&self, pool: &[u64], name: u64) -> bool {
        let word = nodes::text_word(name);
        forms::has_name(
            self.forms,
            self.at,
            self.end,
            pool,
            word,
            nodes::text_bytes(name),
        )
    }
}

// Adds null to the members that the pack lacks, if there were members before.
pub fn null_others(
    res: &mut [u64],
    used: usize,
    first: usize,
    last: usize,
    forms: &[u64],
    at: usize,
    end: usize,
    pool: &[u64],
    had: bool,
)
    requires nullable { Nullable (PairsThere forms.now at end) res.old pool.now used first last }
    requires room { Room res.old used }
    ensures nulled { Nulls (PairsThere forms.now at end) res.old pool.now res.new
        used first last had }
{
    if had {
        null_lacked(res, used, first, last, &Pairs { forms, at, end }, pool);
    }
}
