// Null for the members of a shape that a record lacks.
ghost use Rattle.growing.specs.Rows.{Room, Nullable};
ghost use Rattle.infer.specs.Inferring.{MembersThere, NullsOthers};

use growing::lacked::{Names, null_lacked};

// The members of a record, whose rows stand in the node table from one row up to another.
#[derive(Drop)]
struct Members<'a> {
    nodes: &'a [u64],
    at: usize,
    end: usize,
}

impl Names for Members<'_> {
    ghost there = { λ s. MembersThere s.nodes.now s.at s.end };

    fn has(&self, pool: &[u64], name: u64) -> bool {
        nodes::has_member(self.nodes, self.at, self.end, pool, name)
    }
}

// Adds null to the members that the record lacks, if there were members before; those that it has are listed.
pub fn null_others(
    shapes: &mut [u64],
    used: usize,
    first: usize,
    last: usize,
    nodes: &[u64],
    at: usize,
    end: usize,
    pool: &[u64],
    had: bool,
)
    requires nullable { Nullable (MembersThere nodes.now at end) shapes.old pool.now used first last }
    requires room { Room shapes.old used }
    ensures nulled { NullsOthers shapes.old nodes.now pool.now shapes.new
        used first last at end had }
{
    if had {
        // as many as are listed: none is lacked
        if shapes::member_count(shapes, first, last) == nodes::member_count(nodes, at, end) {
            return;
        }
        null_lacked(shapes, used, first, last, &Members { nodes, at, end }, pool);
    }
}
