// Bindings: one word each, the row of a shape and the kinds that are left of it, or null beside them.
ghost use Rattle.std.specs.Prelude.{◌≡◌, ◌/◌, ◌%◌, ◌^◌, ◌<◌, length, get_or, set};
ghost use Rattle.checking.specs.Bindings.{binding, SomeBound, BindsElement};

use shapes::Shape;

// What is bound: the row of a shape, and the kinds that are left of it.
#[derive(Clone, Copy)]
pub struct Binding {
    pub row: usize,
    pub kinds: Shape,
}

// The word of a slot.
fn word(bindings: &[u64], slot: usize) -> u64
    ensures read { result ≡ get_or bindings.now slot 0 }
{
    if slot < bindings.len() {
        bindings[slot]
    } else {
        0
    }
}

// The binding of a slot.
pub fn bound(bindings: &[u64], slot: usize) -> Binding
    ensures row { result.row ≡ get_or bindings.now slot 0 / 128 }
    ensures kinds { result.kinds.kinds ≡ get_or bindings.now slot 0 % 128 }
{
    let w = word(bindings, slot);
    Binding {
        row: (w / 128) as usize,
        kinds: Shape { kinds: w % 128 },
    }
}

// Binds the shape at a row, with these kinds left of it.
pub fn bind(bindings: &mut [u64], slot: usize, b: Binding)
    requires slot_in_bounds { slot < length bindings.old }
    requires fits { binding b.row b.kinds.kinds < 2 ^ 64 }
    ensures put { bindings.new ≡ set bindings.old slot (binding b.row b.kinds.kinds) }
{
    bindings[slot] = b.kinds.kinds + 128 * (b.row as u64);
}

// Binds the element of the shape at a row, of which these kinds are left: nothing, where list is not.
pub fn bind_element(bindings: &mut [u64], slot: usize, shapes: &[u64], of: Binding)
    requires slot_in_bounds { slot < length bindings.old }
    requires there { SomeBound shapes.now of.row of.kinds.kinds }
    requires small { length shapes.now < 2 ^ 56 }
    ensures element { BindsElement shapes.now bindings.old bindings.new slot of.row of.kinds.kinds }
{
    if of.kinds.has(Shape::LIST) {
        let row = of.row + 2;
        let kinds = shapes::kinds(shapes, row);
        bind(bindings, slot, Binding { row, kinds });
    } else {
        let kinds = Shape::NOTHING;
        bind(bindings, slot, Binding { kinds, ..of });
    }
}
