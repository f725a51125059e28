// The table of a reader: three words a form, in preorder. The functions that read it are total: past its end stands 0, which is
// the code of no form.
#![tactic(auto)]

ghost use Rattle.std.specs.Prelude.{◌≡◌, List, ◌++◌, ◌∷◌, ℕ, ◌+◌, ◌*◌, ◌/◌, ◌%◌, ◌^◌, ◌≤◌, ◌<◌, length, get_or, take, drop};
ghost use Rattle.definitions.specs.Reader.{Pairs, among_pairs};
ghost use Rattle.pool.specs.Pool.{text_in};
ghost use Rattle.forms.specs.Forms.{head_of, size_at, PairsStand, PairsHeld};

// The codes stay numbers, as a row packs them: past the end stands 0, the code of no form, so that reading a row asks nothing.

// The codes of places.
pub const IT: u64 = 1;

pub const FIELD: u64 = 2;

// The codes of results. Those from `INT` up to `WHEN` have a place.
pub const INT: u64 = 3;

pub const DEC: u64 = 4;

pub const BOOL: u64 = 5;

pub const TEXT: u64 = 6;

pub const KEEP: u64 = 7;

pub const COUNT: u64 = 8;

pub const EACH: u64 = 9;

pub const WHEN: u64 = 10;

pub const IF: u64 = 11;

pub const NUM: u64 = 12;

pub const STR: u64 = 13;

pub const YES: u64 = 14;

pub const NO: u64 = 15;

pub const NONE: u64 = 16;

pub const PACK: u64 = 17;

// ---- a row's words

// The word at a place.
fn word(forms: &[u64], i: usize) -> u64
    ensures read { result ≡ get_or forms.now i 0 }
{
    forms.get(i).copied().unwrap_or(0)
}

// The code of the form at a row.
pub fn code(forms: &[u64], row: usize) -> u64
    ensures read { result ≡ get_or forms.now row 0 % 32 }
{
    word(forms, row) % 32
}

// The operand of the form at a row: K of `when`, sign and scale of `num`.
pub fn operand(forms: &[u64], row: usize) -> u64
    ensures read { result ≡ get_or forms.now row 0 / 32 % 64 }
{
    word(forms, row) / 32 % 64
}

// Where the bracket of the form at a row stands in the text.
pub fn place(forms: &[u64], row: usize) -> usize
    ensures read { result ≡ get_or forms.now row 0 / 2048 % 65536 }
{
    (word(forms, row) / 2048 % 65536) as usize
}

// How many words the form at a row takes.
#[tactic(auto, unfolding(crate::specs::Forms::size_at))]
pub fn size(forms: &[u64], row: usize) -> usize
    ensures read { result ≡ size_at forms.now row }
{
    (word(forms, row) / 134217728) as usize
}

// The payload of the form at a row: the slot of `it`, a coefficient, or where a name or a text stands.
pub fn payload(forms: &[u64], row: usize) -> u64
    ensures read { result ≡ get_or forms.now (row + 1) 0 }
{
    nodes::row_payload(forms, row)
}

// Where the name of the form at a row stands.
pub fn name(forms: &[u64], row: usize) -> u64
    ensures read { result ≡ get_or forms.now (row + 2) 0 }
{
    nodes::row_name(forms, row)
}

// ---- names

// Whether one of a pack's results whose rows stand from one row up to another has the name of n bytes at word w.
pub fn has_name(forms: &[u64], from: usize, end: usize, pool: &[u64], w: usize, n: usize) -> bool
    requires { PairsHeld forms.now pool.now from end }
    ensures found { (p : List ℕ) (d : ℕ) (ps : Pairs) → take (length p) pool.now ≡ p → length p < 65536
        → PairsStand forms.now p from end d ps → result ≡ among_pairs (text_in pool.now w n) ps }
{
    // the rows of a result are any number of words: no range steps so
    let mut row = from;
    while row < end {
        let k = name(forms, row);
        if pool::same_text(pool, w, n, nodes::text_word(k), nodes::text_bytes(k)) {
            return true;
        }
        row += size(forms, row);
    }
    false
}

// ---- rows put

// What a row holds.
#[derive(Clone, Copy)]
pub struct Row {
    pub code: u64,
    pub operand: u64,
    // where the form's bracket stands in the text
    pub place: usize,
    // how many words it takes
    pub size: usize,
    pub payload: u64,
    pub name: u64,
}

// Puts the three words of a row.
pub fn put_row(forms: &mut [u64], at: usize, row: Row)
    requires row_in_bounds { at + 3 ≤ length forms.old }
    requires fits { head_of row.code row.operand row.place row.size < 2 ^ 64 }
    ensures put { forms.new
        ≡ take at forms.old ++ head_of row.code row.operand row.place row.size ∷ row.payload ∷ row.name ∷ drop (at + 3) forms.old }
{
    let head = row.code
        + 32 * row.operand
        + 2048 * (row.place as u64)
        + 134217728 * (row.size as u64);
    nodes::put_row(forms, at, head, row.payload, row.name);
}
