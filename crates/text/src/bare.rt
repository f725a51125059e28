// Words whose bytes are written as they are in plain JSON, told by all eight bytes at once.
ghost use Rattle.std.specs.Prelude.{◌≡◌, true, ◌≤◌, take};
ghost use Rattle.definitions.specs.Plain.{escaped_all};
ghost use Rattle.pool.specs.Pool.{unpacked};
ghost use Rattle.text.specs.Bare.{Bare};

use super::eight::plain_bits;

// Whether all eight are: from 80 on, or from 20 on and neither a quote nor a backslash.
pub fn is_bare(x: u64) -> bool
    ensures told { result ≡ true → Bare x }
{
    (plain_bits(x) | x) & 0x8080808080808080 == 0x8080808080808080
}

// Whether the first n are: the others are made so.
pub fn starts_bare(x: u64, n: usize) -> bool
    requires { n ≤ 7 }
    ensures told { result ≡ true → escaped_all (take n (unpacked x)) ≡ take n (unpacked x) }
{
    is_bare(x | (0x2020202020202020 >> (8 * n)))
}
