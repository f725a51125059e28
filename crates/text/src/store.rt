// Bytes of a word stored into a slice.
ghost use Rattle.std.specs.Prelude.{◌+◌, ◌-◌, ◌≤◌, length, take, drop};
ghost use Rattle.pool.specs.Pool.{unpacked};
ghost use Rattle.text.specs.Writes.{Writes};

// Stores the last N bytes of a word, and answers the place behind them: the compiler makes one store of them.
pub fn store<const N: usize>(out: &mut [u8], at: usize, x: u64) -> usize
    requires { (N ≤ 8) × (at + N ≤ length out.old) }
    ensures stored { Writes out.old out.new at (drop (8 - N) (unpacked x)) result }
{
    out[at..at + N].copy_from_slice(&x.to_be_bytes()[8 - N..]);
    at + N
}

// Stores the last n, up to seven: one, two and four, from the right.
fn store_last(out: &mut [u8], at: usize, x: u64, n: usize) -> usize
    requires { (n ≤ 7) × (at + n ≤ length out.old) }
    ensures stored { Writes out.old out.new at (drop (8 - n) (unpacked x)) result }
{
    let mut y = x;
    let mut end = at + n;
    if n % 2 != 0 {
        end -= 1;
        store::<1>(out, end, y);
        y >>= 8;
    }
    if n / 2 % 2 != 0 {
        end -= 2;
        store::<2>(out, end, y);
        y >>= 16;
    }
    if 4 <= n {
        store::<4>(out, at, y);
    }
    at + n
}

// Stores the first n, one to seven, and answers the place behind them.
pub fn store_front(out: &mut [u8], at: usize, x: u64, n: usize) -> usize
    requires { (1 ≤ n) × (n ≤ 7) × (at + n ≤ length out.old) }
    ensures stored { Writes out.old out.new at (take n (unpacked x)) result }
{
    store_last(out, at, x >> (64 - 8 * n), n)
}
