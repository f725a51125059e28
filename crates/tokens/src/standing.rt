// What stands at a place, seen eight bytes at a time.
ghost use Rattle.std.specs.Prelude.{◌+◌, ◌≤◌, ◌<◌, length};
ghost use Rattle.tokens.specs.Standing.{EightTold, WordStands};

use crate::is_border;

// The eight bytes from a place on as a number. The first is in the lowest place, so that the compiler makes one load of them, whichever
// of them are then looked at.
pub fn eight_at(text: &[u8], at: usize) -> u64
    requires { at + 8 ≤ length text.now }
    ensures told { EightTold text.now at result }
{
    u64::from_le_bytes([
        text[at],
        text[at + 1],
        text[at + 2],
        text[at + 3],
        text[at + 4],
        text[at + 5],
        text[at + 6],
        text[at + 7],
    ])
}

// Whether a word of n bytes stands at a place and ends there; `size` is 256 to the power of n. Where fewer than eight bytes are left it is
// not looked for.
pub fn stands(text: &[u8], at: usize, word: u64, size: u64, n: usize) -> bool
    requires { (at ≤ length text.now) × (n ≤ 7) × (0 < size) }
    ensures told { WordStands text.now at word size n result }
{
    if text.len() - at < 8 {
        return false;
    }
    eight_at(text, at) % size == word && is_border(text[at + n])
}
