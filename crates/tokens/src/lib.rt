// Tokens of shape texts and readers: brackets, JSON texts, and words or numbers, with JSON white space between them.
#![tactic(auto)]

ghost use Rattle.std.specs.Prelude.{◌≤◌, length};
ghost use Rattle.tokens.specs.TokenRead.{SpaceAnswer, BorderAnswer, Skips, Runs, word_in};
ghost use Rattle.tokens.specs.WordValues.{WordTold};

pub mod expect; // a token of one sort that must come
pub mod standing; // what stands at a place, seen eight bytes at a time

// JSON white space. A blank is most of it, and is asked for first.
#[tactic(auto, using(crate::proofs::Borders::white_space))]
fn is_space(b: u8) -> bool
    ensures told { SpaceAnswer b result }
{
    b == b' ' || b < b' ' && matches!(b, b'\t' | b'\n' | b'\r')
}

// Whether a byte ends a word: white space, a bracket or a quote.
fn is_border(b: u8) -> bool
    ensures told { BorderAnswer b result }
{
    b <= b')' && (is_space(b) || matches!(b, b'(' | b')' | b'"'))
}

// Where white space ends that begins at a place.
pub fn skip_space(text: &[u8], at: usize) -> usize
    requires { at ≤ length text.now }
    ensures skipped { Skips text.now at result }
{
    for i in at..text.len() {
        if !is_space(text[i]) {
            return i;
        }
    }
    text.len()
}

// Where a word ends that begins at a place.
fn word_end(text: &[u8], at: usize) -> usize
    requires { at ≤ length text.now }
    ensures ended { Runs text.now at result }
{
    for i in at..text.len() {
        if is_border(text[i]) {
            return i;
        }
    }
    text.len()
}

// The number of the word from one place to another, by which it is compared: its bytes, with how many they are in the last one. Of a
// word of over seven bytes it is 8, which no other has. It is no Option, since callers match it against constants.
pub fn word_value(text: &[u8], at: usize, end: usize) -> u64
    requires { (at ≤ end) × (end ≤ length text.now) }
    ensures told { WordTold (word_in text.now at end) result }
{
    let n = end - at;
    if 7 < n {
        return 8;
    }
    let mut x: u64 = 0;
    for b in &text[at..end] {
        x = x * 256 + (*b as u64);
    }
    x * 256 + (n as u64)
}
