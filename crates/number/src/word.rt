// Numbers that are whole words, in shape texts and readers.
ghost use Rattle.number.specs.NumberWord.{WordAnswer};

use crate::slow_number;

// A number that a word spells.
#[derive(Clone, Copy)]
pub struct Decimal {
    pub negative: bool,
    pub coefficient: u64,
    pub scale: u64,
}

// The number that a word spells to its end; none, where it spells no number, or one that refusal 4 is for.
pub fn read_word(word: &[u8]) -> Option<Decimal>
    ensures read { WordAnswer word.now result }
{
    let n = slow_number(word, 0);
    if n.end != word.len() || n.beyond || !n.complete {
        return None;
    }
    Some(Decimal {
        negative: n.negative,
        coefficient: n.coefficient,
        scale: n.scale,
    })
}
