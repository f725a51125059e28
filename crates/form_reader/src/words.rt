// The words of places, results and tests.
ghost use Rattle.std.specs.Prelude.{◌≡◌, ◌≤◌, length};
ghost use Rattle.definitions.specs.Reader.{test_words};
ghost use Rattle.definitions.specs.Tokens.{look_word};
ghost use Rattle.tokens.specs.TokenRead.{word_in};
ghost use Rattle.form_reader.specs.FormWords.{test_or_none, PlaceSays, ResultSays};

use tokens::expect::Span;

// The code of K that a word tells.
pub fn test_code(text: &[u8], word: Span) -> Option<u64>
    requires { (word.place ≤ word.end) × (word.end ≤ length text.now) }
    ensures told { result ≡ test_or_none (look_word test_words (word_in text.now word.place word.end)) }
{
    match tokens::word_value(text, word.place, word.end) {
        0x6E756C6C04 => Some(0), // null
        0x626F6F6C04 => Some(1), // bool
        0x696E7403 => Some(2), // int
        0x6E756D03 => Some(3), // num
        0x7465787404 => Some(4), // text
        0x6C69737404 => Some(5), // list
        0x72656303 => Some(6), // rec
        _ => None,
    }
}

// The code of the place that it tells.
pub fn place_code(text: &[u8], word: Span) -> Option<u64>
    requires { (word.place ≤ word.end) × (word.end ≤ length text.now) }
    ensures told { PlaceSays (word_in text.now word.place word.end) result }
{
    match tokens::word_value(text, word.place, word.end) {
        0x697402 => Some(forms::IT), // it
        0x6669656C6405 => Some(forms::FIELD), // field
        _ => None,
    }
}

// The code of the result that it tells.
pub fn result_code(text: &[u8], word: Span) -> Option<u64>
    requires { (word.place ≤ word.end) × (word.end ≤ length text.now) }
    ensures told { ResultSays (word_in text.now word.place word.end) result }
{
    match tokens::word_value(text, word.place, word.end) {
        0x696E7403 => Some(forms::INT), // int
        0x64656303 => Some(forms::DEC), // dec
        0x626F6F6C04 => Some(forms::BOOL), // bool
        0x7465787404 => Some(forms::TEXT), // text
        0x6B65657004 => Some(forms::KEEP), // keep
        0x636F756E7405 => Some(forms::COUNT), // count
        0x6561636804 => Some(forms::EACH), // each
        0x7768656E04 => Some(forms::WHEN), // when
        0x696602 => Some(forms::IF), // if
        0x6E756D03 => Some(forms::NUM), // num
        0x73747203 => Some(forms::STR), // str
        0x79657303 => Some(forms::YES), // yes
        0x6E6F02 => Some(forms::NO), // no
        0x6E6F6E6504 => Some(forms::NONE), // none
        0x7061636B04 => Some(forms::PACK), // pack
        _ => None,
    }
}
