// Answers: made, with the unused fields 0 or false, and put into a buffer as five little-endian words.
#![tactic(auto)]

ghost use Rattle.std.specs.Prelude.{◌≡◌, false, ◌++◌, ◌+◌, ◌≤◌, length, take, drop};
ghost use Rattle.definitions.specs.Operations.{refusal, output_short, written, said};
ghost use Rattle.definitions.specs.Calls.{little_endian, answer_words, answered};
ghost use Rattle.reading.specs.Refusals.{number_of};

use definitions::Answer;
use reading::{Cause, Refusal};

// The answer of a refusal.
pub fn refusal(number: u64, text: u64, place: usize) -> Answer
    ensures set { result ≡ refusal number text place }
{
    Answer {
        number,
        text,
        place,
        length: 0,
        steps: 0,
        yes: false,
    }
}

// The answer of a text that is refused so.
pub fn refused(text: u64, why: Refusal) -> Answer
    ensures set { result ≡ refusal (number_of why.cause) text why.place }
{
    refusal(why.cause.number(), text, why.place)
}

// The answer of refusal 15, which tells how long the output has to be.
pub fn output_short(needed: usize) -> Answer
    ensures set { result ≡ output_short needed }
{
    Answer {
        length: needed,
        ..refusal(Cause::OutputTooShort.number(), 0, 0)
    }
}

// The answer of an operation that has written so many bytes, after so many steps.
pub fn written(length: usize, steps: usize) -> Answer
    ensures set { result ≡ written length steps false }
{
    Answer {
        length,
        steps,
        ..said(false)
    }
}

// The answer yes or no.
pub fn said(yes: bool) -> Answer
    ensures set { result ≡ said yes }
{
    Answer {
        number: 0,
        text: 0,
        place: 0,
        length: 0,
        steps: 0,
        yes,
    }
}

// Writes a word at a place, its lowest byte first.
fn put_word(buffer: &mut [u8], at: usize, word: u64)
    requires { at + 8 ≤ length buffer.old }
    ensures written { buffer.new ≡ take at buffer.old ++ little_endian 8 word ++ drop (at + 8) buffer.old }
{
    buffer[at..at + 8].copy_from_slice(&word.to_le_bytes());
}

// Writes an answer's five words.
fn put_answer(buffer: &mut [u8], answer: Answer)
    requires { 40 ≤ length buffer.old }
    ensures written { buffer.new ≡ answer_words answer ++ drop 40 buffer.old }
{
    put_word(buffer, 0, answer.text);
    put_word(buffer, 8, answer.place as u64);
    put_word(buffer, 16, answer.length as u64);
    put_word(buffer, 24, answer.steps as u64);
    put_word(buffer, 32, answer.yes as u64);
}

// Tells an answer as a C call does: its number is returned, and its words go into the buffer, unless that is too short.
pub fn tell(buffer: &mut [u8], answer: Answer) -> u64
    ensures number { result ≡ answer.number }
    ensures written { buffer.new ≡ answered buffer.old answer }
{
    if 40 <= buffer.len() {
        put_answer(buffer, answer);
    }
    answer.number // the other values are in the buffer
}
