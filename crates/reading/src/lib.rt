// What the readers of texts share: how far reading has come, what it comes to, and why a text is refused.
#![tactic(auto)]

ghost use Rattle.std.specs.Prelude.{◌≡◌};
ghost use Rattle.reading.specs.Refusals.{number_of};

// How far reading has come.
#[derive(Clone, Copy)]
pub struct Cursor {
    // in the text
    pub at: usize,
    // how many values or forms are begun; each has a row
    pub begun: usize,
    // how many words of the pool are used
    pub top: usize,
}

// How much of the tables a text that was read takes: so many words of its own and, to their end, of the pool.
#[derive(Clone, Copy)]
pub struct Extent {
    pub words: usize,
    pub top: usize,
}

// Why an operation is refused, under the names of include/runvestol.h.
#[derive(Clone, Copy)]
pub enum Cause {
    // a work slice, or the answer's buffer, is shorter than published
    TooShort,
    TextTooLong,
    JsonSyntax,
    NumberLimit,
    DuplicateName,
    ValueLimit,
    FormSyntax,
    FormLimit,
    UnwantedKind,
    UnlistedName,
    ShapeLimit,
    Stuck,
    StepLimit,
    ResultLimit,
    OutputTooShort,
    LimitOutOfRange,
}

impl Cause {
    // The number that an answer tells it by.
    pub fn number(self) -> u64
        ensures told { result ≡ number_of self }
    {
        match self {
            Cause::TooShort => 1,
            Cause::TextTooLong => 2,
            Cause::JsonSyntax => 3,
            Cause::NumberLimit => 4,
            Cause::DuplicateName => 5,
            Cause::ValueLimit => 6,
            Cause::FormSyntax => 7,
            Cause::FormLimit => 8,
            Cause::UnwantedKind => 9,
            Cause::UnlistedName => 10,
            Cause::ShapeLimit => 11,
            Cause::Stuck => 12,
            Cause::StepLimit => 13,
            Cause::ResultLimit => 14,
            Cause::OutputTooShort => 15,
            Cause::LimitOutOfRange => 18,
        }
    }
}

// Why a text is refused, and where in it.
#[derive(Clone, Copy)]
pub struct Refusal {
    pub cause: Cause,
    pub place: usize,
}
