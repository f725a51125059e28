// The plain types that contracts and definitions share. There is no code here: what they mean stands in specs/.

#![tactic(auto)]

// The limits of document 01, handed to everything that judges one.
#[derive(Clone, Copy)]
pub struct Limits {
    // the most bytes of a text: refusals 2 and 11
    pub bytes: usize,
    // the most values of a document or result, and the most forms of a shape or reader: refusals 6, 8, 11 and 14
    pub values: usize,
    // the deepest nesting, the root counting 1: refusals 6, 8, 11 and 14
    pub nesting: usize,
    // the most steps of a run: refusal 13
    pub steps: usize,
}

// The answer of an operation; fields that a case does not use are 0 or false.
#[derive(Clone, Copy)]
pub struct Answer {
    // 0 for success, else the refusal's number
    pub number: u64,
    // the text refused, 1 or 2
    pub text: u64,
    // where in that text
    pub place: usize,
    // how many bytes are written, or would be (refusal 15)
    pub length: usize,
    // the steps of a run
    pub steps: usize,
    // what below and admits say
    pub yes: bool,
}

// What a document is written in; `source` of specs/Operations.antt says how each is read.
#[derive(Clone, Copy)]
pub enum Format {
    // RFC 8259
    Json,
}
