// What the C calls do: each runs an operation at a set of limits, with work slices of its own, and writes its answer as five
// little-endian words. None asks for anything, and no function beside them stands here; `runvestol_c` exports them.
#![tactic(auto)]

ghost use Rattle.std.specs.Prelude.{◌≡◌};
ghost use Rattle.definitions.specs.Limits.{set_of};
ghost use Rattle.definitions.specs.Json.{read_json};
ghost use Rattle.definitions.specs.Calls.{plain_call, infer_call, join_call, below_call, admits_call, check_call, run_call};

use definitions::Format;

// Writes a document as plain JSON. Returns the answer's number.
pub fn runvestol_plain(
    bytes: u64,
    values: u64,
    nesting: u64,
    steps: u64,
    document: &[u8],
    output: &mut [u8],
    answer: &mut [u8],
) -> u64
    ensures number { result ≡
        (plain_call read_json (set_of bytes values nesting steps) document.now output.old answer.old).number }
    ensures answered { answer.new ≡
        (plain_call read_json (set_of bytes values nesting steps) document.now output.old answer.old).answer }
    ensures written { output.new ≡
        (plain_call read_json (set_of bytes values nesting steps) document.now output.old answer.old).output }
{
    let limits = slices::set(bytes, values, nesting, steps); // judged whole, though no step is taken here
    if let Err(cause) = slices::judge_call(limits, answer.len()) {
        return answers::tell(answer, answers::refusal(cause.number(), 0, 0));
    }
    let done = workspace::plain(Format::Json, limits, document, output);
    answers::tell(answer, done)
}

// Joins the shape of a document into a shape, and writes it. Returns the answer's number.
pub fn runvestol_infer(
    bytes: u64,
    values: u64,
    nesting: u64,
    steps: u64,
    shape: &[u8],
    document: &[u8],
    output: &mut [u8],
    answer: &mut [u8],
) -> u64
    ensures number { result ≡
        (infer_call read_json (set_of bytes values nesting steps) shape.now document.now output.old
        answer.old).number }
    ensures answered { answer.new ≡
        (infer_call read_json (set_of bytes values nesting steps) shape.now document.now output.old
        answer.old).answer }
    ensures written { output.new ≡
        (infer_call read_json (set_of bytes values nesting steps) shape.now document.now output.old
        answer.old).output }
{
    let limits = slices::set(bytes, values, nesting, steps);
    if let Err(cause) = slices::judge_call(limits, answer.len()) {
        return answers::tell(answer, answers::refusal(cause.number(), 0, 0));
    }
    let done = workspace::infer(Format::Json, limits, shape, document, output);
    answers::tell(answer, done)
}

// Joins two shapes, and writes the result. Returns the answer's number.
pub fn runvestol_join(
    bytes: u64,
    values: u64,
    nesting: u64,
    steps: u64,
    first: &[u8],
    second: &[u8],
    output: &mut [u8],
    answer: &mut [u8],
) -> u64
    ensures number { result ≡
        (join_call (set_of bytes values nesting steps) first.now second.now output.old answer.old).number }
    ensures answered { answer.new ≡
        (join_call (set_of bytes values nesting steps) first.now second.now output.old answer.old).answer }
    ensures written { output.new ≡
        (join_call (set_of bytes values nesting steps) first.now second.now output.old answer.old).output }
{
    let limits = slices::set(bytes, values, nesting, steps);
    if let Err(cause) = slices::judge_call(limits, answer.len()) {
        return answers::tell(answer, answers::refusal(cause.number(), 0, 0));
    }
    let done = workspace::join(limits, first, second, output);
    answers::tell(answer, done)
}

// Tells whether a shape is below another. Returns the answer's number.
pub fn runvestol_below(
    bytes: u64,
    values: u64,
    nesting: u64,
    steps: u64,
    first: &[u8],
    second: &[u8],
    answer: &mut [u8],
) -> u64
    ensures number { result ≡
        (below_call (set_of bytes values nesting steps) first.now second.now answer.old).number }
    ensures answered { answer.new ≡
        (below_call (set_of bytes values nesting steps) first.now second.now answer.old).answer }
{
    let limits = slices::set(bytes, values, nesting, steps);
    if let Err(cause) = slices::judge_call(limits, answer.len()) {
        return answers::tell(answer, answers::refusal(cause.number(), 0, 0));
    }
    let done = workspace::below(limits, first, second);
    answers::tell(answer, done)
}

// Tells whether a shape admits a document. Returns the answer's number.
pub fn runvestol_admits(
    bytes: u64,
    values: u64,
    nesting: u64,
    steps: u64,
    shape: &[u8],
    document: &[u8],
    answer: &mut [u8],
) -> u64
    ensures number { result ≡
        (admits_call read_json (set_of bytes values nesting steps) shape.now document.now answer.old).number }
    ensures answered { answer.new ≡
        (admits_call read_json (set_of bytes values nesting steps) shape.now document.now answer.old).answer }
{
    let limits = slices::set(bytes, values, nesting, steps);
    if let Err(cause) = slices::judge_call(limits, answer.len()) {
        return answers::tell(answer, answers::refusal(cause.number(), 0, 0));
    }
    let done = workspace::admits(Format::Json, limits, shape, document);
    answers::tell(answer, done)
}

// Checks a reader against a shape, and writes the shape of what it gives. Returns the answer's number.
pub fn runvestol_check(
    bytes: u64,
    values: u64,
    nesting: u64,
    steps: u64,
    reader: &[u8],
    shape: &[u8],
    output: &mut [u8],
    answer: &mut [u8],
) -> u64
    ensures number { result ≡
        (check_call (set_of bytes values nesting steps) reader.now shape.now output.old answer.old).number }
    ensures answered { answer.new ≡
        (check_call (set_of bytes values nesting steps) reader.now shape.now output.old answer.old).answer }
    ensures written { output.new ≡
        (check_call (set_of bytes values nesting steps) reader.now shape.now output.old answer.old).output }
{
    let limits = slices::set(bytes, values, nesting, steps);
    if let Err(cause) = slices::judge_call(limits, answer.len()) {
        return answers::tell(answer, answers::refusal(cause.number(), 0, 0));
    }
    let done = workspace::check(limits, reader, shape, output);
    answers::tell(answer, done)
}

// Runs a reader on a document, and writes what it gives as plain JSON. Returns the answer's number.
pub fn runvestol_run(
    bytes: u64,
    values: u64,
    nesting: u64,
    steps: u64,
    reader: &[u8],
    document: &[u8],
    output: &mut [u8],
    answer: &mut [u8],
) -> u64
    ensures number { result ≡
        (run_call read_json (set_of bytes values nesting steps) reader.now document.now output.old
        answer.old).number }
    ensures answered { answer.new ≡
        (run_call read_json (set_of bytes values nesting steps) reader.now document.now output.old
        answer.old).answer }
    ensures written { output.new ≡
        (run_call read_json (set_of bytes values nesting steps) reader.now document.now output.old
        answer.old).output }
{
    let limits = slices::set(bytes, values, nesting, steps); // 13 goes by its steps
    if let Err(cause) = slices::judge_call(limits, answer.len()) {
        return answers::tell(answer, answers::refusal(cause.number(), 0, 0));
    }
    let done = workspace::run(Format::Json, limits, reader, document, output);
    answers::tell(answer, done)
}
