// The C calls, under the names and with the parameters of include/runvestol.h: a slice is handed over as a pointer and a length.
// Each is the function of its name in `runvestol` and nothing else, and promises what that one does.
#![tactic(auto)]

ghost use Rattle.std.specs.Prelude.{◌≡◌};
ghost use Rattle.definitions.specs.Limits.{set_of};
ghost use Rattle.definitions.specs.Json.{read_json};
ghost use Rattle.definitions.specs.Calls.{plain_call, infer_call, join_call, below_call, admits_call, check_call, run_call};

// Writes a document as plain JSON. Returns the answer's number.
#[unsafe(no_mangle)]
pub extern "C" fn runvestol_plain(
    bytes: u64,
    values: u64,
    nesting: u64,
    steps: u64,
    document: &[u8],
    output: &mut [u8],
    answer: &mut [u8],
) -> u64
    ensures number { result ≡
        (plain_call read_json (set_of bytes values nesting steps) document.now output.old answer.old).number }
    ensures answered { answer.new ≡
        (plain_call read_json (set_of bytes values nesting steps) document.now output.old answer.old).answer }
    ensures written { output.new ≡
        (plain_call read_json (set_of bytes values nesting steps) document.now output.old answer.old).output }
{
    runvestol::runvestol_plain(bytes, values, nesting, steps, document, output, answer)
}

// Joins the shape of a document into a shape, and writes it. Returns the answer's number.
#[unsafe(no_mangle)]
pub extern "C" fn runvestol_infer(
    bytes: u64,
    values: u64,
    nesting: u64,
    steps: u64,
    shape: &[u8],
    document: &[u8],
    output: &mut [u8],
    answer: &mut [u8],
) -> u64
    ensures number { result ≡
        (infer_call read_json (set_of bytes values nesting steps) shape.now document.now output.old
        answer.old).number }
    ensures answered { answer.new ≡
        (infer_call read_json (set_of bytes values nesting steps) shape.now document.now output.old
        answer.old).answer }
    ensures written { output.new ≡
        (infer_call read_json (set_of bytes values nesting steps) shape.now document.now output.old
        answer.old).output }
{
    runvestol::runvestol_infer(
        bytes, values, nesting, steps, shape, document, output, answer,
    )
}

// Joins two shapes, and writes the result. Returns the answer's number.
#[unsafe(no_mangle)]
pub extern "C" fn runvestol_join(
    bytes: u64,
    values: u64,
    nesting: u64,
    steps: u64,
    first: &[u8],
    second: &[u8],
    output: &mut [u8],
    answer: &mut [u8],
) -> u64
    ensures number { result ≡
        (join_call (set_of bytes values nesting steps) first.now second.now output.old answer.old).number }
    ensures answered { answer.new ≡
        (join_call (set_of bytes values nesting steps) first.now second.now output.old answer.old).answer }
    ensures written { output.new ≡
        (join_call (set_of bytes values nesting steps) first.now second.now output.old answer.old).output }
{
    runvestol::runvestol_join(bytes, values, nesting, steps, first, second, output, answer)
}

// Tells whether a shape is below another. Returns the answer's number.
#[unsafe(no_mangle)]
pub extern "C" fn runvestol_below(
    bytes: u64,
    values: u64,
    nesting: u64,
    steps: u64,
    first: &[u8],
    second: &[u8],
    answer: &mut [u8],
) -> u64
    ensures number { result ≡
        (below_call (set_of bytes values nesting steps) first.now second.now answer.old).number }
    ensures answered { answer.new ≡
        (below_call (set_of bytes values nesting steps) first.now second.now answer.old).answer }
{
    runvestol::runvestol_below(bytes, values, nesting, steps, first, second, answer)
}

// Tells whether a shape admits a document. Returns the answer's number.
#[unsafe(no_mangle)]
pub extern "C" fn runvestol_admits(
    bytes: u64,
    values: u64,
    nesting: u64,
    steps: u64,
    shape: &[u8],
    document: &[u8],
    answer: &mut [u8],
) -> u64
    ensures number { result ≡
        (admits_call read_json (set_of bytes values nesting steps) shape.now document.now answer.old).number }
    ensures answered { answer.new ≡
        (admits_call read_json (set_of bytes values nesting steps) shape.now document.now answer.old).answer }
{
    runvestol::runvestol_admits(bytes, values, nesting, steps, shape, document, answer)
}

// Checks a reader against a shape, and writes the shape of what it gives. Returns the answer's number.
#[unsafe(no_mangle)]
pub extern "C" fn runvestol_check(
    bytes: u64,
    values: u64,
    nesting: u64,
    steps: u64,
    reader: &[u8],
    shape: &[u8],
    output: &mut [u8],
    answer: &mut [u8],
) -> u64
    ensures number { result ≡
        (check_call (set_of bytes values nesting steps) reader.now shape.now output.old answer.old).number }
    ensures answered { answer.new ≡
        (check_call (set_of bytes values nesting steps) reader.now shape.now output.old answer.old).answer }
    ensures written { output.new ≡
        (check_call (set_of bytes values nesting steps) reader.now shape.now output.old answer.old).output }
{
    runvestol::runvestol_check(bytes, values, nesting, steps, reader, shape, output, answer)
}

// Runs a reader on a document, and writes what it gives as plain JSON. Returns the answer's number.
#[unsafe(no_mangle)]
pub extern "C" fn runvestol_run(
    bytes: u64,
    values: u64,
    nesting: u64,
    steps: u64,
    reader: &[u8],
    document: &[u8],
    output: &mut [u8],
    answer: &mut [u8],
) -> u64
    ensures number { result ≡
        (run_call read_json (set_of bytes values nesting steps) reader.now document.now output.old
        answer.old).number }
    ensures answered { answer.new ≡
        (run_call read_json (set_of bytes values nesting steps) reader.now document.now output.old
        answer.old).answer }
    ensures written { output.new ≡
        (run_call read_json (set_of bytes values nesting steps) reader.now document.now output.old
        answer.old).output }
{
    runvestol::runvestol_run(
        bytes, values, nesting, steps, reader, document, output, answer,
    )
}
