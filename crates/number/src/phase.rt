// The grammar of RFC 8259 section 6, number = [ minus ] int [ frac ] [ exp ], a byte at a time.
ghost use Rattle.std.specs.Prelude.{◌≡◌, false, ◌∷◌, []};
ghost use Rattle.definitions.specs.Bytes.{look, between, span, one};
ghost use Rattle.definitions.specs.Number.{next, e_rows, int_rows, complete, begin, in_int, after_point, in_frac, after_e};
ghost use Rattle.number.specs.NumberCode.{Quiet, phase_of, step_of};

// What has been read of a number.
#[derive(Clone, Copy)]
pub enum NumberPhase {
    Begin,
    AfterMinus,
    AfterZero,
    InInt,
    AfterPoint,
    InFrac,
    AfterE,
    AfterSign,
    InExp,
}

pub fn is_digit(b: u8) -> bool
    ensures { result ≡ between 48 57 b }
{
    matches!(b, b'0'..=b'9')
}

// Whether a byte may follow a number and belong to it.
pub fn may_follow(b: u8) -> bool
    ensures { result ≡ false → Quiet b }
{
    matches!(b, b'.' | b'e' | b'E') || is_digit(b)
}

// A byte where only a digit may stand.
fn digit_step(b: u8, phase: NumberPhase) -> Option<NumberPhase>
    ensures { step_of result ≡ look (span "0" "9" (phase_of phase) ∷ []) b }
{
    is_digit(b).then_some(phase)
}

// A byte where the integer part begins.
fn int_step(b: u8) -> Option<NumberPhase>
    ensures { step_of result ≡ look int_rows b }
{
    match b {
        b'0' => Some(NumberPhase::AfterZero),
        _ => digit_step(b, NumberPhase::InInt),
    }
}

// A byte where only an exponent may begin.
fn e_step(b: u8) -> Option<NumberPhase>
    ensures { step_of result ≡ look e_rows b }
{
    match b {
        b'e' | b'E' => Some(NumberPhase::AfterE),
        _ => None,
    }
}

// A byte where a fraction or an exponent may begin.
fn point_step(b: u8) -> Option<NumberPhase>
    ensures { step_of result ≡ look (one "." after_point ∷ e_rows) b }
{
    match b {
        b'.' => Some(NumberPhase::AfterPoint),
        _ => e_step(b),
    }
}

// A byte at the start.
fn begin_step(b: u8) -> Option<NumberPhase>
    ensures { step_of result ≡ look (next begin) b }
{
    match b {
        b'-' => Some(NumberPhase::AfterMinus),
        _ => int_step(b),
    }
}

// A byte behind a digit of the integer part.
fn in_int_step(b: u8) -> Option<NumberPhase>
    ensures { step_of result ≡ look (next in_int) b }
{
    match b {
        b'0'..=b'9' => Some(NumberPhase::InInt),
        _ => point_step(b),
    }
}

// A byte behind a digit of the fraction.
fn in_frac_step(b: u8) -> Option<NumberPhase>
    ensures { step_of result ≡ look (next in_frac) b }
{
    match b {
        b'0'..=b'9' => Some(NumberPhase::InFrac),
        _ => e_step(b),
    }
}

// A byte behind an e.
fn after_e_step(b: u8) -> Option<NumberPhase>
    ensures { step_of result ≡ look (next after_e) b }
{
    match b {
        b'-' | b'+' => Some(NumberPhase::AfterSign),
        _ => digit_step(b, NumberPhase::InExp),
    }
}

// Where a byte leads from a phase; nowhere, where it goes on with no number.
pub fn step(phase: NumberPhase, b: u8) -> Option<NumberPhase>
    ensures { step_of result ≡ look (next (phase_of phase)) b }
{
    match phase {
        NumberPhase::Begin => begin_step(b),
        NumberPhase::AfterMinus => int_step(b),
        NumberPhase::AfterZero => point_step(b),
        NumberPhase::InInt => in_int_step(b),
        NumberPhase::AfterPoint => digit_step(b, NumberPhase::InFrac),
        NumberPhase::InFrac => in_frac_step(b),
        NumberPhase::AfterE => after_e_step(b),
        NumberPhase::AfterSign | NumberPhase::InExp => digit_step(b, NumberPhase::InExp),
    }
}

// Whether what has been read is a number.
pub fn is_complete(phase: NumberPhase) -> bool
    ensures { result ≡ complete (phase_of phase) }
{
    matches!(
        phase,
        NumberPhase::AfterZero | NumberPhase::InInt | NumberPhase::InFrac | NumberPhase::InExp
    )
}
