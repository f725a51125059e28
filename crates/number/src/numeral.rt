// The digits of a number as it is read. A number may have any length, so the coefficient and the scale stay where they are
// once they are one more than a number may hold.
ghost use Rattle.std.specs.Prelude.{◌≡◌, ◌&&◌, not, suc, ◌+◌, ◌-◌, ◌*◌, min, eqb};
ghost use Rattle.definitions.specs.Number.{Numeral, no_digits, extend, beyond};
ghost use Rattle.number.specs.NumberCode.{StandsFor, Takes, Digit, phase_of, past_coefficient, past_scale};

use crate::phase::NumberPhase;

#[derive(Clone, Copy)]
pub struct CappedNumeral {
    pub negative: bool,
    pub coefficient: u64,
    pub scale: u64,
    pub exponent: bool,
}

pub const PAST_COEFFICIENT: u64 = 1_000_000_000_000_000_000;

const PAST_SCALE: u64 = 10;

pub fn no_digits() -> CappedNumeral
    ensures { StandsFor result no_digits }
{
    CappedNumeral {
        negative: false,
        coefficient: 0,
        scale: 0,
        exponent: false,
    }
}

// The coefficient with one more digit, or the cap.
pub fn shifted_on(coefficient: u64, b: u8) -> u64
    requires { Digit b }
    ensures { result ≡ min (coefficient * 10 + (b - 48)) past_coefficient }
{
    if coefficient < PAST_COEFFICIENT / 10 {
        coefficient * 10 + (b - b'0') as u64
    } else {
        PAST_COEFFICIENT
    }
}

// The scale with one more digit, or the cap.
fn scaled_on(scale: u64) -> u64
    ensures { result ≡ min (suc scale) past_scale }
{
    scale.min(PAST_SCALE - 1) + 1
}

// The numeral with a byte that led to this phase.
pub fn extended(phase: NumberPhase, d: CappedNumeral, b: u8) -> CappedNumeral
    requires { Takes (phase_of phase) b }
    ensures { (n : Numeral) → StandsFor d n → StandsFor result (extend (phase_of phase) n b) }
{
    match phase {
        NumberPhase::AfterMinus => CappedNumeral {
            negative: true,
            ..d
        },
        NumberPhase::InInt => CappedNumeral {
            coefficient: shifted_on(d.coefficient, b),
            ..d
        },
        NumberPhase::InFrac => CappedNumeral {
            coefficient: shifted_on(d.coefficient, b),
            scale: scaled_on(d.scale),
            ..d
        },
        NumberPhase::AfterE => CappedNumeral {
            exponent: true,
            ..d
        },
        NumberPhase::Begin
        | NumberPhase::AfterZero
        | NumberPhase::AfterPoint
        | NumberPhase::AfterSign
        | NumberPhase::InExp => d,
    }
}

// Whether refusal 4 is for it.
pub fn is_beyond(d: CappedNumeral) -> bool
    ensures { (n : Numeral) → StandsFor d n → result ≡ beyond n }
{
    d.coefficient == PAST_COEFFICIENT || d.scale == PAST_SCALE || d.exponent
}

// Zero has no minus.
pub fn has_minus(d: CappedNumeral) -> bool
    ensures { result ≡ d.negative && not (eqb d.coefficient 0) }
{
    d.negative && d.coefficient != 0
}
