// Escapes by hexadecimal digits, and the bytes of the characters that they name.
ghost use Rattle.std.specs.Prelude.{◌≡◌, ◌≤◌, ◌<◌, length, take, get_or};
ghost use Rattle.std.proofs.Math.Option.{none};
ghost use Rattle.definitions.specs.Text.{Inside};
ghost use Rattle.definitions.specs.Utf8.{encode};
ghost use Rattle.text.specs.TextParts.{hex_value, fits_as, ReadsDigits, ReadsCode};

// A number that digits name, and the place behind them.
#[derive(Clone, Copy)]
pub struct Code {
    pub value: usize,
    pub next: usize,
}

// The byte at place i; past the end 256, which is no byte, so that one test finds a wrong byte and none: an Option is no plainer here.
pub fn peek(doc: &[u8], i: usize) -> usize
    ensures read { result ≡ get_or doc.now i 256 }
{
    if i < doc.len() { doc[i] as usize } else { 256 }
}

// The value of a hexadecimal digit.
fn hex_value(b: usize) -> Option<usize>
    ensures valued { result ≡ hex_value b }
{
    match b {
        0x30..=0x39 => Some(b - 48),
        0x41..=0x46 => Some(b - 55),
        0x61..=0x66 => Some(b - 87),
        _ => None,
    }
}

// Whether digit d may come behind n digits of value c: no low surrogate by itself, and behind a high one nothing else.
fn digit_fits(low: bool, n: usize, c: usize, d: usize) -> bool
    ensures judged { result ≡ fits_as low n c d }
{
    match (low, n) {
        (true, 0) => d == 0xD,
        (true, 1) => 0xC <= d,
        (false, 1) => c != 0xD || d < 0xC,
        _ => true,
    }
}

// Four digits from place at on, of a low surrogate behind a high one or not.
fn read_digits(doc: &[u8], at: usize, low: bool) -> Result<Code, usize>
    requires { at ≤ length doc.now }
    ensures read { ReadsDigits doc.now at low result }
{
    let mut c: usize = 0;
    for n in 0..4 {
        let Some(d) = hex_value(peek(doc, at + n)) else {
            return Err(at + n);
        };
        if !digit_fits(low, n, c, d) {
            return Err(at + n);
        }
        c = c * 16 + d;
    }
    Ok(Code {
        value: c,
        next: at + 4,
    })
}

// The low surrogate's escape, which must come at place at, behind a high one.
fn read_low(doc: &[u8], at: usize, high: usize) -> Result<Code, usize>
    requires { (at ≤ length doc.now) × (0xD800 ≤ high) × (high ≤ 0xDBFF) }
    ensures read { ReadsCode doc.now (Inside.pair high) at result }
{
    if peek(doc, at) != 0x5C {
        return Err(at);
    }
    if peek(doc, at + 1) != 0x75 {
        return Err(at + 1);
    }
    let low = read_digits(doc, at + 2, true)?;
    Ok(Code {
        value: 0x10000 + (high - 0xD800) * 0x400 + (low.value - 0xDC00),
        next: low.next,
    })
}

// The character that an escape names, or a pair of escapes, from behind its `\u` on.
pub fn read_unicode(doc: &[u8], at: usize) -> Result<Code, usize>
    requires { at ≤ length doc.now }
    ensures read { ReadsCode doc.now (Inside.digits none 0 0) at result }
{
    let code = read_digits(doc, at, false)?;
    match code.value {
        0xD800..=0xDBFF => read_low(doc, code.next, code.value),
        _ => Ok(code),
    }
}

// How many bytes of UTF-8 a character has.
pub fn encoded_length(c: usize) -> usize
    ensures counted { result ≡ length (encode c) }
{
    match c {
        0..=0x7F => 1,
        0x80..=0x7FF => 2,
        0x800..=0xFFFF => 3,
        _ => 4,
    }
}

// The bytes of a character, with zeros behind them.
pub fn encoded(c: usize) -> [u8; 4]
    requires { c < 0x110000 }
    ensures encoded { take (length (encode c)) result ≡ encode c }
{
    if c < 0x80 {
        return [c as u8, 0, 0, 0];
    }
    let last = (0x80 + c % 64) as u8;
    if c < 0x800 {
        return [(0xC0 + c / 64) as u8, last, 0, 0];
    }
    let third = (0x80 + c / 64 % 64) as u8;
    if c < 0x10000 {
        return [(0xE0 + c / 4096) as u8, third, last, 0];
    }
    [
        (0xF0 + c / 262144) as u8,
        (0x80 + c / 4096 % 64) as u8,
        third,
        last,
    ]
}
