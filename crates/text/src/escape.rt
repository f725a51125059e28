// A byte of a text as plain JSON has it: itself, or an escape.
ghost use Rattle.std.specs.Prelude.{◌≡◌, true, [], ◌∷◌, ◌+◌, ◌≤◌, ◌<◌, length};
ghost use Rattle.definitions.specs.Plain.{hex_digit, escaped};
ghost use Rattle.text.specs.TextParts.{plain_ascii, short_form, hex_escape};
ghost use Rattle.text.specs.Writes.{Writes};

// Whether b is a byte of ASCII that stands for itself.
pub fn is_plain_ascii(b: u8) -> bool
    ensures judged { result ≡ plain_ascii b }
{
    matches!(b, 0x20..=0x21 | 0x23..=0x5B | 0x5D..=0x7F)
}

// The byte behind the backslash where b is written as an escape of two characters.
fn short_form(b: u8) -> Option<u8>
    ensures found { result ≡ short_form b }
{
    match b {
        0x22 => Some(0x22),
        0x5C => Some(0x5C),
        0x08 => Some(0x62),
        0x0C => Some(0x66),
        0x0A => Some(0x6E),
        0x0D => Some(0x72),
        0x09 => Some(0x74),
        _ => None,
    }
}

// Whether b is written as it is.
fn needs_no_escape(b: u8) -> bool
    ensures told { result ≡ true → escaped b ≡ b ∷ [] }
{
    b' ' <= b && b != b'"' && b != b'\\'
}

// How many bytes b is written in.
pub fn cost(b: u8) -> usize
    ensures counted { result ≡ length (escaped b) }
{
    if needs_no_escape(b) {
        return 1;
    }
    match short_form(b) {
        Some(_) => 2,
        None if b < 0x20 => 6,
        None => 1,
    }
}

// A lower-case hexadecimal digit.
fn hex_digit(d: u8) -> u8
    requires { d < 16 }
    ensures told { result ≡ hex_digit d }
{
    if d < 10 { 48 + d } else { 87 + d }
}

// Writes `\u00` and two hexadecimal digits.
fn write_hex(out: &mut [u8], at: usize, b: u8) -> usize
    requires { at + 6 ≤ length out.old }
    ensures written { Writes out.old out.new at (hex_escape b) result }
{
    out[at] = 0x5C;
    out[at + 1] = 0x75;
    out[at + 2] = 0x30;
    out[at + 3] = 0x30;
    out[at + 4] = hex_digit(b / 16);
    out[at + 5] = hex_digit(b % 16);
    at + 6
}

// Writes b by its escape, or as it is.
fn write_escape(out: &mut [u8], at: usize, b: u8) -> usize
    requires { at + length (escaped b) ≤ length out.old }
    ensures written { Writes out.old out.new at (escaped b) result }
{
    if let Some(c) = short_form(b) {
        out[at] = 0x5C;
        out[at + 1] = c;
        return at + 2;
    }
    if b < 0x20 {
        return write_hex(out, at, b);
    }
    out[at] = b;
    at + 1
}

// Writes b as plain JSON has it, and answers the place behind it.
pub fn write_byte(out: &mut [u8], at: usize, b: u8) -> usize
    requires { at + length (escaped b) ≤ length out.old }
    ensures written { Writes out.old out.new at (escaped b) result }
{
    if needs_no_escape(b) {
        out[at] = b;
        return at + 1;
    }
    write_escape(out, at, b)
}
