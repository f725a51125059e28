// Bytes in hexadecimal.
ghost use Rattle.std.specs.Prelude.{◌*◌, ◌≤◌, ◌<◌, ◌≡◌, OnOk, length, take};
ghost use Rattle.std.specs.Io.KnownBytes.{Appends};
ghost use Rattle.definitions.specs.Plain.{hex_digit};
ghost use Rattle.plain_files.specs.Lines.{hex_of};

use std::io;
use std::io::Write;

// Writes at most 16,384 bytes.
pub fn print<W: Write>(to: &mut W, bytes: &[u8]) -> io::Result<()>
    requires { length bytes.now ≤ 16384 }
    ensures printed { OnOk result (Appends (W.contents to.old) (W.contents to.new) (hex_of bytes.now)) }
{
    let mut spelled = [0u8; 32768];
    let n = spell(bytes, &mut spelled);
    to.write_all(&spelled[..n])
}

// Spells bytes at the front of out, two digits each.
fn spell(bytes: &[u8], out: &mut [u8]) -> usize
    requires { 2 * length bytes.now ≤ length out.old }
    ensures counted { result ≤ length out.new }
    ensures spelled { take result out.new ≡ hex_of bytes.now }
{
    for (i, byte) in bytes.iter().enumerate() {
        out[2 * i] = digit(byte / 16);
        out[2 * i + 1] = digit(byte % 16);
    }
    2 * bytes.len()
}

// Crate text has such a digit inside, for its escapes, and would be called for this line alone.
#[tactic(auto, unfolding(definitions::specs::Plain::hex_digit))]
fn digit(d: u8) -> u8
    requires { d < 16 }
    ensures { result ≡ hex_digit d }
{
    if d < 10 { 48 + d } else { 87 + d }
}
