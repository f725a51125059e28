// What the programs do with their host's streams: a buffer is filled from one, and of what failed the cause is told on another.
// Nothing here allocates.
#![tactic(auto)]

ghost use Rattle.std.specs.Prelude.{◌<◌, IfOk, length, take};
ghost use Rattle.std.specs.Io.{ReadsAtMost};
ghost use Rattle.std.specs.Io.KnownBytes.{Consumes, IsAtEnd};

mod cause; // an error in the C library's words

use std::io;
use std::io::{Print, Read};

// What failed of a program that makes an output of its input.
#[derive(Drop)]
pub enum Fault {
    Input(io::Error),
    Output(io::Error),
}

// Reads until the buffer is full or the input ends, and answers how many bytes it put at the front of the buffer.
// By hand: std's `read_exact` does not tell how many bytes came before the end.
pub fn fill<R: Read>(input: &mut R, buffer: &mut [u8]) -> io::Result<usize>
    ensures counted { ReadsAtMost result buffer.new }
    ensures taken { IfOk result (λ n. Consumes (R.remaining input.old) (R.remaining input.new) (take n buffer.new)) }
    ensures ended { IfOk result (λ n. n < length buffer.new → IsAtEnd (R.remaining input.new)) }
{
    let mut done = 0;
    while done < buffer.len() {
        let n = input.read(&mut buffer[done..])?;
        if n == 0 {
            break;
        }
        done += n;
    }
    Ok(done)
}

// Tells on a line what failed and why, as `standard input: Is a directory`. What the stream does not take is lost.
pub fn fail(stream: &impl Print, what: &[u8], error: io::Error) {
    let _ = tell(stream, what, error);
}

fn tell(stream: &impl Print, what: &[u8], error: io::Error) -> io::Result<()> {
    stream.write_all(what)?;
    stream.write_all(b": ")?;
    cause::print(stream, error)?;
    stream.write_all(b"\n")
}
