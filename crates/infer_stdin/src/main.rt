// Infers the shape of the document on standard input from `(shape)`, and writes its text to standard output; or, of a
// document that is refused, `refused N at P` and a line feed.
#![tactic(auto)]

ghost use Rattle.std.specs.Prelude.{◌≡◌, ◌+◌, ◌≤◌, OnOk, IfErr, IfSome, length, take};
ghost use Rattle.std.specs.Io.KnownBytes.{Appends};
ghost use Rattle.streams.specs.Faults.{OnInput};
ghost use Rattle.definitions.specs.Plain.{decimal};
ghost use Rattle.text.specs.Writes.{Writes};
ghost use Rattle.infer_stdin.specs.Reply.{refused_line, reply_to};

use itoa::Buffer;
use std::io;
use std::io::{Read, Write};
use streams::Fault;

// One byte more than a document may have, so that a longer one is refused and not cut.
const DOCUMENT: usize = 16385;
// As many bytes as a shape text may have.
const OUTPUT: usize = 16384;
// The work slices, as published.
const SHAPES: usize = 1024;

const NODES: usize = 1536;

const POOL: usize = 4607;

fn main(rt: HostRuntime) {
    match answer(&mut rt.stdin(), &mut rt.stdout()) {
        Ok(()) => {}
        Err(Fault::Input(error)) => streams::fail(&rt.stderr(), b"standard input", error),
        Err(Fault::Output(error)) => streams::fail(&rt.stderr(), b"standard output", error),
    }
}

// Reads a document and writes the reply to it.
fn answer<R: Read, W: Write>(input: &mut R, output: &mut W) -> Result<(), Fault>
    ensures replied { OnOk result (IfSome (R.remaining input.old)
        (λ document. Appends (W.contents output.old) (W.contents output.new) (reply_to document))) }
    ensures unread { IfErr result (λ fault. OnInput fault (output.new ≡ output.old)) }
{
    let mut document = [0u8; DOCUMENT];
    let n = streams::fill(input, &mut document).map_err(Fault::Input)?;
    print_reply(output, &document[..n]).map_err(Fault::Output)
}

// Writes the reply to what was read.
fn print_reply<W: Write>(to: &mut W, document: &[u8]) -> io::Result<()>
    ensures replied { OnOk result (Appends (W.contents to.old) (W.contents to.new) (reply_to document.now)) }
{
    let mut output = [0u8; OUTPUT];
    let end = reply(document, &mut output);
    to.write_all(&output[..end])
}

// Puts what is to be said of a document at the front of the output, and answers how many bytes that is.
fn reply(document: &[u8], output: &mut [u8]) -> usize
    requires { length output.old ≡ 16384 }
    ensures counted { result ≤ length output.new }
    ensures replied { take result output.new ≡ reply_to document.now }
{
    let mut shapes = [0u64; SHAPES];
    let mut nodes = [0u64; NODES];
    let mut pool = [0u64; POOL];
    let answer = operations::infer(
        slices::STANDARD, // the largest set
        b"(shape)",
        document,
        output,
        &mut shapes,
        &mut nodes,
        &mut pool,
    );
    if answer.number == 0 {
        return answer.length;
    }
    refuse(output, answer.number, answer.place as u64)
}

// Puts the line of a refusal at the front of the output.
#[tactic(auto, using(crate::proofs::Decimals::decimal_short))]
fn refuse(out: &mut [u8], number: u64, place: u64) -> usize
    requires { 53 ≤ length out.old }
    ensures counted { result ≤ length out.new }
    ensures told { take result out.new ≡ refused_line number place }
{
    let mut at = plain::write_bytes(out, 0, b"refused ");
    at = write_decimal(out, at, number);
    at = plain::write_bytes(out, at, b" at ");
    at = write_decimal(out, at, place);
    plain::write_bytes(out, at, b"\n")
}

// Writes a number in decimal at a place, and answers the place behind it.
fn write_decimal(out: &mut [u8], at: usize, n: u64) -> usize
    requires { at + 20 ≤ length out.old }
    ensures written { Writes out.old out.new at (decimal n) result }
{
    let mut digits = Buffer::new();
    plain::write_bytes(out, at, digits.format(n).as_bytes())
}
