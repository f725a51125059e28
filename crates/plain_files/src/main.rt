// Rewrites each file that an argument names as plain JSON, and prints a line for it: its name, the number, and the place
// of a refusal; or, of an accepted file, the length and the bytes written, in hexadecimal.
#![tactic(auto)]

ghost use Rattle.std.specs.Prelude.{◌≡◌, ◌≤◌, OnOk, IfErr, IfSome, length};
ghost use Rattle.std.specs.Io.KnownBytes.{Appends};
ghost use Rattle.streams.specs.Faults.{OnInput};
ghost use Rattle.plain_files.specs.Lines.{figure_of, line_of, shown_of, judged};

mod hex; // bytes in hexadecimal

use definitions::Answer;
use std::env::FillError;
use std::io::{ErrorKind, Print, Read, Write};
use std::rt::{Env, Files};
use std::{fs, io};
use streams::Fault;

// One byte more than a document may have, so that a longer file is refused and not cut.
const DOCUMENT: usize = 16385;
// Plain JSON is never longer than its document.
const OUTPUT: usize = 16384;
// The work slices, as published.
const NODES: usize = 1536;

const POOL: usize = 2559;
// The longest name of a file that the host takes, and the byte that ends it.
const NAME: usize = 4096;
// The C library's number for `File name too long`.
const ENAMETOOLONG: i32 = 36;

fn main(rt: HostRuntime) {
    for i in 1..usize::MAX {
        if !judge_argument(&rt, &mut rt.stdout(), &rt.stderr(), i) {
            break;
        }
    }
}

// Whether there is such an argument. A line on `errors` tells of what can't be read.
fn judge_argument<W: Write>(
    rt: &(impl Env + Files),
    to: &mut W,
    errors: &impl Print,
    i: usize,
) -> bool {
    let mut name = [0u8; NAME];
    match rt.arg(i, &mut name) {
        Ok(n) => judge_name(rt, to, errors, &name[..n]),
        Err(FillError::TooLong) => {
            let error = io::Error::from_raw_os_error(ENAMETOOLONG);
            streams::fail(errors, b"argument", error);
        }
        Err(FillError::NotPresent) => return false,
    }
    true
}

fn judge_name<W: Write>(files: &impl Files, to: &mut W, errors: &impl Print, name: &[u8]) {
    let Ok(path) = str::from_utf8(name) else {
        let error = io::Error::new(ErrorKind::InvalidFilename, "file name is not UTF-8");
        streams::fail(errors, name, error);
        return;
    };
    // what standard output does not take is lost, and the next file is judged
    if let Err(Fault::Input(error)) = judge_path(files, to, path) {
        streams::fail(errors, name, error);
    }
}

fn judge_path<W: Write>(files: &impl Files, to: &mut W, path: &str) -> Result<(), Fault> {
    let mut file = fs::open(files, path).map_err(Fault::Input)?;
    judge_file(&mut file, to, path)
}

// Reads a file and prints its line.
fn judge_file<R: Read, W: Write>(file: &mut R, to: &mut W, name: &str) -> Result<(), Fault>
    ensures printed { OnOk result (IfSome (R.remaining file.old)
        (λ document. Appends (W.contents to.old) (W.contents to.new) (line_of name.now (judged document)))) }
    ensures unread { IfErr result (λ fault. OnInput fault (to.new ≡ to.old)) }
{
    let mut document = [0u8; DOCUMENT];
    let n = streams::fill(file, &mut document).map_err(Fault::Input)?;
    judge(to, name, &document[..n]).map_err(Fault::Output)
}

// Prints the line of a file that was read.
fn judge<W: Write>(to: &mut W, name: &str, document: &[u8]) -> io::Result<()>
    ensures printed { OnOk result (Appends (W.contents to.old) (W.contents to.new) (line_of name.now (judged document.now))) }
{
    let mut output = [0u8; OUTPUT];
    let mut nodes = [0u64; NODES];
    let mut pool = [0u64; POOL];
    let limits = slices::STANDARD; // the largest set
    let answer = operations::plain(limits, document, &mut output, &mut nodes, &mut pool);
    print_line(to, name, answer, &output)
}

fn print_line<W: Write>(to: &mut W, name: &str, answer: Answer, output: &[u8]) -> io::Result<()>
    requires { length output.now ≤ 16384 }
    ensures printed { OnOk result (Appends (W.contents to.old) (W.contents to.new)
        (line_of name.now (record { answer = answer; output = output.now }))) }
{
    write!(to, "{name} {} {}", answer.number, figure(answer))?;
    print_written(to, answer, output)?;
    to.write_all(b"\n")
}

// Prints what an accepted file's line has behind the numbers.
fn print_written<W: Write>(to: &mut W, answer: Answer, output: &[u8]) -> io::Result<()>
    requires { length output.now ≤ 16384 }
    ensures printed { OnOk result (Appends (W.contents to.old) (W.contents to.new)
        (shown_of (record { answer = answer; output = output.now }))) }
{
    if answer.number != 0 {
        return Ok(());
    }
    // no more than there are
    let n = answer.length.min(output.len());
    to.write_all(b" ")?;
    hex::print(to, &output[..n])
}

// The number behind the refusal's: a length or a place.
fn figure(answer: Answer) -> usize
    ensures { result ≡ figure_of answer }
{
    if answer.number == 0 {
        answer.length
    } else {
        answer.place
    }
}
