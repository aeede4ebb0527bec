// What the programs share: the path that an argument names, telling what failed, reading a text, and printing what is made of it.
// Whether a read fails is told apart from the end of the input.
#![tactic(auto)]

ghost use Rattle.std.specs.Prelude.{◌≡◌, ◌-◌, ◌≤◌, ℕ, List, length, take, replicate, IfOk};
ghost use Rattle.std.specs.Io.{ReadsAtMost};

use std::env::FillError;
use std::io::{ErrorKind, Read};
use std::rt::Env;
use std::{io, str};

// One byte more than a recording may have: of a longer input so much is kept that it is refused.
pub const KEPT: usize = 65537;

// [7.55] How many bytes a program prints at most: the longest output is a report.
pub const OUTPUT: usize = 687734;

// What Linux answers of an argument that is missing, and of one that does not fit.
const EINVAL: i32 = 22;

const ENAMETOOLONG: i32 = 36;

// What a program makes of a text.
pub trait Render {
    // What is made of the bytes of a text.
    ghost rendered: { List ℕ → List ℕ };

    // It is made in an output that has room for any, and handed out from there.
    fn render<'a>(&self, text: &[u8], out: &'a mut [u8; OUTPUT]) -> &'a [u8]
        ensures { result.now ≡ rendered text.now };
}

// What a program failed at.
#[derive(Clone, Copy, PartialEq, Eq)]
pub enum Failure {
    Reading,
    Writing,
}

// Tells a failure on standard error, after the name of what failed. Where that fails too, nothing is left to tell it on.
pub fn tell(rt: &impl Eprint, name: &[u8], error: &io::Error) {
    let _ = match str::from_utf8(name) {
        Ok(text) => eprintln!(rt; "{text}: {error}"),
        Err(_) => eprintln!(rt; "argument: {error}"),
    };
}

fn failure_of(error: FillError) -> io::Error {
    match error {
        FillError::NotPresent => io::Error::from_raw_os_error(EINVAL),
        FillError::TooLong => io::Error::from_raw_os_error(ENAMETOOLONG),
    }
}

// The path that an argument of the program names, which is text and is kept in `path`.
pub fn argument<'a>(rt: &impl Env, place: usize, path: &'a mut [u8]) -> io::Result<&'a str>
    ensures { IfOk result (λ name. length name.now ≤ length path.old) }
{
    let length = rt.arg(place, path).map_err(failure_of)?;
    str::from_utf8(&path[..length]).map_err(|_| io::Error::from(ErrorKind::InvalidFilename))
}

// Room for what is kept of an input, all zeros: one byte more than a recording may have.
pub fn kept() -> [u8; KEPT]
    ensures size { 65537 ≡ length result }
    ensures zeros { result ≡ replicate 65537 0 }
{
    [0; KEPT]
}

// One read, to place `at` on; what stands before it stays. One that a signal interrupts before it moves a byte counts as failed.
fn read_to<R: Read>(source: &mut R, text: &mut [u8], at: usize) -> io::Result<usize>
    requires { at ≤ length text.old }
    ensures moved { IfOk result (λ n. n ≤ length text.old - at) }
    ensures stays { take at text.new ≡ take at text.old }
{
    source.read(&mut text[at..])
}

// Reads a source until the text is full, the input ends or a read fails, and answers how many bytes were kept; of an input that is
// longer than the text the first bytes are kept, and the others are not read. A read may be short, as from a pipe. A failed read keeps
// nothing.
pub fn read_text<R: Read>(source: &mut R, text: &mut [u8]) -> io::Result<usize>
    ensures counts { ReadsAtMost result text.new }
{
    let mut at: usize = 0;
    while at < text.len() {
        match read_to(source, text, at)? {
            0 => break,
            more => at += more,
        }
    }
    Ok(at)
}

// Reads a recording, and prints what `renderer` makes of it.
fn print_made<S: Read>(
    rt: &impl Print,
    source: &mut S,
    renderer: &impl Render,
) -> Result<(), Failure> {
    let mut text = kept();
    let size = read_text(source, &mut text).map_err(|_| Failure::Reading)?;
    let mut out = [0; OUTPUT];
    let made = renderer.render(&text[..size], &mut out);
    rt.write_all(made).map_err(|_| Failure::Writing)
}

// The same as a program, which tells on standard error what it could not read or write, after its name.
pub fn run<R: Print + Eprint, S: Read>(
    rt: &R,
    source: &mut S,
    program: &str,
    made: &str,
    renderer: &impl Render,
) {
    if let Err(failure) = print_made(rt, source, renderer) {
        let _ = match failure {
            Failure::Reading => eprintln!(rt; "{program}: the recording could not be read"),
            Failure::Writing => eprintln!(rt; "{program}: {made} could not be written"),
        };
    }
}
