// The program `frames` but for its main: standard input to its end, piece by piece as reads give it, and what each call of
// crate lines leaves to be written. A read that fails counts as the end of the input. After a write that fails nothing more is
// read or written, and the program ends as it would otherwise.
#![tactic(auto)]

ghost use Rattle.std.specs.Prelude.{◌≡◌, List, ℕ, IfOk};
ghost use Rattle.lines.specs.Stream.{stream_after, finished, printed_tallies};

use lines::Stream;
use std::io::{Input, Read};

// A write to standard output failed.
#[derive(Clone, Copy)]
struct WriteFailed;

// Standard output.
const STDOUT: i32 = 1;

fn write(bytes: &[u8]) -> Result<(), WriteFailed> {
    if io::write_all(STDOUT, bytes) {
        Ok(())
    } else {
        Err(WriteFailed)
    }
}

// All that a piece of the input adds, by one call of `feed` after the other.
fn piece(given: Stream, input: &[u8]) -> Result<Stream, WriteFailed>
    ensures { IfOk result (λ s. s ≡ stream_after given input.now) }
{
    let mut stream = given;
    let mut rest = input;
    // No counting loop: how much of a piece is used up is what `feed` says.
    while rest.len() > 0 {
        let f = lines::feed(stream, rest);
        write(&f.text)?;
        stream = f.stream;
        rest = &rest[f.used..];
    }
    Ok(stream)
}

// Reads to the end of the input. A proved loop has to end, so it has a number of turns that no run uses up; that the end of the
// input is seen is tested (tests/check-program).
fn read_all<R: Read>(reader: &mut R, given: Stream) -> Result<Stream, WriteFailed>
    ensures { IfOk result (λ s. (input : List ℕ) × (s ≡ stream_after given input)) }
{
    let mut buf = io::large_buffer();
    let mut stream = given;
    for _ in 0..u64::MAX {
        match reader.read(&mut buf) {
            Ok(n) if n > 0 => stream = piece(stream, &buf[..n])?,
            _ => break,
        }
    }
    Ok(stream)
}

// The line that no newline ended, then the closing lines. It answers the tallies that they are made of.
fn close(given: Stream) -> [u64; 12]
    ensures { result ≡ (finished given).stream.tallies }
{
    let f = lines::finish(given);
    let tallies = f.stream.tallies;
    if write(&f.text).is_ok() {
        let _ = write(&counts::closing_lines(tallies));
    }
    tallies
}

// Document 01's program `frames`. It answers the tallies of the closing lines, or those of no input where a write failed before
// its end. Which bytes were read is in no contract of `read`, so that the promise says that there are such.
pub fn frames(rt: &impl Input) -> [u64; 12]
    ensures { (input : List ℕ) × (result ≡ printed_tallies input) }
{
    match read_all(&mut rt.reader(), lines::start()) {
        Ok(stream) => close(stream),
        Err(_) => counts::no_tallies(),
    }
}
