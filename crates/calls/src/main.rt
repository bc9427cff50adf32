// Whole calls, as `oracle calls` of tests/oracle reads and answers them: the state goes on from line to line. A line has a
// letter, three fields of four hexadecimal digits in upper case, and as many bytes as the third field says:
//
//   F   a fresh state, with the postfilter if the first field is 1
//   S   a state: 315 numbers of four bytes, in the fixed order of its fields
//   D   a record: the first field is the length of the samples, each of which is the second field before
//
// The answer is a number, 0 but for a record that was refused, the code of what was done to the candidate LSPs (3 where there
// is no frame), and the checksums of the samples and of the state.
#![tactic(auto)]

ghost use Rattle.std.specs.Prelude.{◌≤◌};
ghost use Rattle.calls.specs.declared.TheConstants.{MAX_SAMPLES};
ghost use Rattle.calls.specs.declared.line.TheConstants.{MAX_BYTES};

mod checksum;
mod image;
mod line;

use checksum::Checksum;
use line::{Line, MAX_BYTES};
use state::State;
use std::fmt::{self, Write};
use verdict::Verdict;

// The code where no frame was decoded.
const NO_OUTCOME: u8 = 3;

// The most samples that are lent.
const MAX_SAMPLES: usize = 300;

// A proved program has to end.
const MAX_LINES: u32 = 1_000_000;

// Standard output, written as it comes, so that a line is answered before the next is read. What cannot be written is passed
// over: the answers go on.
#[derive(Drop)]
struct Output;

impl Output {
    const FD: i32 = 1;
}

impl fmt::Write for Output {
    fn write_str(&mut self, s: &str) -> fmt::Result {
        let _ = io::write_all(Output::FD, s.as_bytes());
        Ok(())
    }
}

// What a line is answered, but for the state's checksum, and the state after it. A state that is given has no verdict.
#[derive(Clone, Copy)]
struct Turn {
    verdict: Option<Verdict>,
    samples: Checksum,
    state: State,
}

impl Turn {
    fn given(state: State) -> Self {
        Turn {
            verdict: None,
            samples: Checksum::NONE,
            state,
        }
    }

    fn number(&self) -> u8 {
        self.verdict.map_or(0, verdict::verdict_number)
    }

    fn outcome_code(&self) -> u8 {
        match self.verdict {
            Some(Ok(outcome)) => u8::from(outcome),
            _ => NO_OUTCOME,
        }
    }
}

// How many bytes and samples are lent: with more samples asked for than there are, all of both.
fn lent(line: &Line) -> (usize, usize)
    ensures bytes { result.0 ≤ MAX_BYTES }
    ensures samples { result.1 ≤ MAX_SAMPLES }
{
    let samples = usize::from(line.first);
    if samples <= MAX_SAMPLES {
        (usize::from(line.count), samples)
    } else {
        (MAX_BYTES, MAX_SAMPLES)
    }
}

// A record, with samples that are all marked before.
fn decoded(line: &Line, state: State) -> Turn {
    let (bytes, length) = lent(line);
    let mut marked = [line.second.cast_signed(); MAX_SAMPLES];
    let samples = &mut marked[..length];
    let answer = decoder::decode(state, &line.bytes[..bytes], samples);
    Turn {
        verdict: Some(answer.verdict),
        samples: Checksum::NONE.with(samples),
        state: answer.state,
    }
}

fn answered(line: &Line, state: State) -> Turn {
    match line.letter {
        b'D' => decoded(line, state),
        b'S' => Turn::given(image::state_of(&line.bytes)),
        _ => Turn::given(state::fresh(line.first == 1)),
    }
}

fn main() {
    let mut state = state::fresh(true);
    for _ in 0..MAX_LINES {
        let Some(line) = Line::next() else {
            break;
        };
        let turn = answered(&line, state);
        state = turn.state;
        let sum = checksum::of_state(&state);
        let _ = writeln!(
            Output,
            "{} {} {} {sum}",
            turn.number(),
            turn.outcome_code(),
            turn.samples
        );
    }
}
