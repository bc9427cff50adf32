// Lines of hexadecimal text to lines of samples, piece by piece: the program `frames` but for its calls to read and write.
#![tactic(auto)]

ghost use Rattle.std.specs.Prelude.{◌≡◌, ◌==◌, true, false, List, ℕ};
ghost use Rattle.std.specs.List.{position};
ghost use Rattle.lines.specs.Stream.{pushed_all, blank, is_begun, fresh_stream, text_of, progress_of, finished};
ghost use Rattle.lines.specs.Parts.{refusal_number, answer_number, answer_line, answered, reply_of, line_reply, text_reply, progress_by};

use array_bytes::ArrayBytes;
use numbers::Refusal;
use state::State;
use verdict::Verdict;

// A line that has not ended: its characters, as many as a record's line may have, and whether there were more.
#[derive(Clone, Copy)]
pub struct Line {
    pub text: ArrayBytes<1098>,
    pub over: bool,
}

// What is carried from one piece of the input to the next. `tallies` counts lines by number, those with samples at 0.
#[derive(Clone, Copy)]
pub struct Stream {
    pub state: State,
    pub line: Line,
    pub tallies: [u64; 12],
}

// What a call took of a piece, and what is to be written: the answer to a line that ended, with its newline, or nothing.
#[derive(Clone, Copy)]
pub struct Progress {
    pub stream: Stream,
    pub text: ArrayBytes<961>,
    pub used: usize,
}

// Why a line has no samples: the decoder refuses its record, or it is none.
#[derive(Clone, Copy)]
enum LineRefusal {
    Record(Refusal),
    NoRecord,
}

// The answer to one line, and the state after it.
#[derive(Clone, Copy)]
struct Reply {
    state: State,
    answer: Result<[i16; 240], LineRefusal>,
}

impl From<LineRefusal> for u8 {
    ghost from_gives = { λ refusal number. number ≡ refusal_number refusal };

    // Document 01's number; 11 where the line is no record.
    fn from(refusal: LineRefusal) -> u8 {
        match refusal {
            LineRefusal::Record(r) => u8::from(r),
            LineRefusal::NoRecord => 11,
        }
    }
}

fn blank_line() -> Line
    ensures { result ≡ blank }
{
    Line {
        text: ArrayBytes::new(),
        over: false,
    }
}

// Whether there is anything of the line.
fn is_begun(line: &Line) -> bool
    ensures { result ≡ is_begun line.now }
{
    !line.text.is_empty() || line.over
}

// The line with the characters `part` more: those that there is room for.
fn append(line: &Line, part: &[u8]) -> Line
    ensures { result ≡ pushed_all line.now part.now }
{
    let mut text = line.text;
    let room = text.remaining_capacity();
    let kept = part.len().min(room);
    let _fits = text.try_extend_from_slice(&part[..kept]);
    Line {
        text,
        over: line.over | (part.len() > room),
    }
}

// The place of the first newline.
fn newline(input: &[u8]) -> Option<usize>
    ensures { result ≡ position (λ b. b == 10) input.now }
{
    input.iter().position(|b| *b == b'\n')
}

// 0 for samples.
fn answer_number(answer: &Result<[i16; 240], LineRefusal>) -> u8
    ensures { result ≡ answer_number answer.now }
{
    match answer {
        Ok(_) => 0,
        Err(refusal) => u8::from(*refusal),
    }
}

fn answer_text(answer: &Result<[i16; 240], LineRefusal>) -> ArrayBytes<961>
    ensures { result ≡ text_of (answer_line answer.now) }
{
    match answer {
        Ok(samples) => ArrayBytes::from(digits::sample_line(*samples)),
        Err(refusal) => {
            let n = u8::from(*refusal);
            let mut text = ArrayBytes::new();
            // By hand, as the closing lines are (crate `counts`): nothing says that `writeln!` succeeds where there is room.
            let _fits = text.try_extend_from_slice(&[b'R', b'0' + n / 10, b'0' + n % 10, b'\n']);
            text
        }
    }
}

// The answer to a record, by what the decoder says of it.
fn answered(verdict: Verdict, samples: [i16; 240]) -> Result<[i16; 240], LineRefusal>
    ensures { result ≡ answered verdict samples }
{
    match verdict {
        Ok(_) => Ok(samples),
        Err(refusal) => Err(LineRefusal::Record(refusal)),
    }
}

fn decoded(given: &State, bytes: &[u8]) -> Reply
    ensures { result ≡ reply_of true bytes.now given.now }
{
    let mut samples = [0; 240];
    let a = decoder::decode(*given, bytes, &mut samples);
    Reply {
        state: a.state,
        answer: answered(a.verdict, samples),
    }
}

// The answer where there is no record, which changes no state.
#[tactic(auto, unfolding(crate::specs::Parts::reply_of, crate::specs::Replies::state_for))]
fn no_record(given: &State) -> Reply
    ensures { (bytes : List ℕ) → result ≡ reply_of false bytes given.now }
{
    Reply {
        state: *given,
        answer: Err(LineRefusal::NoRecord),
    }
}

// The answer to the text of a line.
fn text_reply(given: &State, text: &[u8]) -> Reply
    ensures { result ≡ text_reply text.now given.now }
{
    match digits::digit_pairs(text) {
        Ok(bytes) => decoded(given, &bytes),
        Err(_) => no_record(given),
    }
}

// The answer to a line with the characters `part` more. A line that stands whole in a piece is read there.
fn part_reply(given: &State, line: &Line, part: &[u8]) -> Reply
    ensures { result ≡ line_reply (pushed_all line.now part.now) given.now }
{
    if is_begun(line) {
        return line_reply(given, &append(line, part));
    }
    text_reply(given, part)
}

// The answer to a line as it is kept.
fn line_reply(given: &State, line: &Line) -> Reply
    ensures { result ≡ line_reply line.now given.now }
{
    if line.over {
        return no_record(given);
    }
    text_reply(given, &line.text)
}

// What is carried on after an answer: its state, a new line, and its number counted. Inlined, so that it is made in its place:
// where a call returns it, the place is cleared before.
#[inline(always)]
fn progress_by(tallies: [u64; 12], reply: &Reply, used: usize) -> Progress
    ensures { result ≡ progress_by tallies reply.now used }
{
    Progress {
        stream: Stream {
            state: reply.state,
            line: blank_line(),
            tallies: counts::count(tallies, answer_number(&reply.answer)),
        },
        text: answer_text(&reply.answer),
        used,
    }
}

// Before the first piece: one fresh state, with postfilter.
pub fn start() -> Stream
    ensures { result ≡ fresh_stream }
{
    Stream {
        state: state::fresh(true),
        line: blank_line(),
        tallies: counts::no_tallies(),
    }
}

// Takes a piece of the input to the end of one line at most: the rest of the piece is for the next call.
pub fn feed(given: Stream, input: &[u8]) -> Progress
    ensures { result ≡ progress_of given input.now }
{
    let Some(end) = newline(input) else {
        return Progress {
            stream: Stream {
                line: append(&given.line, input),
                ..given
            },
            text: ArrayBytes::new(),
            used: input.len(),
        };
    };
    let reply = part_reply(&given.state, &given.line, &input[..end]);
    progress_by(given.tallies, &reply, end + 1)
}

// The end of the input: a line that no newline ended is answered too.
pub fn finish(given: Stream) -> Progress
    ensures { result ≡ finished given }
{
    if is_begun(&given.line) {
        return progress_by(given.tallies, &line_reply(&given.state, &given.line), 0);
    }
    Progress {
        stream: given,
        text: ArrayBytes::new(),
        used: 0,
    }
}
