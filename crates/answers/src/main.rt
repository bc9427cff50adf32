// Answers questions as `oracle layers` of tests/oracle does: a line has a name and decimal numbers, its answer is a
// line of decimal numbers. The file `stdin` has the questions and `stdout` the oracle's answers (tests/make-answers). A
// question has one space between its words and numbers that fit. Any other input is read as the words that it has: it is
// answered before more is read, and the program ends with the input, or after a million questions.
#![tactic(auto)]

mod descriptions;
mod erasures;
mod lsps;
mod names;
mod operators;
mod output;
mod pairs;
mod signals;
mod spaced;
mod words;

use output::Output;
use words::Words;

// Answers the next question. A name that is none of the program's has two words after it.
fn question(out: &mut Output, words: &mut Words) {
    let name = words.name();
    if words.ended() {
        return;
    }
    let known = operators::answer(out, name, words)
        || pairs::answer(out, name, words)
        || lsps::answer(out, name, words)
        || descriptions::answer(out, name, words)
        || erasures::answer(out, name, words)
        || signals::answer(out, name, words);
    if !known {
        let _: [u64; 2] = words.list();
        out.line("?");
    }
}

fn main() {
    let mut out = Output;
    let mut words = Words::new();
    for _ in 0..1_000_000u32 {
        question(&mut out, &mut words);
        if words.ended() {
            break;
        }
    }
}
