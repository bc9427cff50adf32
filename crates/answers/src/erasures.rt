// Questions to crates voicing and noise.
use crate::names;
use crate::output::Output;
use crate::words::Words;

// Whether the tail is voiced, and then its lag.
fn voiced(out: &mut Output, words: &mut Words) {
    let centre = words.number();
    match voicing::classify_erasure_voicing(&words.list(), centre) {
        None => out.line("0"),
        Some(lag) => out.line(format_args!("1 {lag}")),
    }
}

// Answers a question of these crates; whether it is one.
pub(crate) fn answer(out: &mut Output, name: u64, words: &mut Words) -> bool {
    match name {
        names::CLASSIFY_ERASURE_VOICING => voiced(out, words),
        names::NOISE_START => out.line(noise::noise_start(words.number())),
        _ => return false,
    }
    true
}
