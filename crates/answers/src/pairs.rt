// Questions to crates wide and quotient.
use crate::names;
use crate::output::Output;
use crate::words::Words;
use wide::Wide;

// A number of two words.
fn pair(words: &mut Words) -> Wide {
    Wide {
        hi: words.number(),
        lo: words.number(),
    }
}

fn write_pair(out: &mut Output, Wide { hi, lo }: Wide) {
    out.line(format_args!("{hi} {lo}"));
}

// Answers a question of these crates; whether it is one.
pub(crate) fn answer(out: &mut Output, name: u64, words: &mut Words) -> bool {
    match name {
        names::WIDE_PRODUCT => write_pair(out, wide::product(words.number(), words.number())),
        names::WIDE_TIMES => write_pair(out, wide::times(pair(words), words.number())),
        names::WIDE_SHIFT => write_pair(out, wide::shift_left(pair(words), words.number())),
        names::WIDE_LESS => out.line(u8::from(wide::less(pair(words), pair(words)))),
        names::WIDE_DIVIDE => write_pair(out, quotient::divide(pair(words), pair(words))),
        _ => return false,
    }
    true
}
