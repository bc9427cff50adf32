// Questions to crates positions and pulses.
use crate::names;
use crate::output::Output;
use crate::spaced::Spaced;
use crate::words::Words;
use positions::Count;
use pulses::Description;
use std::fmt::{self, Display};

fn count(words: &mut Words) -> Count {
    match words.number() {
        5u64 => Count::Five,
        _ => Count::Six,
    }
}

fn flag(words: &mut Words) -> bool {
    words.number::<u64>() == 1
}

// The slots that have a bit, with a space between them.
#[derive(Clone, Copy)]
struct Slots(u32);

impl Display for Slots {
    fn fmt<W: fmt::Write>(&self, f: &mut fmt::Formatter<W>) -> fmt::Result {
        let found = self.0;
        let slots = (0..30).filter(|slot| (found >> slot) % 2 == 1);
        for (i, slot) in slots.enumerate() {
            if i > 0 {
                write!(f, " ")?;
            }
            write!(f, "{slot}")?;
        }
        Ok(())
    }
}

// The slots of a position code, or none.
fn positions(out: &mut Output, words: &mut Words) {
    match positions::fcbk_unpk_positions(words.number(), count(words)) {
        Some(found) => out.line(Slots(found)),
        None => out.line("none"),
    }
}

// Of the first n of eight slots, or of all where n is more: the number of document 02, and after 0 the code.
fn packing(out: &mut Output, words: &mut Words) {
    let n: usize = words.number();
    let row: [usize; 8] = words.list();
    match positions::fcbk_pack_positions(&row[..n.min(row.len())]) {
        Ok(code) => out.line(format_args!("0 {code}")),
        Err(refusal) => out.line(u8::from(refusal)),
    }
}

fn vector(words: &mut Words) -> [i32; 60] {
    pulses::mpmlq_fixed_vector(Description {
        code: words.number(),
        signs: words.number(),
        grid: flag(words),
        count: count(words),
        gain_index: words.number(),
        train: flag(words),
        base_lag: words.number(),
    })
}

// Answers a question of these crates; whether it is one.
pub(crate) fn answer(out: &mut Output, name: u64, words: &mut Words) -> bool {
    match name {
        names::FCBK_UNPK_POSITIONS => positions(out, words),
        names::FCBK_PACK_POSITIONS => packing(out, words),
        names::MPMLQ_FIXED_VECTOR => out.line(Spaced(&vector(words))),
        _ => return false,
    }
    true
}
