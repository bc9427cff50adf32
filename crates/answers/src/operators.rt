// Questions to crates basicop, basicop32 and isqrt.
use crate::names;
use crate::output::Output;
use crate::words::{Number, Words};
use std::fmt::Display;

// Answers with an operator of one number.
fn unary<A, R, F>(out: &mut Output, words: &mut Words, f: F)
where
    A: Number,
    R: Display + Drop,
    F: FnOnce(A) -> R,
    requires { F.IsAlwaysCallable f }
{
    let a = words.number();
    out.line(f(a));
}

// Answers with an operator of two numbers.
fn binary<A, B, R, F>(out: &mut Output, words: &mut Words, f: F)
where
    A: Number,
    B: Number,
    R: Display + Drop,
    F: FnOnce(A, B) -> R,
    requires { F.IsAlwaysCallable f }
{
    let a = words.number();
    let b = words.number();
    out.line(f(a, b));
}

// Answers with an operator of three numbers.
fn ternary<A, B, C, R, F>(out: &mut Output, words: &mut Words, f: F)
where
    A: Number,
    B: Number,
    C: Number,
    R: Display + Drop,
    F: FnOnce(A, B, C) -> R,
    requires { F.IsAlwaysCallable f }
{
    let a = words.number();
    let b = words.number();
    let c = words.number();
    out.line(f(a, b, c));
}

// Answers a question of these crates; whether it is one.
pub(crate) fn answer(out: &mut Output, name: u64, words: &mut Words) -> bool {
    match name {
        names::ADD => binary(out, words, basicop::add),
        names::SUB => binary(out, words, basicop::sub),
        names::MULT => binary(out, words, basicop::mult),
        names::SHL => binary(out, words, basicop::shl),
        names::SHR => binary(out, words, basicop::shr),
        names::SATURATE => unary(out, words, basicop::saturate),
        names::L_ADD => binary(out, words, basicop32::l_add),
        names::L_MULT => binary(out, words, basicop32::l_mult),
        names::L_MAC => ternary(out, words, basicop32::l_mac),
        names::SAT32 => unary(out, words, basicop32::sat32),
        names::EXTRACT_H => unary(out, words, basicop32::extract_h),
        names::ROUND16 => unary(out, words, basicop32::round16),
        names::ISQRT64 => unary(out, words, isqrt::isqrt64),
        _ => return false,
    }
    true
}
