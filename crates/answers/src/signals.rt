// Questions to crates excitation, adaptive, synthesis, pitch and postfilter.
use crate::names;
use crate::output::Output;
use crate::spaced::Spaced;
use crate::words::Words;
use excitation::{Rate, Subframe};
use postfilter::Postfilter;
use tables::{EXC_HIST, SUBFRAME_SIZE};

// By its number's last two bits.
fn subframe(number: u64) -> Subframe {
    match number % 4 {
        0 => Subframe::Zero,
        1 => Subframe::One,
        2 => Subframe::Two,
        _ => Subframe::Three,
    }
}

// By its start in the frame.
fn subframe_at(start: i32) -> Subframe {
    if start < 60 {
        Subframe::Zero
    } else if start < 120 {
        Subframe::One
    } else if start < 180 {
        Subframe::Two
    } else {
        Subframe::Three
    }
}

// A history at its place before a subframe.
fn signal_before(s: Subframe, history: [i16; 146]) -> [i16; 386] {
    let mut signal = [0; 386];
    let place = excitation::subframe_place(s);
    signal[place - EXC_HIST..place].copy_from_slice(&history);
    signal
}

// The history stands before subframe 0.
fn adaptive(out: &mut Output, words: &mut Words) {
    let lag = words.number();
    let taps = words.list();
    let signal = signal_before(Subframe::Zero, words.list());
    let u = adaptive::acb_contribution(&signal, Subframe::Zero, lag, taps);
    out.line(Spaced(&u));
}

// The history stands before a subframe; the answer is what then stands before the next.
fn pushed(out: &mut Output, words: &mut Words) {
    let s = subframe(words.number());
    let lag = words.number();
    let taps = words.list();
    let v = words.list();
    let signal = signal_before(s, words.list());
    let u = adaptive::acb_contribution(&signal, s, lag, taps);
    let x = excitation::push_excitation(signal, s, excitation::excitation_sum(u, v));
    let next = excitation::subframe_place(s) + SUBFRAME_SIZE;
    out.line(Spaced(&x[next - EXC_HIST..next]));
}

fn stored(out: &mut Output, words: &mut Words) {
    let sum = excitation::tap_sum(words.list());
    let gain = excitation::unvoiced_gain(words.number(), words.number());
    out.line(format_args!("{sum} {gain}"));
}

fn synthesised(out: &mut Output, words: &mut Words) {
    let r = synthesis::synthesis_subframe(words.list(), &words.list(), words.list());
    out.line(format_args!("{} {}", Spaced(&r.out), Spaced(&r.mem)));
}

// The kind of the record, the subframe's start in the frame, and the lag lead the signal.
fn pitch_filtered(out: &mut Output, words: &mut Words) {
    let rate = match words.number() {
        1i32 => Rate::High,
        _ => Rate::Low,
    };
    let s = subframe_at(words.number());
    let lag = words.number();
    let x = pitch::pitch_postfilter(&words.list(), s, lag, rate);
    out.line(Spaced(&x));
}

// The memory stands after the coefficients and the subframe.
fn filtered(out: &mut Output, words: &mut Words) {
    let a = words.list();
    let y = words.list();
    let pf = Postfilter {
        num_mem: words.list(),
        den_mem: words.list(),
        tilt_prev: words.number(),
        tilt_k1: words.number(),
        agc_gain_q12: words.number(),
    };
    let filtered = postfilter::filtered_subframe(pf, a, y);
    let Postfilter {
        num_mem,
        den_mem,
        tilt_prev,
        tilt_k1,
        agc_gain_q12,
    } = filtered.mem;
    out.line(format_args!(
        "{} {} {} {tilt_prev} {tilt_k1} {agc_gain_q12}",
        Spaced(&filtered.out),
        Spaced(&num_mem),
        Spaced(&den_mem)
    ));
}

// Answers a question of these crates; whether it is one.
pub(crate) fn answer(out: &mut Output, name: u64, words: &mut Words) -> bool {
    match name {
        names::ACB_CONTRIBUTION => adaptive(out, words),
        names::EXCITATION_SUBFRAME => pushed(out, words),
        names::RECORD_LAST_FRAME => stored(out, words),
        names::SYNTHESIS_SUBFRAME => synthesised(out, words),
        names::PITCH_POSTFILTER => pitch_filtered(out, words),
        names::FORMANT_AGC_SUBFRAME => filtered(out, words),
        _ => return false,
    }
    true
}
