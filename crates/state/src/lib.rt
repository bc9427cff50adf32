// The state of the decoder: the Rust's QSynthesis with its widths (qdec.rs), a fresh one, and the bounds of number 2.
#![tactic(auto)]

ghost use Rattle.std.specs.Prelude.{◌≡◌, length};
ghost use Rattle.state.specs.State.{fresh_postfilter, fresh_state, between, are_words, are_in_bounds, bounded_numbers, in_bounds};

use postfilter::Postfilter;

#[derive(Clone, Copy)]
pub struct State {
    pub prev_lsp: [i16; 10],
    pub exc_hist: [i32; 146],
    pub syn_mem: [i32; 10],
    pub pf: Postfilter,
    pub last_lag: i32,
    pub last_lag2: i32,
    pub last_taps_sum_q15: i32,
    pub last_gain_unvoiced: i32,
    pub pcm_hist: [i16; 120],
    pub erased_run: u32,
    pub postfilter: bool,
}

fn fresh_postfilter() -> Postfilter
    ensures { result ≡ fresh_postfilter }
{
    Postfilter {
        num_mem: [0; 10],
        den_mem: [0; 10],
        tilt_prev: 0,
        tilt_k1: 0,
        agc_gain_q12: tables::AGC_ONE_Q12,
    }
}

// A fresh state with the postfilter on or off.
#[tactic(auto, unfolding(crate::specs::State::fresh_state))]
pub fn fresh(postfilter: bool) -> State
    ensures { result ≡ fresh_state postfilter }
{
    State {
        prev_lsp: tables::lsp_dc(),
        exc_hist: [0; 146],
        syn_mem: [0; 10],
        pf: fresh_postfilter(),
        last_lag: tables::FRESH_LAG,
        last_lag2: tables::FRESH_LAG,
        last_taps_sum_q15: 0,
        last_gain_unvoiced: 0,
        pcm_hist: [0; 120],
        erased_run: 0,
        postfilter,
    }
}

fn is_between(lo: i32, hi: i32, z: i32) -> bool
    ensures { result ≡ between lo hi z }
{
    (lo..=hi).contains(&z)
}

fn are_words(xs: &[i32]) -> bool
    ensures { result ≡ are_words xs.now (length xs.now) }
{
    xs.iter().all(|x| is_between(-32768, 32767, *x))
}

// The least and the most of each, and its value.
fn numbers_in_bounds(state: State) -> bool
    ensures { result ≡ are_in_bounds (bounded_numbers state) }
{
    let numbers = [
        (0, tables::AGC_GAIN_MAX_Q12, state.pf.agc_gain_q12),
        (tables::LAST_LAG_MIN, tables::LAST_LAG_MAX, state.last_lag),
        (tables::PITCH_MIN, tables::LAST_LAG2_MAX, state.last_lag2),
        (0, tables::TAPS_SUM_MAX_Q15, state.last_taps_sum_q15),
        (0, tables::GAIN_UNVOICED_MAX, state.last_gain_unvoiced),
    ];
    numbers.iter().all(|&(lo, hi, z)| is_between(lo, hi, z))
}

// Number 2 is not given.
#[tactic(auto, unfolding(crate::specs::State::in_bounds))]
pub fn in_bounds(state: State) -> bool
    ensures { result ≡ in_bounds state }
{
    are_words(&state.exc_hist) && are_words(&state.syn_mem) && numbers_in_bounds(state)
}
