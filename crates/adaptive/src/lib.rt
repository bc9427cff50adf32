// The adaptive part of the excitation, under the Rust's name (qdec.rs).
#![tactic(auto)]

ghost use Rattle.std.specs.Prelude.{◌≡◌, ◌*◌, ◌^◌, ◌≤◌, pos, ◌+ℤ◌};
ghost use Rattle.integers.specs.Base.{tabulate, floor_div, Within};
ghost use Rattle.excitation.specs.Excitation.{subframe_place};
ghost use Rattle.adaptive.specs.Adaptive.{limited_lag, delayed, adaptive};

use excitation::Subframe;

// The taps as a count of products.
const TAPS: u8 = tables::ACB_TAPS as u8;

// A lag limited to 18..=142.
pub fn limited_lag(lag: i32) -> usize
    ensures { result ≡ limited_lag lag }
{
    lag.clamp(tables::PITCH_MIN, tables::PITCH_MAX) as usize
}

// What the taps read: sixty samples and four more. Those that lie in the subframe itself repeat what was read a lag before.
fn delayed_samples(signal: &[i16; 386], p: usize, l: usize) -> [i16; 64]
    requires le_p { (146 ≤ p) × (p ≤ 326) }
    requires le_l { (18 ≤ l) × (l ≤ 142) }
    ensures { result ≡ tabulate (delayed signal.now p l) 64 }
{
    let mut e = [0i16; 64];
    for m in 0..tables::ACB_SPAN {
        e[m] = if m < l + 2 {
            signal[p - (l + 2) + m]
        } else {
            e[m - l]
        };
    }
    e
}

// Back from 16384ths, rounded.
fn rounded_tap_sum(sum: i64) -> i32
    requires { Within (5 * 2 ^ 30) sum }
    ensures { result ≡ floor_div (sum +ℤ pos 8192) 16384 }
{
    ((sum + 8192) >> 14) as i32
}

// The adaptive part of a subframe, from the signal before it. The Rust limits it to 32 bits, which 16-bit samples do not reach.
pub fn acb_contribution(signal: &[i16; 386], s: Subframe, lag: i32, taps: [i16; 5]) -> [i32; 60]
    ensures { result ≡ adaptive signal.now (subframe_place s) (limited_lag lag) taps }
{
    let p = excitation::subframe_place(s);
    let l = limited_lag(lag);
    let e = delayed_samples(signal, p, l);
    std::array::from_fn(|n| rounded_tap_sum(correlation::correlate(&taps, 0, &e, n, TAPS)))
}
