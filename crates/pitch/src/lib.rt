// The pitch postfilter of one subframe, under the Rust's name (qdec.rs).
#![tactic(auto)]

ghost use Rattle.std.specs.Prelude.{◌≡◌, Some, ◌+◌, ◌*◌, ◌^◌, ◌≤◌, ltb, pos, nat_abs, ◌*ℤ◌};
ghost use Rattle.integers.specs.Base.{entry, tabulate, Within, AllWithin};
ghost use Rattle.tables.specs.Constants.{pitch_gate};
ghost use Rattle.correlation.specs.Correlation.{energy};
ghost use Rattle.excitation.specs.Excitation.{subframe_place};
ghost use Rattle.adaptive.specs.Adaptive.{limited_lag};
ghost use Rattle.lags.specs.Search.{Small, Inside};
ghost use Rattle.pitch.specs.Pitch.{gain, gamma, weight, unchanged, mixed_sample, mixed, level, level_sample, levelled, applied, postfiltered};

use excitation::{Rate, Subframe};
use lags::Choice;
use wide::Wide;

// A subframe as a count of products.
const SUBFRAME: u8 = tables::SUBFRAME_SIZE as u8;

fn ltp_gamma_q15(rate: Rate) -> u64
    ensures value { result ≡ gamma rate }
    ensures upper_bound { result ≤ 8192 }
{
    match rate {
        Rate::High => tables::LTP_GAMMA_HIGH_Q15 as u64,
        Rate::Low => tables::LTP_GAMMA_LOW_Q15 as u64,
    }
}

// The correlation and the energy of a chosen lag.
#[derive(Clone, Copy)]
struct LagSums {
    c: u64,
    d: u64,
    ghost small: { c ≤ 2 ^ 36 },
}

impl LagSums {
    // Whether 4 c² is less than d t: the prediction gain is below 1.25 dB.
    fn too_weak(self, t: u64) -> bool
        ensures { result ≡ ltb (pitch_gate * (self.c * self.c)) (self.d * t) }
    {
        wide::less(
            wide::square_times(self.c, tables::PITCH_GATE),
            wide::product(self.d, t),
        )
    }

    // c/d in 32768ths, at most 32767.
    fn gain_q15(self) -> u64
        ensures value { result ≡ gain self.c self.d }
        ensures upper_bound { result ≤ 32767 }
    {
        if self.d <= self.c {
            32767
        } else {
            self.c * 32768 / self.d
        }
    }

    fn weight_q15(self, rate: Rate) -> u32
        ensures value { result ≡ weight rate self.c self.d }
        ensures upper_bound { result ≤ 8192 }
    {
        (self.gain_q15() * ltp_gamma_q15(rate) / 32768) as u32
    }
}

// The bounds of a weight and a level are no plainer as types: each is made in one place.
fn mixed_sample(w: u32, s: i16, y: i16) -> i32
    requires { w ≤ 8192 }
    ensures value { result ≡ mixed_sample w s y }
    ensures within { Within 40960 result }
{
    i32::from(s) + ((w as i32 * i32::from(y)) >> 15)
}

fn square(z: i32) -> u64
    requires { Within 40960 z }
    ensures value { result ≡ nat_abs (z *ℤ z) }
    ensures upper_bound { result ≤ 2 ^ 31 }
{
    (z * z) as u64
}

// The root of t/e, in 32768ths.
fn level_q15(t: u64, e: u64) -> u32
    requires { t ≤ e }
    ensures value { result ≡ level t e }
    ensures upper_bound { result ≤ 32768 }
{
    let ratio = quotient::divide(wide::product(t, 0x4000_0000), Wide { hi: 0, lo: e });
    isqrt::isqrt64(ratio.lo)
}

fn level_sample(g: u32, z: i32) -> i32
    requires g_bound { g ≤ 32768 }
    requires within { Within 40960 z }
    ensures { result ≡ level_sample g z }
{
    ((i64::from(z) * i64::from(g) + 16384) >> 15) as i32
}

// A subframe with a part of another.
#[derive(Drop)]
struct Mixed {
    samples: [i32; 60],
    ghost small: { AllWithin 40960 samples },
}

impl Mixed {
    fn new(x: &[i16; 386], s: Subframe, q: usize, w: u32) -> Mixed
        requires q_bound { q ≤ 326 }
        requires w_bound { w ≤ 8192 }
        ensures { result.samples ≡ mixed x.now (subframe_place s) q w }
    {
        let p = excitation::subframe_place(s);
        // A loop: of the items of `array::from_fn` the proof knew the values and not their bound.
        let mut samples = [0i32; 60];
        for n in 0..tables::SUBFRAME_SIZE {
            samples[n] = mixed_sample(w, x[p + n], x[q + n]);
        }
        Mixed { samples }
    }

    fn energy(&self) -> u64
        ensures { pos result ≡ energy self.now.samples 0 60 }
    {
        // A loop: `sum` was tried, and left its bound and its value to be proved from a fold.
        let mut e: u64 = 0;
        for z in &self.samples {
            e += square(*z);
        }
        e
    }

    fn scaled(&self, g: u32) -> [i32; 60]
        requires { g ≤ 32768 }
        ensures { result ≡ tabulate (λ n. level_sample g (entry self.now.samples n)) 60 }
    {
        std::array::from_fn(|n| level_sample(g, self.samples[n]))
    }

    #[tactic(auto, unfolding(crate::specs::Pitch::levelled))]
    fn levelled(self, t: u64) -> [i32; 60]
        ensures { result ≡ levelled self.samples t }
    {
        let e = self.energy();
        if e < t {
            return self.samples;
        }
        self.scaled(level_q15(t, e))
    }
}

// The subframe as it is.
pub fn plain_subframe(signal: &[i16; 386], s: Subframe) -> [i32; 60]
    ensures { result ≡ unchanged signal.now (subframe_place s) }
{
    let p = excitation::subframe_place(s);
    std::array::from_fn(|n| i32::from(signal[p + n]))
}

// With the chosen lag, for a subframe of the energy t.
#[tactic(auto, unfolding(crate::specs::Pitch::applied))]
fn applied_choice(x: &[i16; 386], rate: Rate, s: Subframe, t: u64, k: Choice) -> [i32; 60]
    requires small { Small k.best }
    requires inside { Inside k.to (subframe_place s) k.best }
    ensures { result ≡ applied x.now rate (subframe_place s) t (Some k) }
{
    let sums = LagSums {
        c: k.best.c,
        d: k.best.d,
    };
    if sums.too_weak(t) {
        return plain_subframe(x, s);
    }
    let p = excitation::subframe_place(s);
    let q = lags::window_place(k.to, p as u16, k.best.lag as u16);
    Mixed::new(x, s, q, sums.weight_q15(rate)).levelled(t)
}

// A subframe of the frame's excitation, strengthened by what a pitch lag before or after it is like it.
#[tactic(auto, unfolding(crate::specs::Pitch::applied, crate::specs::Pitch::postfiltered))]
pub fn pitch_postfilter(signal: &[i16; 386], s: Subframe, lag: i32, rate: Rate) -> [i32; 60]
    ensures { result ≡ postfiltered signal.now rate (subframe_place s) (limited_lag lag) }
{
    let t = correlation::energy_from(signal, excitation::subframe_place(s), SUBFRAME);
    if t == 0 {
        return plain_subframe(signal, s);
    }
    match lags::chosen_lag(signal, s, lag) {
        Some(k) => applied_choice(signal, rate, s, t, k),
        None => plain_subframe(signal, s),
    }
}
