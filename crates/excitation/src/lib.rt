// Excitation: the sum of the adaptive part and the fixed vector, and the signal that holds the history and the frame, under
// the Rust's names (qdec.rs). The Rust's excitation is i32, but always within 16 bits.
#![tactic(auto)]

ghost use Rattle.std.specs.Prelude.{◌≡◌, pos, ◌+ℤ◌};
ghost use Rattle.basicop.specs.Operators.{word16};
ghost use Rattle.excitation.specs.Excitation.{subframe_place, with_subframe, limited_sum, tap_sum_of, unvoiced_gain};

#[derive(Clone, Copy, PartialEq, Eq, Debug)]
pub enum Subframe {
    Zero,
    One,
    Two,
    Three,
}

impl Subframe {
    // The subframes of a frame, in their order.
    pub const ALL: [Subframe; tables::SUBFRAMES_PER_FRAME] = [
        Subframe::Zero,
        Subframe::One,
        Subframe::Two,
        Subframe::Three,
    ];
}

// 6.3 or 5.3 kbit/s.
#[derive(Clone, Copy, PartialEq, Eq, Debug)]
pub enum Rate {
    High,
    Low,
}

// The place of a subframe's first sample in the signal.
pub fn subframe_place(s: Subframe) -> usize
    ensures { result ≡ subframe_place s }
{
    tables::EXC_HIST + tables::SUBFRAME_SIZE * s as usize
}

// A sample of the adaptive part and one of the fixed vector, limited to 16 bits.
fn sum_sample(u: i32, v: i32) -> i16
    ensures { result ≡ word16 (u +ℤ v) }
{
    basicop::saturate(basicop32::l_add(u, v))
}

// The excitation of a subframe.
pub fn excitation_sum(u: [i32; 60], v: [i32; 60]) -> [i16; 60]
    ensures { result ≡ limited_sum u v }
{
    std::array::from_fn(|n| sum_sample(u[n], v[n]))
}

// The signal with a subframe's excitation at its place. Where the Rust moves its history on, the place moves on here.
pub fn push_excitation(mut signal: [i16; 386], s: Subframe, e: [i16; 60]) -> [i16; 386]
    ensures { result ≡ with_subframe signal (subframe_place s) e }
{
    let p = subframe_place(s);
    signal[p..p + tables::SUBFRAME_SIZE].copy_from_slice(&e);
    signal
}

// The tap sum that is stored for erased frames.
pub fn tap_sum(taps: [i16; 5]) -> i32
    ensures { result ≡ tap_sum_of taps }
{
    // A loop: `sum` was tried, and of a sum of signed numbers the proof knows no bound.
    let mut sum: i32 = 0;
    for tap in &taps {
        sum += i32::from(*tap);
    }
    (sum * 2).clamp(0, tables::TAPS_SUM_MAX_Q15)
}

// The unvoiced gain that is stored for erased frames, from the gain indices of subframes 2 and 3.
pub fn unvoiced_gain(index2: u8, index3: u8) -> i32
    ensures { result ≡ pos (unvoiced_gain index2 index3) }
{
    (pulses::doubled_gain(index2) + pulses::doubled_gain(index3)) / 2
}
