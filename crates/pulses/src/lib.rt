// Pulses: the vector of a pulse description, under the Rust's names (qdec.rs).
#![tactic(auto)]

ghost use Rattle.std.specs.Prelude.{◌≡◌, cond, ◌*◌, ◌<◌, max, pos, ◌+ℤ◌};
ghost use Rattle.integers.specs.Base.{entry, tabulate, Within, AllWithin};
ghost use Rattle.tables.specs.Constants.{unvoiced_gain_max};
ghost use Rattle.positions.specs.Positions.{limit, slots, bits};
ghost use Rattle.pulses.specs.Pulses.{doubled_gain, signed_by, repeats, vector};

use positions::Count;

// A pulse description (document 01, "Pulses").
#[derive(Clone, Copy, PartialEq, Eq, Debug)]
pub struct Description {
    pub count: Count,
    pub train: bool,
    pub base_lag: u32,
    pub grid: bool,
    pub code: u32,
    pub signs: u8,
    pub gain_index: u8,
}

// The size of the pulses that a gain index stands for.
pub fn doubled_gain(index: u8) -> i32
    ensures { result ≡ pos (doubled_gain index) }
{
    2 * i32::from(tables::fixed_codebook_gain(index))
}

// A pulse of that size, by its sign bit.
fn with_sign(size: i32, signs: u8, b: usize) -> i32
    requires within { Within unvoiced_gain_max size }
    requires b_bound { b < 8 }
    ensures { result ≡ signed_by size signs b }
{
    if (signs >> b) % 2 == 1 { -size } else { size }
}

// From one repeat of a pulse to the next. Without a train it leaves the subframe.
fn pulse_step(train: bool, lag: u32) -> usize
    ensures { result ≡ cond train (max lag 1) 60 }
{
    if train {
        lag.max(1) as usize
    } else {
        tables::SUBFRAME_SIZE
    }
}

// Adds a pulse at sample p, repeated, to v. The largest doubled gain is 13246, and five pulses at most are there before.
fn add_pulse(v: &mut [i32; 60], amp: i32, p: usize, step: usize)
    requires step_nonzero { 0 < step }
    requires all_within { AllWithin (5 * unvoiced_gain_max) v.old }
    requires within { Within unvoiced_gain_max amp }
    ensures { v.new ≡ tabulate (λ j. entry v.old j +ℤ cond (repeats step p j) amp (pos 0)) 60 }
{
    for j in (p..tables::SUBFRAME_SIZE).step_by(step) {
        v[j] += amp;
    }
}

// The vector of d from the bits of its slots. Pulses are added from the first slot on, so the sign bits go down.
fn add_pulses(d: Description, found: u32) -> [i32; 60]
    requires code_bound { d.code < limit d.count }
    requires found_value { found ≡ bits (slots d.count d.code) }
    ensures { result ≡ vector d }
{
    let size = doubled_gain(d.gain_index);
    let step = pulse_step(d.train, d.base_lag);
    let grid = usize::from(d.grid);
    let mut v = [0; 60];
    let mut left = d.count.pulses();
    for slot in 0..tables::MPMLQ_GRID_SLOTS {
        if (found >> slot) % 2 == 1 {
            left -= 1;
            let amp = with_sign(size, d.signs, left);
            add_pulse(&mut v, amp, 2 * slot + grid, step);
        }
    }
    v
}

// The vector of a pulse description: zeros where its code has no slots.
pub fn mpmlq_fixed_vector(d: Description) -> [i32; 60]
    ensures { result ≡ vector d }
{
    let Some(found) = positions::fcbk_unpk_positions(d.code, d.count) else {
        return [0; 60];
    };
    add_pulses(d, found)
}
