// The filters of a subframe: synthesis, under the Rust's name (qdec.rs), with its memory clamped, and the poles of the formant
// postfilter. Memories are sixteen bits by type.
#![tactic(auto)]

ghost use Rattle.std.specs.Prelude.{◌≡◌, ◌∷◌, ◌*◌, ◌^◌, pos, ◌+ℤ◌, ◌-ℤ◌, ◌*ℤ◌, take};
ghost use Rattle.std.specs.Int.{w16};
ghost use Rattle.integers.specs.Base.{entry, Within, AllWithin, AllFit};
ghost use Rattle.synthesis.specs.Synthesis.{prediction, rounded, driven_subframe, driven_memory, synthesised, memory_after, difference};

use filters::SubframeOut;

// Samples of 16 bits in words of 64: ten narrower ones would be kept in one register, from which each has to be taken.
fn widened(mem: [i16; 10]) -> [i64; 10]
    ensures { result ≡ mem }
{
    mem.map(i64::from)
}

// The sum of ten coefficients times ten past samples.
fn predicted(a: [i16; 10], mem: [i64; 10]) -> i64
    requires { AllFit w16 mem }
    ensures { result ≡ prediction a mem }
{
    // A loop, as in `tap_sum` of `excitation`: of std's `sum` of signed numbers the proof knows no bound.
    let mut acc = 0;
    for j in 0..tables::LPC_ORDER {
        acc += i64::from(a[j]) * mem[j];
    }
    acc
}

// The memory with a newer sample.
fn remembered(mem: [i64; 10], y: i16) -> [i64; 10]
    ensures { result ≡ y ∷ take 9 mem }
{
    [
        i64::from(y),
        mem[0],
        mem[1],
        mem[2],
        mem[3],
        mem[4],
        mem[5],
        mem[6],
        mem[7],
        mem[8],
    ]
}

// Back from 8192ths to a sample.
fn rounded_sample(acc: i64) -> i16
    requires { Within (2 ^ 45) acc }
    ensures { result ≡ rounded acc }
{
    filters::limited_sample((acc + 4096) >> 13)
}

// One sample, of an input in 8192ths. Its bound is no plainer as that of a type of sixty inputs: it would stand in as many places,
// and the type would have two makers.
fn sample(a: [i16; 10], x: i64, mem: [i64; 10]) -> i16
    requires within { Within (2 ^ 44) x }
    requires all_fit { AllFit w16 mem }
    ensures { result ≡ rounded (x +ℤ prediction a mem) }
{
    rounded_sample(x + predicted(a, mem))
}

// A subframe, of inputs in 8192ths: all that does not wait for the sample before it is done before.
fn driven_subframe(a: [i16; 10], x: &[i64; 60], mem: [i16; 10]) -> SubframeOut<[i16; 10]>
    requires { AllWithin (2 ^ 44) x.now }
    ensures out_value { result.out ≡ driven_subframe a (entry x.now) mem }
    ensures mem_value { result.mem ≡ driven_memory a (entry x.now) mem }
{
    let mut m = widened(mem);
    let mut out = [0; 60];
    for n in 0..tables::SUBFRAME_SIZE {
        let y = sample(a, x[n], m);
        out[n] = y;
        // In two steps: tried in one, and the check does not cover a call whose array replaces another.
        let next = remembered(m, y);
        m = next;
    }
    SubframeOut {
        out,
        mem: filters::last_ten(&out),
    }
}

// An input of synthesis in 8192ths.
fn scaled_input(x: i32) -> i64
    ensures value { result ≡ x *ℤ pos 8192 }
    ensures within { Within (2 ^ 44) result }
{
    i64::from(x) * 8192
}

pub fn synthesis_subframe(a: [i16; 10], x: &[i32; 60], mem: [i16; 10]) -> SubframeOut<[i16; 10]>
    ensures out_value { result.out ≡ synthesised a x.now mem }
    ensures mem_value { result.mem ≡ memory_after a x.now mem }
{
    let v = std::array::from_fn(|n| scaled_input(x[n]));
    driven_subframe(a, &v, mem)
}

// An input of the poles in 8192ths.
fn input_less(y: i16, less: i32) -> i64
    ensures value { result ≡ y *ℤ pos 8192 -ℤ less }
    ensures within { Within (2 ^ 44) result }
{
    i64::from(y) * 8192 - i64::from(less)
}

// The poles of a filter over one subframe; `less` is what its zeros take away, in 8192ths.
pub fn pole_subframe(
    a: [i16; 10],
    y: &[i16; 60],
    less: &[i32; 60],
    mem: [i16; 10],
) -> SubframeOut<[i16; 10]>
    ensures out_value { result.out ≡ driven_subframe a (difference y.now less.now) mem }
    ensures mem_value { result.mem ≡ driven_memory a (difference y.now less.now) mem }
{
    let v = std::array::from_fn(|n| input_less(y[n], less[n]));
    driven_subframe(a, &v, mem)
}
