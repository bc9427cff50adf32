// Formant, tilt and gain of one subframe, with their memory, under the Rust's names (qdec.rs).
#![tactic(auto)]

ghost use Rattle.std.specs.Prelude.{◌≡◌, ◌*◌, ◌^◌, ◌≤◌, pos};
ghost use Rattle.integers.specs.Base.{Within};
ghost use Rattle.postfilter.specs.Postfilter.{tilt_of, smoothed, compensated_sample, compensated, gain_target, towards, gain_after, gained_sample, gained, filtered, postfilter_after};

use filters::SubframeOut;

// A subframe as a count of products, the pairs of neighbours in it, and its last place.
const SUBFRAME: u8 = tables::SUBFRAME_SIZE as u8;

const SUBFRAME_PAIRS: u8 = SUBFRAME - 1;

const LAST: usize = tables::SUBFRAME_SIZE - 1;

// The Rust's PostfilterState.
#[derive(Clone, Copy, PartialEq, Eq, Debug)]
pub struct Postfilter {
    pub num_mem: [i16; 10],
    pub den_mem: [i16; 10],
    pub tilt_prev: i16,
    pub tilt_k1: i16,
    pub agc_gain_q12: i32,
}

// The tilt of a subframe, truncated towards zero.
fn tilt_quotient(r1: i64, r0: u64) -> i32
    requires within { Within (2 ^ 36) r1 }
    requires r0_bound { r0 ≤ 2 ^ 36 }
    ensures { result ≡ tilt_of r1 r0 }
{
    if r0 == 0 {
        return 0;
    }
    let k = r1 * 32768 / (r0 as i64);
    k.clamp(-32768, 32767) as i32
}

fn smoothed_tilt(k1: i16, k: i32) -> i16
    requires { Within 32768 k }
    ensures { result ≡ smoothed k1 k }
{
    basicop::saturate((tables::TILT_KEPT * i32::from(k1) + k + 2) >> 2)
}

fn compensated_sample(k1: i16, z: i16, before: i16) -> i16
    ensures { result ≡ compensated_sample k1 z before }
{
    let mu = i32::from(k1 >> 2);
    basicop::saturate(i32::from(z) - ((mu * i32::from(before)) >> 15))
}

fn compensated_subframe(k1: i16, prev: i16, z: &[i16; 60]) -> [i16; 60]
    ensures { result ≡ compensated k1 prev z.now }
{
    let mut out = [0; 60];
    let mut before = prev;
    for n in 0..tables::SUBFRAME_SIZE {
        out[n] = compensated_sample(k1, z[n], before);
        before = z[n];
    }
    out
}

// Energies of sixty samples leave room for 2^24, so that no pair of words is needed.
fn gain_target(e: u64, f: u64) -> i32
    requires { e ≤ 60 * 2 ^ 30 }
    ensures { result ≡ pos (gain_target e f) }
{
    if f == 0 {
        return tables::AGC_ONE_Q12;
    }
    let root = isqrt::isqrt64(e * 0x100_0000 / f);
    root.min(tables::AGC_GAIN_MAX_Q12 as u32) as i32
}

// The gain, moved towards t. It stays between both, so that it fits whatever they are.
fn moved_gain(t: i32, g: i32) -> i32
    ensures { result ≡ towards t g }
{
    let distance = i64::from(t) - i64::from(g);
    (i64::from(g) + (distance >> 4)) as i32
}

fn gained_sample(g: i32, z: i16) -> i16
    ensures { result ≡ gained_sample g z }
{
    filters::limited_sample((i64::from(z) * i64::from(g) * tables::AGC_BOOST + 32768) >> 16)
}

// The samples with their gain, and the gain after them.
fn gained_subframe(t: i32, gain: i32, z: &[i16; 60]) -> SubframeOut<i32>
    ensures out_value { result.out ≡ gained t gain z.now }
    ensures mem_value { result.mem ≡ gain_after t gain 60 }
{
    let mut g = gain;
    let mut out = [0; 60];
    for n in 0..tables::SUBFRAME_SIZE {
        g = moved_gain(t, g);
        out[n] = gained_sample(g, z[n]);
    }
    SubframeOut { out, mem: g }
}

pub fn filtered_subframe(pf: Postfilter, a: [i16; 10], y: [i16; 60]) -> SubframeOut<Postfilter>
    ensures out_value { result.out ≡ filtered pf a y }
    ensures mem_value { result.mem ≡ postfilter_after pf a y }
{
    let f = formant::formant_subframe(a, &y, pf.num_mem, pf.den_mem);
    let z = f.out;
    let r0 = correlation::energy_from(&y, 0, SUBFRAME);
    let r1 = correlation::correlate(&y, 1, &y, 0, SUBFRAME_PAIRS);
    let k1 = smoothed_tilt(pf.tilt_k1, tilt_quotient(r1, r0));
    let v = compensated_subframe(k1, pf.tilt_prev, &z);
    let target = gain_target(r0, correlation::energy_from(&v, 0, SUBFRAME));
    let g = gained_subframe(target, pf.agc_gain_q12, &v);
    // Named first: tried in place, and the check does not cover an array that a field or a call gives straight to a field.
    let out = g.out;
    let num_mem = filters::last_ten(&y);
    let den_mem = f.mem;
    SubframeOut {
        out,
        mem: Postfilter {
            num_mem,
            den_mem,
            tilt_prev: z[LAST],
            tilt_k1: k1,
            agc_gain_q12: g.mem,
        },
    }
}

// The memory is lent, and changed in place, as in the Rust.
pub fn formant_agc_subframe(pf: &mut Postfilter, a: [i16; 10], y: [i16; 60]) -> [i16; 60]
    ensures { (result ≡ filtered pf.old a y) × (pf.new ≡ postfilter_after pf.old a y) }
{
    let f = filtered_subframe(*pf, a, y);
    *pf = f.mem;
    f.out
}
