// The samples of a frame, into those that are lent (the Rust's decode_params and decode_erased, qdec.rs).
#![tactic(auto)]

ghost use Rattle.std.specs.Prelude.{◌≡◌, length};
ghost use Rattle.postfilter.specs.Postfilter.{filtered, postfilter_after};
ghost use Rattle.output.specs.Output.{subframe_output, filters_after, frame_output, frame_filters, output_in, filters_in};

use filters::SubframeOut;
use postfilter::Postfilter;

// The memories that the subframes hand on.
#[derive(Clone, Copy, PartialEq, Eq, Debug)]
pub struct Filters {
    pub syn_mem: [i16; 10],
    pub pf: Postfilter,
}

// The memory of formant, tilt and gain is lent to them for the subframe. Not by `filtered_subframe`, which says the same: document 01
// has the memory lent (docs/DECISIONS.md, "Forms by place").
fn postfilter_subframe(pf: Postfilter, a: [i16; 10], y: [i16; 60]) -> SubframeOut<Postfilter>
    ensures { (result.out ≡ filtered pf a y) × (result.mem ≡ postfilter_after pf a y) }
{
    let mut mem = pf;
    let out = postfilter::formant_agc_subframe(&mut mem, a, y);
    SubframeOut { out, mem }
}

// The output step of a subframe: its sixty samples into the part that is lent, and the memories after it.
fn output_subframe(part: &mut [i16], on: bool, a: [i16; 10], x: [i32; 60], f: Filters) -> Filters
    requires { length part.old ≡ 60 }
    ensures memories { result ≡ filters_after on a x f }
    ensures samples { part.new ≡ subframe_output on a x f }
{
    let y = synthesis::synthesis_subframe(a, &x, f.syn_mem);
    let out = y.out;
    let syn_mem = y.mem;
    if !on {
        part.copy_from_slice(&out);
        return Filters { syn_mem, pf: f.pf };
    }
    let z = postfilter_subframe(f.pf, a, out);
    part.copy_from_slice(&z.out);
    Filters { syn_mem, pf: z.mem }
}

// Each subframe writes only its sixty samples. By place: tried over `chunks_exact_mut`, and once its chunks are back a proof knows
// the slice's length and not its samples. Four sets by value are document 01's form (docs/DECISIONS.md), and inputs stand beside them.
fn output_subframes(
    samples: &mut [i16],
    on: bool,
    sets: [[i16; 10]; 4],
    inputs: [[i32; 60]; 4],
    f: Filters,
) -> Filters
    requires { length samples.old ≡ 240 }
    ensures memories { result ≡ frame_filters on sets inputs f }
    ensures samples { samples.new ≡ frame_output on sets inputs f }
{
    let mut g = f;
    for s in 0..tables::SUBFRAMES_PER_FRAME {
        let at = tables::SUBFRAME_SIZE * s;
        let part = &mut samples[at..at + tables::SUBFRAME_SIZE];
        g = output_subframe(part, on, sets[s], inputs[s], g);
    }
    g
}

// All 240 samples, and the memories after the frame.
pub fn output_frame(
    samples: &mut [i16],
    on: bool,
    sets: [[i16; 10]; 4],
    inputs: [[i32; 60]; 4],
    f: Filters,
) -> Filters
    ensures memories { result ≡ filters_in on sets inputs f samples.old }
    ensures samples { samples.new ≡ output_in on sets inputs f samples.old }
{
    if samples.len() != tables::FRAME_SIZE_SAMPLES {
        return f;
    }
    output_subframes(samples, on, sets, inputs, f)
}
