// The decoder: a record and a state to 240 samples and the next state, or a refusal (the Rust's QSynthesis, qdec.rs).
#![tactic(auto)]

ghost use Rattle.std.specs.Prelude.{◌≡◌, true, false, cond, drop, Err, MatchResult};
ghost use Rattle.numbers.specs.declared.Refusal.TheVariants.{StateBounds};
ghost use Rattle.verdict.specs.Verdicts.{number_of};
ghost use Rattle.state.specs.State.{in_bounds};
ghost use Rattle.excitation.specs.Excitation.{subframe_place, in_turn};
ghost use Rattle.excitation.specs.declared.Subframe.{Subframe};
ghost use Rattle.record.specs.Record.{block_of};
ghost use Rattle.record.specs.declared.Block.{Block};
ghost use Rattle.adaptive.specs.Adaptive.{limited_lag};
ghost use Rattle.pitch.specs.Pitch.{unchanged, postfiltered};
ghost use Rattle.decoder.specs.Frame.{each_subframe, plain_inputs, pitch_inputs, candidates_of, received_to, frame_samples, frame_state, erased_checked, erased_samples, erased_state, received_checked, received_samples, received_state};
ghost use Rattle.decoder.specs.Decoder.{examined, refusal, acceptance, answer_of, first_number, samples_of};

use excitation::{Rate, Subframe};
use layout::LspForm;
use numbers::Refusal;
use output::Filters;
use record::Block;
use refusals::Frame;
use stability::Stabilised;
use state::State;
use verdict::Verdict;

// What is stored of a frame for erased ones (record_last_frame).
#[derive(Clone, Copy, PartialEq, Eq, Debug)]
pub struct LastFrame {
    pub last_lag: i32,
    pub last_lag2: i32,
    pub last_taps_sum_q15: i32,
    pub last_gain_unvoiced: i32,
    pub erased_run: u32,
}

#[derive(Clone, Copy)]
pub struct Answer {
    pub verdict: Verdict,
    pub state: State,
}

// A state in bounds: number 2 is not given.
#[derive(Clone, Copy)]
struct Bounded {
    state: State,
    ghost within: { in_bounds state ≡ true },
}

impl TryFrom<State> for Bounded {
    type Error = Refusal;

    ghost try_from_gives = { λ s r. MatchResult r (λ b. b.state ≡ s) (λ n. (n ≡ StateBounds) × (in_bounds s ≡ false)) };

    fn try_from(state: State) -> Result<Bounded, Refusal> {
        if !state::in_bounds(state) {
            return Err(Refusal::StateBounds);
        }
        Ok(Bounded { state })
    }
}

// Where the tail of a frame starts that the classifier of erased frames reads.
const TAIL: usize = tables::FRAME_SIZE_SAMPLES - tables::ERASURE_CLASSIFIER_HISTORY_LEN;

// That tail (record_pcm_history).
fn pcm_history(samples: &[i16; 240]) -> [i16; 120]
    ensures { result ≡ drop 120 samples.now }
{
    std::array::from_fn(|n| samples[TAIL + n])
}

// The input of the synthesis of each subframe: the excitation itself.
fn plain_inputs(signal: &[i16; 386]) -> [[i32; 60]; 4]
    ensures { result ≡ plain_inputs signal.now }
{
    Subframe::ALL.map(
        |s|
            ensures { result ≡ unchanged signal.entry.now (subframe_place s) }
        { pitch::plain_subframe(signal, s) },
    )
}

fn read_blocks(fields: &[u8], rate: Rate) -> [Block; 4]
    ensures { result ≡ each_subframe (block_of rate fields.now) }
{
    Subframe::ALL.map(
        |s|
            ensures { result ≡ block_of rate fields.entry.now s }
        { record::read_block(fields, rate, s) },
    )
}

// With the postfilter on, through the pitch postfilter, around the base lag of each block.
fn received_inputs(signal: &[i16; 386], on: bool, rate: Rate, blocks: &[Block; 4]) -> [[i32; 60]; 4]
    ensures { (b : Subframe → Block) → blocks.now ≡ each_subframe b
        → result ≡ cond on (pitch_inputs rate (λ s. (b s).base_lag) signal.now) (plain_inputs signal.now) }
{
    if !on {
        return plain_inputs(signal);
    }
    Subframe::ALL.map(
        |s|
            ensures { (b : Subframe → Block) → blocks.entry.now ≡ each_subframe b
                → result ≡ postfiltered signal.entry.now rate (subframe_place s) (limited_lag (b s).base_lag) }
        { pitch::pitch_postfilter(signal, s, blocks[s as usize].base_lag, rate) },
    )
}

// The signal with the excitation of a subframe, by its block.
fn received_subframe(signal: [i16; 386], s: Subframe, blocks: &[Block; 4]) -> [i16; 386]
    ensures { (b : Subframe → Block) → blocks.now ≡ each_subframe b → result ≡ received_to (b s) signal s }
{
    let b = &blocks[s as usize];
    let u = adaptive::acb_contribution(&signal, s, b.lag, b.taps);
    let e = excitation::excitation_sum(u, b.fixed);
    excitation::push_excitation(signal, s, e)
}

// Of each subframe in turn.
fn received_signal(mut signal: [i16; 386], blocks: &[Block; 4]) -> [i16; 386]
    ensures { (b : Subframe → Block) → blocks.now ≡ each_subframe b → result ≡ in_turn (λ x k. received_to (b k) x k) signal }
{
    for s in Subframe::ALL {
        // By a name of its own, as in `erasure`.
        let next = received_subframe(signal, s, blocks);
        signal = next;
    }
    signal
}

// The end of a frame: its samples, and the answer with the next state.
fn finish_frame(
    samples: &mut [i16; 240],
    bounded: Bounded,
    checked: Stabilised,
    signal: [i16; 386],
    inputs: [[i32; 60]; 4],
    last: LastFrame,
) -> Answer
    ensures answer { result ≡ acceptance checked.outcome (frame_state bounded.state checked.lsps inputs signal last) }
    ensures samples { samples.new ≡ frame_samples bounded.state checked.lsps inputs }
{
    let given = bounded.state;
    let sets = lpc::frame_lpc_q13(given.prev_lsp, checked.lsps);
    // Arrays for a struct have names first: the check covers none that a call or a field gives straight to a field.
    let syn_mem = widths::narrow_memory(given.syn_mem);
    let pf = given.pf;
    let f = output::output_frame(
        samples,
        given.postfilter,
        sets,
        inputs,
        Filters { syn_mem, pf },
    );
    let prev_lsp = checked.lsps;
    let exc_hist = widths::history_after(&signal);
    let syn_mem = widths::widen_memory(f.syn_mem);
    let pf = f.pf;
    let pcm_hist = pcm_history(samples);
    let next = State {
        prev_lsp,
        exc_hist,
        syn_mem,
        pf,
        last_lag: last.last_lag,
        last_lag2: last.last_lag2,
        last_taps_sum_q15: last.last_taps_sum_q15,
        last_gain_unvoiced: last.last_gain_unvoiced,
        pcm_hist,
        erased_run: last.erased_run,
        postfilter: given.postfilter,
    };
    Answer {
        verdict: Ok(checked.outcome),
        state: next,
    }
}

// The Rust's decode_erased.
fn decode_erased(samples: &mut [i16; 240], bounded: Bounded) -> Answer
    ensures answer { result ≡ acceptance (erased_checked bounded.state).outcome (erased_state bounded.state) }
    ensures samples { samples.new ≡ erased_samples bounded.state }
{
    let given = bounded.state;
    let run = noise::next_run(given.erased_run);
    let prev = given.prev_lsp;
    let checked = stability::lsp_check_or_previous(
        lsp::lsp_extrapolate(prev),
        prev,
        tables::LSP_DELTA_MIN_ERASURE_Q15,
    );
    let pcm = given.pcm_hist;
    let class = voicing::classify_erasure_voicing(&pcm, given.last_lag2 as u8);
    let signal = erasure::erased_excitation(
        widths::frame_signal(given.exc_hist),
        class,
        given.last_taps_sum_q15 as i16,
        given.last_gain_unvoiced as i16,
        run,
    );
    let last = LastFrame {
        last_lag: given.last_lag,
        last_lag2: given.last_lag2,
        last_taps_sum_q15: given.last_taps_sum_q15,
        last_gain_unvoiced: given.last_gain_unvoiced,
        erased_run: run,
    };
    finish_frame(
        samples,
        bounded,
        checked,
        signal,
        plain_inputs(&signal),
        last,
    )
}

// Candidate LSPs: the record's own, or those of its index.
fn candidates_of(record: &[u8], form: LspForm, prev: [i16; 10]) -> [i16; 10]
    ensures { result ≡ candidates_of form «record».now prev }
{
    match form {
        LspForm::Values => record::candidate_lsps(record),
        LspForm::Index => lsp::lsp_decode(
            reader::byte_field(record, tables::BAND_0_PLACE),
            reader::byte_field(record, tables::BAND_1_PLACE),
            reader::byte_field(record, tables::BAND_2_PLACE),
            prev,
        ),
    }
}

// The Rust's decode_params, from lsp_check_or_previous on.
fn decode_received(
    samples: &mut [i16; 240],
    bounded: Bounded,
    rate: Rate,
    fields: &[u8],
    candidates: [i16; 10],
) -> Answer
    ensures answer { result ≡ acceptance (received_checked bounded.state candidates).outcome (received_state bounded.state rate fields.now candidates) }
    ensures samples { samples.new ≡ received_samples bounded.state rate fields.now candidates }
{
    let given = bounded.state;
    let prev = given.prev_lsp;
    let checked = stability::lsp_check_or_previous(candidates, prev, tables::LSP_DELTA_MIN_Q15);
    let blocks = read_blocks(fields, rate);
    let signal = received_signal(widths::frame_signal(given.exc_hist), &blocks);
    let inputs = received_inputs(&signal, given.postfilter, rate, &blocks);
    let [_, _, b2, b3] = blocks;
    let last = LastFrame {
        last_lag: b3.lag,
        last_lag2: b2.lag,
        last_taps_sum_q15: excitation::tap_sum(b3.taps),
        last_gain_unvoiced: excitation::unvoiced_gain(b2.gain_index, b3.gain_index),
        erased_run: 0,
    };
    finish_frame(samples, bounded, checked, signal, inputs, last)
}

fn refused(given: State, n: Refusal) -> Answer
    ensures { result ≡ refusal given n }
{
    Answer {
        verdict: Err(n),
        state: given,
    }
}

// The answer to a record that is not refused. Nothing is written before the last test.
fn accepted(given: State, record: &[u8], samples: &mut [i16]) -> Result<Answer, Refusal>
    ensures answer { MatchResult result (λ a. a ≡ answer_of given «record».now samples.old) (λ n. examined given «record».now samples.old ≡ Err n) }
    ensures samples { samples.new ≡ samples_of given «record».now samples.old }
{
    let Some(samples) = samples.as_mut_array::<240>() else {
        return Err(Refusal::SampleLength);
    };
    let bounded = Bounded::try_from(given)?;
    Ok(match refusals::examine(record)? {
        Frame::Erased => decode_erased(samples, bounded),
        Frame::Received(rate, form) => {
            let candidates = candidates_of(record, form, given.prev_lsp);
            decode_received(
                samples,
                bounded,
                rate,
                layout::fields(record, form),
                candidates,
            )
        }
    })
}

// The number is in the answer too; it is promised by itself for who reads numbers.
pub fn decode(given: State, record: &[u8], samples: &mut [i16]) -> Answer
    ensures answer { result ≡ answer_of given «record».now samples.old }
    ensures number { number_of result.verdict ≡ first_number given «record».now samples.old }
    ensures samples { samples.new ≡ samples_of given «record».now samples.old }
{
    match accepted(given, record, samples) {
        Ok(answer) => answer,
        Err(n) => refused(given, n),
    }
}
