// What the run of erased frames decides: attenuation and noise, after the Rust's decode_erased (qdec.rs).
#![tactic(auto)]

ghost use Rattle.std.specs.Prelude.{◌≡◌, pos};
ghost use Rattle.noise.specs.Noise.{next_run, attenuation, attenuated, start_word, next_word_of, word_after, noise, noise_subframe};

use filters::SubframeOut;

// Erased frames in a row, with one more.
pub fn next_run(run: u32) -> u32
    ensures { result ≡ next_run run }
{
    run.saturating_add(1)
}

// In 32768ths.
fn attenuation_of(run: u32) -> i32
    ensures { result ≡ pos (attenuation run) }
{
    if tables::ERASURE_MUTE_AFTER_FRAMES < run {
        return 0;
    }
    let mut a: i32 = 32768;
    for _ in 0..run {
        a = (a * tables::ERASURE_ATTENUATION_Q15) >> 15;
    }
    a
}

pub fn attenuated_gain(gain: i16, run: u32) -> i16
    ensures { result ≡ attenuated gain run }
{
    ((i32::from(gain) * attenuation_of(run)) >> 15) as i16
}

// The noise word at the start of a frame.
pub fn noise_start(run: u32) -> u32
    ensures { result ≡ start_word run }
{
    tables::NOISE_START.wrapping_add(run.wrapping_mul(tables::NOISE_STEP))
}

fn next_word(word: u32) -> u32
    ensures { result ≡ next_word_of word }
{
    word.wrapping_mul(tables::NOISE_FACTOR)
        .wrapping_add(tables::NOISE_SUMMAND)
}

fn noise_sample(word: u32) -> i16
    ensures { result ≡ noise word }
{
    ((word / 256 % 65536) as i32 - 32768) as i16
}

// Noise, and the word after it. The Rust limits the product to 32 and then to 16 bits, which no gain of a state reaches.
pub fn noise_subframe(gain: i16, start: u32) -> SubframeOut<u32>
    ensures out_value { result.out ≡ noise_subframe gain start }
    ensures word_value { result.mem ≡ word_after start 60 }
{
    let mut word = start;
    let mut out = [0i16; 60];
    for sample in &mut out {
        word = next_word(word);
        *sample = basicop::mult(gain, noise_sample(word));
    }
    SubframeOut { out, mem: word }
}
