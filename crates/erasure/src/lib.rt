// The excitation of an erased frame, after the Rust's decode_erased (qdec.rs).
#![tactic(auto)]

ghost use Rattle.std.specs.Prelude.{◌≡◌, pos};
ghost use Rattle.excitation.specs.Excitation.{subframe_place, in_turn};
ghost use Rattle.adaptive.specs.Adaptive.{limited_lag};
ghost use Rattle.erasure.specs.Erasure.{replayed, noise_to, replay_to, erased_excitation};

use excitation::Subframe;

fn replayed_subframe(signal: &[i16; 386], s: Subframe, lag: u8, gain: i16) -> [i16; 60]
    ensures { result ≡ replayed signal.now (subframe_place s) (limited_lag (pos lag)) gain }
{
    let l = adaptive::limited_lag(i32::from(lag));
    let from = excitation::subframe_place(s) - l;
    let mut out = [0i16; 60];
    // By index: in a loop over a zip of `iter_mut` with `cycle` the check has no name for `out`.
    for n in 0..tables::SUBFRAME_SIZE {
        out[n] = if n < l {
            basicop::mult(signal[from + n], gain)
        } else {
            out[n - l]
        };
    }
    out
}

// The noise word goes on from subframe to subframe.
fn noise_frame(mut signal: [i16; 386], gain: i16, start: u32) -> [i16; 386]
    ensures { result ≡ in_turn (noise_to gain start) signal }
{
    let mut word = start;
    for s in Subframe::ALL {
        let noise = noise::noise_subframe(gain, word);
        // By a name of its own: the check covers no call whose result is laid over an array that a loop changes.
        let next = excitation::push_excitation(signal, s, noise.out);
        signal = next;
        word = noise.mem;
    }
    signal
}

// The signal with one subframe of replay.
fn replay_subframe(signal: [i16; 386], s: Subframe, lag: u8, gain: i16) -> [i16; 386]
    ensures { result ≡ replay_to (limited_lag (pos lag)) gain signal s }
{
    let e = replayed_subframe(&signal, s, lag, gain);
    excitation::push_excitation(signal, s, e)
}

fn replay_frame(mut signal: [i16; 386], lag: u8, gain: i16) -> [i16; 386]
    ensures { result ≡ in_turn (replay_to (limited_lag (pos lag)) gain) signal }
{
    // Not one function with the excitation of `decoder`: public, of a closure, it would ask that this can be called.
    for s in Subframe::ALL {
        let next = replay_subframe(signal, s, lag, gain);
        signal = next;
    }
    signal
}

// The signal with the excitation of a frame: voicing is the lag of a voiced one, and run counts this frame.
pub fn erased_excitation(
    signal: [i16; 386],
    voicing: Option<u8>,
    tap_sum: i16,
    gain: i16,
    run: u32,
) -> [i16; 386]
    ensures { result ≡ erased_excitation voicing tap_sum gain run signal }
{
    match voicing {
        Some(lag) => replay_frame(signal, lag, noise::attenuated_gain(tap_sum, run)),
        None => {
            noise_frame(
                signal,
                noise::attenuated_gain(gain, run),
                noise::noise_start(run),
            )
        }
    }
}
