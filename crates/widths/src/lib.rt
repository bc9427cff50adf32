// Between the widths of the state and those of a frame: the excitation history and the synthesis memory have 32 bits in the
// state, as in the Rust's QSynthesis (qdec.rs), and 16 in a frame.
#![tactic(auto)]

ghost use Rattle.std.specs.Prelude.{◌≡◌};
ghost use Rattle.widths.specs.Widths.{history_after, narrowed};

// N values in 16 bits: those of `xs`, then zeros.
fn narrow<const N: usize>(xs: &[i32]) -> [i16; N]
    ensures { result ≡ narrowed xs.now N }
{
    std::array::from_fn(|i| if i < xs.len() {
        basicop::saturate(xs[i])
    } else {
        0
    })
}

// The signal of a frame before its excitation, in 16 bits.
pub fn frame_signal(exc_hist: [i32; 146]) -> [i16; 386]
    ensures { result ≡ narrowed exc_hist 386 }
{
    narrow(&exc_hist)
}

// The history after a frame.
pub fn history_after(signal: &[i16; 386]) -> [i32; 146]
    ensures { result ≡ history_after signal.now }
{
    std::array::from_fn(|i| i32::from(signal[tables::FRAME_SIZE_SAMPLES + i]))
}

// The synthesis memory in 16 bits, and back.
pub fn narrow_memory(syn_mem: [i32; 10]) -> [i16; 10]
    ensures { result ≡ narrowed syn_mem 10 }
{
    narrow(&syn_mem)
}

pub fn widen_memory(mem: [i16; 10]) -> [i32; 10]
    ensures { result ≡ mem }
{
    mem.map(i32::from)
}
