// Questions to crates stability, lsp and lpc.
use crate::names;
use crate::output::Output;
use crate::spaced::Spaced;
use crate::words::Words;
use stability::Stabilised;

fn write_ten(out: &mut Output, lsps: [i16; 10]) {
    out.line(Spaced(&lsps));
}

// The code of what was done to the candidates, and the LSPs.
fn write_stabilised(out: &mut Output, s: Stabilised) {
    out.line(format_args!("{} {}", u8::from(s.outcome), Spaced(&s.lsps)));
}

// The minimum leads the LSPs.
fn stabilised(words: &mut Words) -> Stabilised {
    let minimum = words.number();
    stability::lsp_stability(words.list(), minimum)
}

fn checked(words: &mut Words) -> Stabilised {
    let minimum = words.number();
    stability::lsp_check_or_previous(words.list(), words.list(), minimum)
}

fn decoded(words: &mut Words) -> [i16; 10] {
    lsp::lsp_decode(words.number(), words.number(), words.number(), words.list())
}

fn interpolated(words: &mut Words) -> [i16; 10] {
    lsp::lsp_interpolate(words.number(), words.list(), words.list())
}

// Answers a question of these crates; whether it is one.
pub(crate) fn answer(out: &mut Output, name: u64, words: &mut Words) -> bool {
    match name {
        names::COS_Q14 => out.line(lpc::cos_q14(words.number())),
        names::LSP_STABILITY => write_stabilised(out, stabilised(words)),
        names::LSP_CHECK_OR_PREVIOUS => write_stabilised(out, checked(words)),
        names::LSP_INTERPOLATE => write_ten(out, interpolated(words)),
        names::LSP_DECODE => write_ten(out, decoded(words)),
        names::LSP_EXTRAPOLATE => write_ten(out, lsp::lsp_extrapolate(words.list())),
        names::LSP_TO_LPC_Q13 => write_ten(out, lpc::lsp_to_lpc_q13(words.list())),
        names::FRAME_LPC_Q13 => {
            let sets = lpc::frame_lpc_q13(words.list(), words.list());
            out.line(Spaced(sets.as_flattened()));
        }
        _ => return false,
    }
    true
}
