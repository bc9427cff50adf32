// LSPs: interpolated, and the candidates of an index and of erased frames, under the Rust's names (qdec.rs).
#![tactic(auto)]

ghost use Rattle.std.specs.Prelude.{◌≡◌};
ghost use Rattle.integers.specs.Base.{entry, tabulate};
ghost use Rattle.basicop32.specs.Operators32.{mult32, mac32, rounded16};
ghost use Rattle.lsp.specs.Lsps.{interpolated, predicted, decoded_lsp, decoded, extrapolated};

// A previous and a current LSP by their weights in 32768ths.
fn weighed(wp: i16, wc: i16, prev: i16, cur: i16) -> i16
    ensures { result ≡ rounded16 (mac32 (mult32 prev wp) cur wc) }
{
    basicop32::round16(basicop32::l_mac(basicop32::l_mult(prev, wp), cur, wc))
}

fn blended(wp: i16, wc: i16, prev: [i16; 10], cur: [i16; 10]) -> [i16; 10]
    ensures { result ≡ tabulate (λ i. rounded16 (mac32 (mult32 (entry prev i) wp) (entry cur i) wc)) 10 }
{
    std::array::from_fn(|i| weighed(wp, wc, prev[i], cur[i]))
}

// k is any number, as the Rust's: a type of four subframes would ask more of callers.
pub fn lsp_interpolate(k: usize, prev: [i16; 10], cur: [i16; 10]) -> [i16; 10]
    ensures { result ≡ interpolated k prev cur }
{
    match k {
        0 => blended(
            tables::LSP_THREE_QUARTERS_Q15,
            tables::LSP_QUARTER_Q15,
            prev,
            cur,
        ),
        1 => blended(tables::LSP_HALF_Q15, tables::LSP_HALF_Q15, prev, cur),
        2 => blended(
            tables::LSP_QUARTER_Q15,
            tables::LSP_THREE_QUARTERS_Q15,
            prev,
            cur,
        ),
        _ => cur,
    }
}

fn predicted_lsp(b: i16, mean: i16, prev: i16) -> i16
    ensures { result ≡ predicted b mean prev }
{
    let pred = basicop::mult(basicop::sub(prev, mean), b);
    basicop::add(mean, pred)
}

fn decoded_lsp(mean: i16, prev: i16, entry: i16) -> i16
    ensures { result ≡ decoded_lsp mean prev entry }
{
    basicop::add(
        predicted_lsp(tables::LSP_PREDICTOR_B_Q15, mean, prev),
        entry,
    )
}

// The index as its three bytes, each the row of a band; the first is the most significant of the Rust's.
pub fn lsp_decode(row0: u8, row1: u8, row2: u8, prev: [i16; 10]) -> [i16; 10]
    ensures { result ≡ decoded row0 row1 row2 prev }
{
    let dc = tables::lsp_dc();
    let rows = codebooks::lsp_codebook_rows(row0, row1, row2);
    std::array::from_fn(|i| decoded_lsp(dc[i], prev[i], rows[i]))
}

pub fn lsp_extrapolate(prev: [i16; 10]) -> [i16; 10]
    ensures { result ≡ extrapolated prev }
{
    let dc = tables::lsp_dc();
    std::array::from_fn(|i| predicted_lsp(tables::LSP_PREDICTOR_BE_Q15, dc[i], prev[i]))
}
