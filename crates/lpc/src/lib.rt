// Coefficients: from LSPs to four sets of ten, under the Rust's names (qdec.rs).
#![tactic(auto)]

ghost use Rattle.std.specs.Prelude.{◌≡◌, ◌<◌, ◌^◌};
ghost use Rattle.integers.specs.Base.{entry, tabulate, up, Within, AllWithin};
ghost use Rattle.lsp.specs.Lsps.{interpolated};
ghost use Rattle.lpc.specs.Lpc.{cosine, coefficient_before, factor_term, times_factor, polynomial, rounded_sum, coefficients, frame_coefficients};

// The place of an LSP in the table, in 128ths of its steps. Negative LSPs occur: stabilising holds gaps, not places.
fn table_place(freq: i16) -> usize
    ensures { result ≡ up freq }
{
    freq.max(0) as usize
}

// The cosine of an LSP. An LSP of 16 bits is at most at entry 255, so that there is a next one.
pub fn cos_q14(freq: i16) -> i16
    ensures { result ≡ cosine freq }
{
    let table = tables::lsp_cosines();
    let place = table_place(freq);
    let idx = place / 128;
    let frac = (place % 128) as i16;
    let base = table[idx];
    let next = table[idx + 1];
    basicop::add(
        base,
        basicop::mult(basicop::sub(next, base), basicop::shl(frac, 8)),
    )
}

// The coefficient d places before i, 0 before the first.
fn earlier(p: &[i64; 11], i: usize, d: usize) -> i64
    requires { i < 11 }
    ensures { result ≡ coefficient_before (entry p.now) i d }
{
    if i < d { 0 } else { p[i - d] }
}

// A coefficient after one more factor, from x at its own place, y one before and z two before. The bound is that of all five
// factors (see `rounded_q13`).
fn term(c: i16, x: i64, y: i64, z: i64) -> i64
    requires within { Within (2 ^ 37) x }
    requires within_2 { Within (2 ^ 37) y }
    requires within_3 { Within (2 ^ 37) z }
    ensures { result ≡ factor_term c x y z }
{
    x - ((y * i64::from(c)) >> 13) + z
}

fn times_factor(p: [i64; 11], c: i16) -> [i64; 11]
    requires { AllWithin (2 ^ 37) p }
    ensures { result ≡ tabulate (times_factor (entry p) c) 11 }
{
    std::array::from_fn(|i| term(c, p[i], earlier(&p, i, 1), earlier(&p, i, 2)))
}

// The product of the five factors of every second LSP.
fn expanded(lsp: [i16; 10], first: usize) -> [i64; 11]
    requires { first < 2 }
    ensures value { result ≡ tabulate (polynomial lsp first) 11 }
    ensures bounded { AllWithin (2 ^ 37) result }
{
    let mut p = [0i64; 11];
    p[0] = tables::LPC_ONE_Q24;
    // By index: a chain of `skip` and `step_by` needs the bound of `first` as well.
    for k in 0..tables::LPC_FACTORS {
        p = times_factor(p, cos_q14(lsp[2 * k + first]));
    }
    p
}

// A coefficient from those of both polynomials at its own place, p1 and q1, and at the one before. Their bound is no plainer as a
// type's: it grows with each factor, and holds of all after the last.
fn rounded_q13(p1: i64, p0: i64, q1: i64, q0: i64) -> i16
    requires within { Within (2 ^ 37) p1 }
    requires within_2 { Within (2 ^ 37) p0 }
    requires within_3 { Within (2 ^ 37) q1 }
    requires within_4 { Within (2 ^ 37) q0 }
    ensures { result ≡ rounded_sum p1 p0 q1 q0 }
{
    let sum = p1 + p0 + q1 - q0;
    basicop::saturate(((1024 - (sum >> 1)) >> 11) as i32)
}

pub fn lsp_to_lpc_q13(lsp: [i16; 10]) -> [i16; 10]
    ensures { result ≡ coefficients lsp }
{
    let pz = expanded(lsp, 0);
    let qz = expanded(lsp, 1);
    std::array::from_fn(|j| rounded_q13(pz[j + 1], pz[j], qz[j + 1], qz[j]))
}

pub fn frame_lpc_q13(prev: [i16; 10], cur: [i16; 10]) -> [[i16; 10]; 4]
    ensures { result ≡ frame_coefficients prev cur }
{
    std::array::from_fn(
        |k|
            ensures { result ≡ coefficients (interpolated k prev cur) }
        { lsp_to_lpc_q13(lsp::lsp_interpolate(k, prev, cur)) },
    )
}
