// The formant filter of one subframe (formant_agc_subframe of qdec.rs).
#![tactic(auto)]

ghost use Rattle.std.specs.Prelude.{◌≡◌, ℕ, ◌+◌, ◌-◌, ◌≤◌, ◌<◌, nat_abs, ◌+ℤ◌, ◌*ℤ◌};
ghost use Rattle.std.specs.Int.{w32};
ghost use Rattle.std.proofs.Common.{SFits};
ghost use Rattle.integers.specs.Base.{sum_to, entry, tabulate, Within, AllFit};
ghost use Rattle.tables.specs.Tables.{postfilter_zeros};
ghost use Rattle.formant.specs.Formant.{weighted, inputs, formant, formant_memory};

use filters::SubframeOut;

fn weighted_coefficients(a: [i16; 10], table: [i16; 10]) -> [i16; 10]
    ensures { result ≡ weighted a table }
{
    std::array::from_fn(|i| basicop::mult(a[i], table[i]))
}

// The inputs of a subframe and the ten before it, the oldest first.
fn input_line(y: &[i16; 60], mem: [i16; 10]) -> [i16; 70]
    ensures { result ≡ tabulate (λ m. entry (inputs y.now mem 60) (69 - m)) 70 }
{
    std::array::from_fn(|m| if m < 10 { mem[9 - m] } else { y[m - 10] })
}

fn tap(sum: i32, w: i16, x: i16) -> i32
    requires { SFits w32 (sum +ℤ w *ℤ x) }
    ensures { result ≡ sum +ℤ w *ℤ x }
{
    sum + i32::from(w) * i32::from(x)
}

// Sixty sums, each with one product more: the compiler makes several at once.
fn tapped(sums: [i32; 60], w: i16, line: &[i16; 70], k: usize) -> [i32; 60]
    requires k_bound { k ≤ 9 }
    requires all_fit { AllFit w32 (tabulate (λ n. entry sums n +ℤ w *ℤ entry line.now (n + k)) 60) }
    ensures { result ≡ tabulate (λ n. entry sums n +ℤ w *ℤ entry line.now (n + k)) 60 }
{
    let mut out = [0; 60];
    // By from_fn it is no plainer: the closure would repeat the two clauses above, since it asks that its sum fits.
    for n in 0..tables::SUBFRAME_SIZE {
        out[n] = tap(sums[n], w, line[n + k]);
    }
    out
}

// What the zeros predict for each sample. The table that weights them keeps it in 32 bits.
fn zero_sums(w: [i16; 10], line: [i16; 70]) -> [i32; 60]
    requires { (j : ℕ) → j < 10 → Within (nat_abs (entry postfilter_zeros j)) (entry w j) }
    ensures { result ≡ tabulate (λ n. sum_to (λ j. entry w j *ℤ entry line (n + (9 - j))) 10) 60 }
{
    let mut sums = [0; 60];
    for j in 0..tables::LPC_ORDER {
        // In two steps: tried in one, and the check does not cover a call whose array replaces another.
        let next = tapped(sums, w[j], &line, 9 - j);
        sums = next;
    }
    sums
}

// What the zeros take away does not wait for the output, and is summed first.
pub fn formant_subframe(
    a: [i16; 10],
    y: &[i16; 60],
    num: [i16; 10],
    den: [i16; 10],
) -> SubframeOut<[i16; 10]>
    ensures out_value { result.out ≡ formant a y.now num den }
    ensures mem_value { result.mem ≡ formant_memory a y.now num den }
{
    let z = weighted_coefficients(a, tables::postfilter_zero());
    let p = weighted_coefficients(a, tables::postfilter_pole());
    let less = zero_sums(z, input_line(y, num));
    synthesis::pole_subframe(p, y, &less, den)
}
