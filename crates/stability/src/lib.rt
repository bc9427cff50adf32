// LSPs: candidates stabilised, or else the previous ones kept, under the Rust's names (qdec.rs).
#![tactic(auto)]

ghost use Rattle.std.specs.Prelude.{◌≡◌, cond, if◌then◌else◌, eqb, ◌<◌, ◌+ℤ◌, ◌-ℤ◌};
ghost use Rattle.std.specs.Int.Signed.{lt_z};
ghost use Rattle.integers.specs.Base.{floor_div};
ghost use Rattle.stability.specs.Stability.{spread, pass, pass_moves, any_short, stabilised, check_or_previous, outcome_code};
ghost use Rattle.stability.specs.declared.Outcome.TheVariants.{Untouched, Moved};

// What stabilising says of the candidates: no pair was moved; some were, and the gaps are then met; or the previous LSPs are
// used.
#[derive(Clone, Copy, PartialEq, Eq, Debug)]
pub enum Outcome {
    Untouched,
    Moved,
    Previous,
}

// The codes by which outcomes are written down (docs/FORMAT.md).
impl From<Outcome> for u8 {
    ghost from_gives = { λ o n. n ≡ outcome_code o };

    fn from(outcome: Outcome) -> u8 {
        outcome as u8
    }
}

// LSPs, and what was done to get them.
#[derive(Clone, Copy, PartialEq, Eq, Debug)]
pub struct Stabilised {
    pub lsps: [i16; 10],
    pub outcome: Outcome,
}

fn is_short(a: i16, b: i16, minimum: i16) -> bool
    ensures { result ≡ lt_z (b -ℤ a) minimum }
{
    i32::from(b) - i32::from(a) < i32::from(minimum)
}

fn midpoint(a: i16, b: i16) -> i16
    ensures { result ≡ floor_div (a +ℤ b) 2 }
{
    ((i32::from(a) + i32::from(b)) >> 1) as i16
}

fn moved_pair(mut p: [i16; 10], j: usize, minimum: i16) -> [i16; 10]
    requires { j < 9 }
    ensures { result ≡ spread minimum p j }
{
    let avg = midpoint(p[j], p[j + 1]);
    let half = minimum / 2;
    p[j] = basicop::sub(avg, half);
    p[j + 1] = basicop::add(avg, half);
    p
}

// The LSPs after a pass that moved some, and None where it moved none.
fn one_pass(p: [i16; 10], minimum: i16) -> Option<[i16; 10]>
    ensures { result ≡ (if pass_moves minimum p then Some (pass minimum p) else None) }
{
    let mut lsps = p;
    let mut moved = false;
    for j in 0..tables::LSP_GAPS {
        if is_short(lsps[j], lsps[j + 1], minimum) {
            lsps = moved_pair(lsps, j, minimum);
            moved = true;
        }
    }
    moved.then_some(lsps)
}

fn any_short(p: [i16; 10], minimum: i16) -> bool
    ensures { result ≡ any_short minimum p }
{
    (0..tables::LSP_GAPS).any(|j| is_short(p[j], p[j + 1], minimum))
}

// What a pass without moves says of the candidates, after n passes with moves.
fn outcome_after(n: usize) -> Outcome
    ensures { result ≡ cond (eqb n 0) Untouched Moved }
{
    if n == 0 {
        Outcome::Untouched
    } else {
        Outcome::Moved
    }
}

// With a short gap left after the last pass, the LSPs are what the passes made of them.
pub fn lsp_stability(p: [i16; 10], minimum: i16) -> Stabilised
    ensures { result ≡ stabilised minimum p }
{
    let mut lsps = p;
    for n in 0..tables::LSP_STABILITY_MAX_ITERATIONS {
        let Some(moved) = one_pass(lsps, minimum) else {
            return Stabilised {
                lsps,
                outcome: outcome_after(n),
            };
        };
        lsps = moved;
    }
    if any_short(lsps, minimum) {
        return Stabilised {
            lsps,
            outcome: Outcome::Previous,
        };
    }
    Stabilised {
        lsps,
        outcome: Outcome::Moved,
    }
}

pub fn lsp_check_or_previous(cand: [i16; 10], prev: [i16; 10], minimum: i16) -> Stabilised
    ensures { result ≡ check_or_previous minimum cand prev }
{
    let s = lsp_stability(cand, minimum);
    match s.outcome {
        Outcome::Untouched | Outcome::Moved => s,
        Outcome::Previous => Stabilised { lsps: prev, ..s },
    }
}
