// Whether an erased frame is voiced, and at which lag, under the Rust's name (qdec.rs).
#![tactic(auto)]

ghost use Rattle.std.specs.Prelude.{◌≡◌, cond, ◌*◌, ◌/◌, ◌^◌, ◌≤◌, ◌<◌, ltb, leb};
ghost use Rattle.integers.specs.Base.{Within};
ghost use Rattle.tables.specs.Constants.{voicing_gate, voicing_rank_one};
ghost use Rattle.wide.specs.Value.{value};
ghost use Rattle.voicing.specs.Voicing.{candidate, leading_lag, voicing_of};
ghost use Rattle.voicing.specs.Search.{score_of, WeighsBy, Weighs};

use wide::Wide;

const HISTORY: u8 = tables::ERASURE_CLASSIFIER_HISTORY_LEN as u8;

const CANDIDATES: u8 = tables::LAG_CANDIDATES as u8;

// A lag that counts, with its rank and whether it passes the gate. No plainer as an `Option` of the lag: one that fails the gate is
// ranked all the same.
#[derive(Clone, Copy, PartialEq, Eq, Debug)]
struct Ranked {
    lag: u8,
    rank: Wide,
    gated: bool,
}

// The k-th of the seven lags around the centre.
fn candidate_lag(centre: u8, k: u8) -> u8
    requires { k < 7 }
    ensures { result ≡ candidate centre k }
{
    adaptive::limited_lag(i32::from(centre) + i32::from(k) - tables::LAG_REACH) as u8
}

// c²/(e t) in 2^30ths. A sum of less than 120 products leaves room for 2^30.
fn lag_rank(c: u64, e: u64, t: u64) -> Wide
    requires { c ≤ 2 ^ 37 }
    ensures { value result ≡ c * c * voicing_rank_one / (e * t) }
{
    quotient::divide(
        wide::square_times(c, tables::VOICING_RANK_ONE),
        wide::product(e, t),
    )
}

// Not one function with pitch's gate: each is one comparison over `wide`, of a factor, a bound and an order of its own.
fn passes_gate(c: u64, e: u64, t: u64) -> bool
    requires { c ≤ 2 ^ 37 }
    ensures { result ≡ leb (e * t) (voicing_gate * (c * c)) }
{
    !wide::less(
        wide::square_times(c, tables::VOICING_GATE),
        wide::product(e, t),
    )
}

// A lag with its sums.
fn with_sums(lag: u8, s: i64, e: u64, t: u64) -> Option<Ranked>
    requires { Within (2 ^ 37) s }
    ensures { WeighsBy s e t lag result }
{
    if s <= 0 || e == 0 || t == 0 {
        return None;
    }
    let c = s as u64;
    Some(Ranked {
        lag,
        rank: lag_rank(c, e, t),
        gated: passes_gate(c, e, t),
    })
}

fn weighed(pcm_hist: &[i16; 120], lag: u8) -> Option<Ranked>
    ensures { Weighs pcm_hist.now lag result }
{
    if lag >= HISTORY {
        return None;
    }
    let n = HISTORY - lag;
    let s = correlation::correlate(pcm_hist, usize::from(lag), pcm_hist, 0, n);
    let e = correlation::energy_from(pcm_hist, 0, n);
    let t = correlation::energy_from(pcm_hist, usize::from(lag), n);
    with_sums(lag, s, e, t)
}

// The one that ranks higher; a of equals.
fn higher(a: Option<Ranked>, b: Option<Ranked>) -> Option<Ranked>
    ensures { result ≡ cond (ltb (score_of a) (score_of b)) b a }
{
    match (a, b) {
        (Some(x), Some(y)) => if wide::less(x.rank, y.rank) { b } else { a },
        (None, _) => b,
        (_, None) => a,
    }
}

// The lag that ranks highest, the first of equals.
fn leading(pcm_hist: &[i16; 120], centre: u8) -> Option<Ranked>
    ensures { Weighs pcm_hist.now (leading_lag pcm_hist.now centre) result }
{
    let mut best = weighed(pcm_hist, candidate_lag(centre, 0));
    for k in 1..CANDIDATES {
        best = higher(best, weighed(pcm_hist, candidate_lag(centre, k)));
    }
    best
}

// The lag of a voiced frame. centre is the last frame's lag of subframe 2.
pub fn classify_erasure_voicing(pcm_hist: &[i16; 120], centre: u8) -> Option<u8>
    ensures { result ≡ voicing_of pcm_hist.now centre }
{
    let w = leading(pcm_hist, centre)?;
    w.gated.then_some(w.lag)
}
