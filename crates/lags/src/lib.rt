// The search for a pitch lag: among seven around one, forward and backward (the first half of the Rust's pitch_postfilter,
// qdec.rs).
#![tactic(auto)]

ghost use Rattle.std.specs.Prelude.{◌≡◌, ◌+◌, ◌*◌, ◌/◌, ◌^◌, ◌≤◌, ◌<◌, IfSome, pos, ◌*ℤ◌};
ghost use Rattle.integers.specs.Base.{entry};
ghost use Rattle.wide.specs.Value.{value};
ghost use Rattle.correlation.specs.Correlation.{energy};
ghost use Rattle.excitation.specs.Excitation.{subframe_place};
ghost use Rattle.adaptive.specs.Adaptive.{limited_lag};
ghost use Rattle.lags.specs.Lags.{window, lag_energy, best_of, chosen, chosen_lag};
ghost use Rattle.lags.specs.Search.{next, beats, Small, Leads, Inside};

use excitation::Subframe;
use wide::Wide;

// A subframe as a count of products, and its last place.
const SUBFRAME: u8 = tables::SUBFRAME_SIZE as u8;

const LAST: usize = tables::SUBFRAME_SIZE - 1;

// After the subframe, or before it.
#[derive(Clone, Copy, PartialEq, Eq, Debug)]
pub enum Direction {
    Forward,
    Backward,
}

// A lag with its correlation and its energy, both above 0. `Small` and `Inside` are no plainer as ghost fields: definitions build a
// Best of any numbers, and would have to prove them.
#[derive(Clone, Copy, PartialEq, Eq, Debug)]
pub struct Best {
    pub lag: usize,
    pub c: u64,
    pub d: u64,
}

// The direction that was chosen, with its best lag.
#[derive(Clone, Copy, PartialEq, Eq, Debug)]
pub struct Choice {
    pub to: Direction,
    pub best: Best,
}

// The place of a lag's samples; 0 where a lag backward is more than p.
pub fn window_place(to: Direction, p: u16, m: u16) -> usize
    ensures { result ≡ window to p m }
{
    match to {
        Direction::Forward => usize::from(p) + usize::from(m),
        Direction::Backward => usize::from(p.saturating_sub(m)),
    }
}

// The square of a sample; 0 past the signal's end.
fn square_at(x: &[i16], i: usize) -> u64
    ensures result_value { pos result ≡ entry x.now i *ℤ entry x.now i }
    ensures upper_bound { result ≤ 2 ^ 30 }
{
    if i < x.len() {
        let v = i32::from(x[i]);
        (v * v) as u64
    } else {
        0
    }
}

// The energy of the sixty samples one further, from that of those at q: it differs by two squares. No plainer with signal, direction
// and place in a struct: clauses would read each through it.
fn moved_energy(x: &[i16], to: Direction, q: usize, e: u64) -> u64
    requires e_value { pos e ≡ energy x.now q 60 }
    requires e_bound { e ≤ 2 ^ 37 }
    requires q_nonzero { (0 < q) × (q < 2 ^ 32) }
    ensures result_value { pos result ≡ energy x.now (next to q) 60 }
    ensures upper_bound { result ≤ e + 2 ^ 30 }
{
    match to {
        Direction::Forward => e + square_at(x, q + tables::SUBFRAME_SIZE) - square_at(x, q),
        Direction::Backward => e + square_at(x, q - 1) - square_at(x, q + LAST),
    }
}

// Whether c²/d is above that of the best so far, exactly.
fn is_better(best: Option<Best>, c: u64, d: u64) -> bool
    requires small { IfSome best Small }
    requires c_bound { (c ≤ 2 ^ 36) × (d ≤ 2 ^ 37) }
    ensures { result ≡ beats best c d }
{
    match best {
        None => true,
        Some(b) => wide::less(wide::square_times(b.c, d), wide::square_times(c, b.d)),
    }
}

// The best of k + 1 lags from lo on, from that of k. The samples of the lag lo + k stand at q and have the energy d.
// The bound of d stands beside its value: a law of energies was tried, and of a slice's items the check tells no bound here.
fn offered(
    x: &[i16],
    to: Direction,
    p: usize,
    lo: usize,
    k: usize,
    q: usize,
    d: u64,
    best: Option<Best>,
) -> Option<Best>
    requires k_bound { (lo + k < p) × (p ≤ 326) }
    requires q_value { q ≡ window to p (lo + k) }
    requires d_value { pos d ≡ lag_energy x.now to p (lo + k) }
    requires d_bound { d ≤ 2 ^ 37 }
    requires leads { Leads x.now to p lo k best }
    requires small { IfSome best Small }
    ensures leads_2 { Leads x.now to p lo (k + 1) result }
    ensures small_2 { IfSome result Small }
{
    if tables::SIGNAL_SIZE < q + tables::SUBFRAME_SIZE {
        return best;
    }
    if d == 0 {
        return best;
    }
    let s = correlation::correlate(x, p, x, q, SUBFRAME);
    if s <= 0 {
        return best;
    }
    let c = s as u64;
    if is_better(best, c, d) {
        Some(Best { lag: lo + k, c, d })
    } else {
        best
    }
}

// The best of the seven lags from lo on.
fn best_lag(x: &[i16], to: Direction, p: usize, lo: usize) -> Option<Best>
    requires { (lo + 7 ≤ p) × (p ≤ 326) }
    ensures value { result ≡ best_of x.now to p lo 7 }
    ensures small { IfSome result Small }
    ensures inside { IfSome result (Inside to p) }
{
    let mut best = None;
    let mut d = correlation::energy_from(x, window_place(to, p as u16, lo as u16), SUBFRAME);
    for k in 0..tables::LAG_CANDIDATES {
        let q = window_place(to, p as u16, (lo + k) as u16);
        best = offered(x, to, p, lo, k, q, d, best);
        d = moved_energy(x, to, q, d);
    }
    best
}

impl Best {
    // The floor of c²/d.
    fn metric(self) -> Wide
        ensures { value result ≡ self.c * self.c / self.d }
    {
        quotient::divide(wide::product(self.c, self.c), Wide { hi: 0, lo: self.d })
    }
}

#[tactic(auto, unfolding(crate::specs::Lags::chosen))]
fn chosen_direction(f: Option<Best>, b: Option<Best>) -> Option<Choice>
    ensures { result ≡ chosen f b }
{
    let (to, best) = match (f, b) {
        (None, None) => return None,
        (Some(f), None) => (Direction::Forward, f),
        (None, Some(b)) => (Direction::Backward, b),
        (Some(f), Some(b)) => if wide::less(f.metric(), b.metric()) {
            (Direction::Backward, b)
        } else {
            (Direction::Forward, f)
        },
    };
    Some(Choice { to, best })
}

// The best lag around a lag, in the better direction.
pub fn chosen_lag(signal: &[i16; 386], s: Subframe, lag: i32) -> Option<Choice>
    ensures value { result ≡ chosen_lag signal.now (subframe_place s) (limited_lag lag) }
    ensures small { IfSome result (λ k. Small k.best) }
    ensures inside { IfSome result (λ k. Inside k.to (subframe_place s) k.best) }
{
    let p = excitation::subframe_place(s);
    let lo = adaptive::limited_lag(lag) - tables::LAG_REACH as usize;
    let f = best_lag(signal, Direction::Forward, p, lo);
    let b = best_lag(signal, Direction::Backward, p, lo);
    chosen_direction(f, b)
}
