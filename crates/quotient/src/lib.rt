// The quotient of two numbers below 2^128, by digits of 32 bits.
#![tactic(auto)]

ghost use Rattle.std.specs.Prelude.{◌≡◌, ◌+◌, ◌*◌, ◌/◌, ◌^◌, ◌<◌, ◌≤◌, nat_lt};
ghost use Rattle.wide.specs.Value.{value};

use wide::Wide;

// The shift that brings the highest bit of v to the top of the word.
fn top_shift(v: u64) -> u32
    requires { 0 < v }
    ensures { (result < 64) × (2 ^ 63 ≤ v * 2 ^ result) × (v * 2 ^ result < 2 ^ 64) }
{
    v.leading_zeros()
}

// A quotient with its remainder.
#[derive(Clone, Copy, PartialEq, Eq, Debug)]
struct Division {
    quotient: u64,
    remainder: u64,
}

// Whether the estimate q of a digit is too large. An estimate of more than a digit is, so no
// product is of more than two digits.
fn too_large(q: u64, v0: u32, r: u64, l: u32) -> bool
    requires { 2 ^ 32 ≤ q → r * 2 ^ 32 + l < q * v0 }
    ensures { result ≡ nat_lt (r * 2 ^ 32 + l) (q * v0) }
{
    if q >= 0x1_0000_0000 {
        return true;
    }
    if r >= 0x1_0000_0000 {
        return false;
    }
    r * 0x1_0000_0000 + u64::from(l) < wide::half_product(q as u32, v0)
}

// One digit of a quotient in base 2^32, that of u and the next digit l by v. The top bit of v is
// set, so the estimate by the high digit of v is at most two too large.
fn digit(u: u64, l: u32, v: u64) -> Division
    requires { (2 ^ 63 ≤ v) × (u < v) }
    ensures { (result.quotient * v + result.remainder ≡ u * 2 ^ 32 + l) × (result.remainder < v) }
{
    let v1 = v / 0x1_0000_0000;
    let v0 = (v % 0x1_0000_0000) as u32;
    let mut q = u / v1;
    let mut r = u % v1;
    // No counting loop: it ends when the estimate is right, within two turns.
    while too_large(q, v0, r, l) {
        q -= 1;
        r += v1;
    }
    let p = wide::half_product(q as u32, v0);
    // The shift can lose bits of r, but the difference is below 2^64.
    Division {
        quotient: q,
        remainder: ((r << 32) + u64::from(l)).wrapping_sub(p),
    }
}

// A pair by a word whose top bit is set, where the quotient is one word.
fn two_digits(n: Wide, v: u64) -> Division
    requires { (2 ^ 63 ≤ v) × (n.hi < v) }
    ensures { (result.quotient * v + result.remainder ≡ value n) × (result.remainder < v) }
{
    let a = digit(n.hi, (n.lo / 0x1_0000_0000) as u32, v);
    let b = digit(a.remainder, (n.lo % 0x1_0000_0000) as u32, v);
    Division {
        quotient: a.quotient * 0x1_0000_0000 + b.quotient,
        remainder: b.remainder,
    }
}

// A pair by a word, where the quotient is one word.
fn by_word(n: Wide, v: u64) -> u64
    requires { n.hi < v }
    ensures { result ≡ value n / v }
{
    let s = top_shift(v);
    two_digits(wide::shift_left(n, s), v << s).quotient
}

// Three words by a pair, from the quotient of the upper two by d.hi. Where the remainder leaves
// the word the estimate is right.
fn corrected(estimate: Division, l: u64, d: Wide) -> u64
    requires { estimate.remainder < d.hi }
    ensures { result ≡ ((estimate.quotient * d.hi + estimate.remainder) * 2 ^ 64 + l) / value d }
{
    let mut q = estimate.quotient;
    let mut r = estimate.remainder;
    // No counting loop: it ends when the estimate is right, within two turns.
    while wide::less(Wide { hi: r, lo: l }, wide::product(q, d.lo)) {
        q -= 1;
        let Some(sum) = r.checked_add(d.hi) else {
            return q;
        };
        r = sum;
    }
    q
}

// A pair by a divisor of two words. Shifted as the divisor is, n has three words: top.hi, m.hi and
// m.lo.
fn by_pair(n: Wide, d: Wide) -> u64
    requires { 0 < d.hi }
    ensures { result ≡ value n / value d }
{
    let s = top_shift(d.hi);
    let v = wide::shift_left(d, s);
    let m = wide::shift_left(n, s);
    let top = wide::shift_left(Wide { hi: 0, lo: n.hi }, s);
    let upper = Wide {
        hi: top.hi,
        lo: m.hi,
    };
    corrected(two_digits(upper, v.hi), m.lo, v)
}

// The floor of a quotient; by 0, 0.
pub fn divide(n: Wide, d: Wide) -> Wide
    ensures { value result ≡ value n / value d }
{
    if d.hi != 0 {
        return Wide {
            hi: 0,
            lo: by_pair(n, d),
        };
    }
    let v = d.lo;
    if v == 0 {
        return Wide { hi: 0, lo: 0 };
    }
    if n.hi == 0 {
        return Wide {
            hi: 0,
            lo: n.lo / v,
        };
    }
    let rest = Wide {
        hi: n.hi % v,
        lo: n.lo,
    };
    Wide {
        hi: n.hi / v,
        lo: by_word(rest, v),
    }
}
