// Sums of products of two signals of 16 bits, over at most 255 samples.
#![tactic(auto)]

ghost use Rattle.std.specs.Prelude.{◌≡◌, ◌-◌, ◌*◌, ◌^◌, ◌≤◌, min, pos, ◌+ℤ◌, ◌-ℤ◌, ◌*ℤ◌, length};
ghost use Rattle.integers.specs.Base.{floor_div, Within};
ghost use Rattle.correlation.specs.Correlation.{correlation, energy};

// How many of n samples from a lie in a signal of that length.
fn reach(len: usize, a: usize, n: usize) -> usize
    ensures { result ≡ min n (len - a) }
{
    n.min(len.saturating_sub(a))
}

fn product(x: i16, y: i16) -> i32
    ensures { result ≡ x *ℤ y }
{
    i32::from(x) * i32::from(y)
}

// A product's floored 65536th, and what that leaves.
fn high_part(p: i32) -> i32
    ensures { result ≡ floor_div p 65536 }
{
    p >> 16
}

fn low_part(p: i32) -> i32
    ensures { result ≡ p -ℤ floor_div p 65536 *ℤ pos 65536 }
{
    p - (p >> 16) * 65536
}

fn joined(high: i32, low: i32) -> i64
    ensures { result ≡ high *ℤ pos 65536 +ℤ low }
{
    i64::from(high) * 65536 + i64::from(low)
}

// High and low parts are summed apart, each in 32 bits: the compiler makes such sums of several products at once, and sums of
// 64 bits of one product at a time.
fn sum_of_products(x: &[i16], a: usize, y: &[i16], b: usize, n: usize) -> i64
    requires { (n ≤ length x.now - a) × (n ≤ length y.now - b) × (n ≤ 255) }
    ensures value { result ≡ correlation x.now a y.now b n }
    ensures within { Within (n * 2 ^ 30) result }
{
    let mut high = 0;
    let mut low = 0;
    for i in 0..n {
        let p = product(x[a + i], y[b + i]);
        high += high_part(p);
        low += low_part(p);
    }
    joined(high, low)
}

// No plainer with parts for signals and places: past its end a signal counts as zeros, and no part begins there.
pub fn correlate(x: &[i16], a: usize, y: &[i16], b: usize, n: u8) -> i64
    ensures value { result ≡ correlation x.now a y.now b n }
    ensures within { Within (n * 2 ^ 30) result }
{
    let m = reach(x.len(), a, usize::from(n));
    let k = reach(y.len(), b, m);
    sum_of_products(x, a, y, b, k)
}

pub fn energy_from(x: &[i16], a: usize, n: u8) -> u64
    ensures result_value { pos result ≡ energy x.now a n }
    ensures upper_bound { result ≤ n * 2 ^ 30 }
{
    let m = reach(x.len(), a, usize::from(n));
    sum_of_products(x, a, x, a, m) as u64
}
