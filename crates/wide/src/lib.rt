// Non-negative numbers below 2^128, as pairs of 64-bit words, where the Rust has i128.
#![tactic(auto)]

ghost use Rattle.std.specs.Prelude.{◌≡◌, ◌*◌, ◌%◌, ◌^◌, nat_lt};
ghost use Rattle.wide.specs.Value.{value};

// Two words and no u128, as document 01 has them ("What changes shape"): every product is made in `half_product`, of two halves of
// words.
#[derive(Clone, Copy, PartialEq, Eq, PartialOrd, Ord, Debug)]
pub struct Wide {
    pub hi: u64,
    pub lo: u64,
}

// The product of two halves of words.
pub fn half_product(a: u32, b: u32) -> u64
    ensures { result ≡ a * b }
{
    u64::from(a) * u64::from(b)
}

// The product of two words.
#[tactic(auto, using(crate::proofs::Columns::by_digits))]
pub fn product(a: u64, b: u64) -> Wide
    ensures { value result ≡ a * b }
{
    let a0 = (a % 0x1_0000_0000) as u32;
    let a1 = (a / 0x1_0000_0000) as u32;
    let b0 = (b % 0x1_0000_0000) as u32;
    let b1 = (b / 0x1_0000_0000) as u32;
    let low = half_product(a0, b0);
    let left = half_product(a1, b0) + low / 0x1_0000_0000;
    let cross = half_product(a0, b1) + left % 0x1_0000_0000;
    let high = half_product(a1, b1);
    Wide {
        hi: high + left / 0x1_0000_0000 + cross / 0x1_0000_0000,
        lo: cross % 0x1_0000_0000 * 0x1_0000_0000 + low % 0x1_0000_0000,
    }
}

// A number times a word, modulo 2^128.
pub fn times(a: Wide, b: u64) -> Wide
    ensures { value result ≡ value a * b % 2 ^ 128 }
{
    let p = product(a.lo, b);
    let q = product(a.hi, b);
    Wide {
        hi: p.hi.wrapping_add(q.lo),
        lo: p.lo,
    }
}

// The square of a word times a word, modulo 2^128.
pub fn square_times(x: u64, k: u64) -> Wide
    ensures { value result ≡ x * x * k % 2 ^ 128 }
{
    times(product(x, x), k)
}

// A number times a power of two, modulo 2^128, for every count.
pub fn shift_left(a: Wide, n: u32) -> Wide
    ensures { value result ≡ value a * 2 ^ n % 2 ^ 128 }
{
    match n {
        0 => a,
        1..64 => Wide {
            hi: (a.hi << n) + (a.lo >> (64 - n)),
            lo: a.lo << n,
        },
        64..128 => Wide {
            hi: a.lo << (n - 64),
            lo: 0,
        },
        _ => Wide { hi: 0, lo: 0 },
    }
}

pub fn less(a: Wide, b: Wide) -> bool
    ensures { result ≡ nat_lt (value a) (value b) }
{
    a < b
}
