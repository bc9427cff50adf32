// The basic operators of ITU-T G.191 on 16 bits that the decoder calls, under the Rust's names (basicop.rs).
#![tactic(auto)]

ghost use Rattle.std.specs.Prelude.{◌≡◌};
ghost use Rattle.basicop.specs.Operators.{word16, scaled, add16, sub16, mult16, shl16, shr16};

// No plainer as one function with `sat32` and `limited_sample`: each is a line of its own widths, under the Rust's name.
pub fn saturate(x: i32) -> i16
    ensures { result ≡ word16 x }
{
    x.clamp(-32768, 32767) as i16
}

pub fn add(a: i16, b: i16) -> i16
    ensures { result ≡ add16 a b }
{
    saturate(i32::from(a) + i32::from(b))
}

pub fn sub(a: i16, b: i16) -> i16
    ensures { result ≡ sub16 a b }
{
    saturate(i32::from(a) - i32::from(b))
}

pub fn mult(a: i16, b: i16) -> i16
    ensures { result ≡ mult16 a b }
{
    saturate((i32::from(a) * i32::from(b)) >> 15)
}

// The number times 2^n, limited, and for a negative n the floor of its quotient. A count beyond 15 does as 15.
fn scaled(a: i16, n: i64) -> i16
    ensures { result ≡ word16 (scaled a n) }
{
    let size = n.unsigned_abs().min(15);
    if n < 0 {
        a >> size
    } else {
        saturate(i32::from(a) * (1 << size))
    }
}

// Every count has an answer; at the least i32 the Rust overflows (docs/DIFFERENCES.md).
pub fn shl(a: i16, n: i32) -> i16
    ensures { result ≡ shl16 a n }
{
    scaled(a, i64::from(n))
}

// In 64 bits, since the least count has no negative of its type.
pub fn shr(a: i16, n: i32) -> i16
    ensures { result ≡ shr16 a n }
{
    scaled(a, -i64::from(n))
}
