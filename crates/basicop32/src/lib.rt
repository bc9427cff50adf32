// The basic operators of ITU-T G.191 on 32 bits that the decoder calls, under the Rust's names (basicop.rs; sat32 is of qdec.rs).
#![tactic(auto)]

ghost use Rattle.std.specs.Prelude.{◌≡◌};
ghost use Rattle.basicop32.specs.Operators32.{word32, add32, mult32, mac32, high16, rounded16};

// No plainer as one function with `saturate` and `limited_sample`: each is a line of its own widths, under the Rust's name.
pub fn sat32(x: i64) -> i32
    ensures { result ≡ word32 x }
{
    x.clamp(-2147483648, 2147483647) as i32
}

pub fn l_add(a: i32, b: i32) -> i32
    ensures { result ≡ add32 a b }
{
    sat32(i64::from(a) + i64::from(b))
}

pub fn l_mult(a: i16, b: i16) -> i32
    ensures { result ≡ mult32 a b }
{
    sat32(i64::from(a) * i64::from(b) * 2)
}

pub fn l_mac(acc: i32, a: i16, b: i16) -> i32
    ensures { result ≡ mac32 acc a b }
{
    l_add(acc, l_mult(a, b))
}

pub fn extract_h(a: i32) -> i16
    ensures { result ≡ high16 a }
{
    (a >> 16) as i16
}

pub fn round16(a: i32) -> i16
    ensures { result ≡ rounded16 a }
{
    extract_h(l_add(a, 32768))
}
