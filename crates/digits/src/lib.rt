// Hexadecimal text: digit pairs to bytes, and samples to digits.
#![tactic(auto)]

ghost use Rattle.std.specs.Prelude.{◌≡◌, ◌&&◌, ltb, ◌+◌, ◌*◌, ◌%◌, ◌<◌};
ghost use Rattle.integers.specs.Base.{entry, tabulate};
ghost use Rattle.digits.specs.Digits.{digit_code, pairs_of, glyph as glyphOf, sample_digits, sample_line};

use array_bytes::ArrayBytes;
use std::array::from_fn;

// The value of each character as a digit, 16 where it is none.
static DIGIT_CODES: [u8; 256] = [
    16, 16, 16, 16, 16, 16, 16, 16, 16, 16, 16, 16, 16, 16, 16, 16, 16, 16, 16, 16, 16, 16, 16, 16,
    16, 16, 16, 16, 16, 16, 16, 16, 16, 16, 16, 16, 16, 16, 16, 16, 16, 16, 16, 16, 16, 16, 16, 16,
    0, 1, 2, 3, 4, 5, 6, 7, 8, 9, 16, 16, 16, 16, 16, 16, 16, 10, 11, 12, 13, 14, 15, 16, 16, 16,
    16, 16, 16, 16, 16, 16, 16, 16, 16, 16, 16, 16, 16, 16, 16, 16, 16, 16, 16, 16, 16, 16, 16, 10,
    11, 12, 13, 14, 15, 16, 16, 16, 16, 16, 16, 16, 16, 16, 16, 16, 16, 16, 16, 16, 16, 16, 16, 16,
    16, 16, 16, 16, 16, 16, 16, 16, 16, 16, 16, 16, 16, 16, 16, 16, 16, 16, 16, 16, 16, 16, 16, 16,
    16, 16, 16, 16, 16, 16, 16, 16, 16, 16, 16, 16, 16, 16, 16, 16, 16, 16, 16, 16, 16, 16, 16, 16,
    16, 16, 16, 16, 16, 16, 16, 16, 16, 16, 16, 16, 16, 16, 16, 16, 16, 16, 16, 16, 16, 16, 16, 16,
    16, 16, 16, 16, 16, 16, 16, 16, 16, 16, 16, 16, 16, 16, 16, 16, 16, 16, 16, 16, 16, 16, 16, 16,
    16, 16, 16, 16, 16, 16, 16, 16, 16, 16, 16, 16, 16, 16, 16, 16, 16, 16, 16, 16, 16, 16, 16, 16,
    16, 16, 16, 16, 16, 16, 16, 16, 16, 16, 16, 16, 16, 16,
];

// Lent: a line reads a thousand of them.
#[tactic(auto, unfolding(integers::specs::Base::tabulate, crate::specs::Digits::is_digit, crate::specs::Digits::digit_value))]
fn digit_codes() -> &'static [u8; 256]
    ensures { result.now ≡ tabulate digit_code 256 }
{
    &DIGIT_CODES
}

// By a table and with no branch: with std's `to_digit` a refused line of 1,098 digits took 1.4 times the instructions.
fn digit_code(b: u8) -> u8
    ensures { result ≡ digit_code b }
{
    digit_codes()[usize::from(b)]
}

// The byte of two digits by their codes.
fn pair_value(a: u8, b: u8) -> u8
    ensures { result ≡ 16 * (a % 16) + b % 16 }
{
    16 * (a % 16) + b % 16
}

// Two characters more are digits too, by their codes.
fn still_digits(so_far: bool, a: u8, b: u8) -> bool
    ensures { result ≡ ((so_far && ltb a 16) && ltb b 16) }
{
    so_far & (a < 16) & (b < 16)
}

// The bytes of a text of digit pairs, or those of a text that is none, where other characters count as 0; none of a text that
// is longer than a line.
pub fn digit_pairs(text: &[u8]) -> Result<ArrayBytes<549>, ArrayBytes<549>>
    ensures { result ≡ pairs_of text.now }
{
    let mut bytes = ArrayBytes::new();
    if text.len() > tables::LINE_MAX {
        return Err(bytes);
    }
    let count = text.len() / 2;
    let mut are_pairs = text.len() % 2 == 0;
    // By place: with a push at each pair the loop takes a quarter more instructions.
    let mut read = [0; 549];
    for i in 0..count {
        let high = digit_code(text[2 * i]);
        let low = digit_code(text[2 * i + 1]);
        are_pairs = still_digits(are_pairs, high, low);
        read[i] = pair_value(high, low);
    }
    let _fits = bytes.try_extend_from_slice(&read[..count]);
    if are_pairs { Ok(bytes) } else { Err(bytes) }
}

// The last digit of n.
fn glyph(n: u16) -> u8
    ensures { result ≡ glyphOf (n % 16) }
{
    let d = (n % 16) as u8;
    if d < 10 { b'0' + d } else { b'A' - 10 + d }
}

// The digits of a sample, sixteen bits in two's complement.
#[tactic(auto, unfolding(crate::specs::Digits::sample_digits))]
fn sample_digits(x: i16) -> [u8; 4]
    ensures { result ≡ sample_digits x }
{
    let n = x.cast_unsigned();
    [glyph(n / 4096), glyph(n / 256), glyph(n / 16), glyph(n)]
}

// The digits of each sample. The closure has clauses, since what is read off its body leaves out the array that it returns.
fn frame_digits(samples: [i16; 240]) -> [[u8; 4]; 240]
    ensures { result ≡ tabulate (λ i. sample_digits (entry samples i)) 240 }
{
    from_fn(
        |i|
            requires { i < 240 }
            ensures { result ≡ sample_digits (entry samples i) }
        { sample_digits(samples[i]) },
    )
}

// A frame as a line of text, with its newline.
pub fn sample_line(samples: [i16; 240]) -> [u8; 961]
    ensures { result ≡ sample_line samples }
{
    let mut line = [b'\n'; 961];
    line[..960].copy_from_slice(frame_digits(samples).as_flattened());
    line
}
