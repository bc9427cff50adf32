// The floor of the square root, under the Rust's name (basicop.rs).
#![tactic(auto)]

ghost use Rattle.std.specs.Prelude.{◌≡◌};
ghost use Rattle.isqrt.specs.Root.{root};

// By hand, as the Rust has it: std's `isqrt` was tried and proves, and takes 355 instructions where this takes 174 (numbers of 30
// bits). A frame takes 5 to 7 per cent longer with it (bench/run decode), erased ones too, which the Rust decodes faster already.
// A bit of the root in each turn, from the highest: `bit` is the square of the root's next bit, x is what the square of the
// root so far leaves of v, and r is that root times twice its next bit.
pub fn isqrt64(v: u64) -> u32
    ensures { result ≡ root v }
{
    if v == 0 {
        return 0;
    }
    let mut x = v;
    let mut r = 0;
    // The highest power of four that is at most v.
    let mut bit: u64 = 1 << (62 - v.leading_zeros() / 2 * 2);
    // No counting loop: it goes down by bits from the highest that v has, and a `for` over all 32 would take more turns.
    while bit != 0 {
        let t = r + bit;
        if t <= x {
            x -= t;
            r = r / 2 + bit;
        } else {
            r /= 2;
        }
        bit /= 4;
    }
    r as u32
}
