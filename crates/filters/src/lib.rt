// What the filters share: the limit of a sample, the memory that a subframe leaves, and both results of a subframe.
#![tactic(auto)]

ghost use Rattle.std.specs.Prelude.{◌≡◌};
ghost use Rattle.basicop.specs.Operators.{word16};
ghost use Rattle.filters.specs.Filters.{last_ten};

// The sixty samples of a subframe, and the memory after them.
#[derive(Clone, Copy, PartialEq, Eq, Debug)]
pub struct SubframeOut<M> {
    pub out: [i16; 60],
    pub mem: M,
}

// The last ten of a subframe, the most recent first.
pub fn last_ten(y: &[i16; 60]) -> [i16; 10]
    ensures { result ≡ last_ten y.now }
{
    std::array::from_fn(|j| y[59 - j])
}

// A number limited to 16 bits at once, with no limit to 32 before. No plainer as one function with `saturate` and `sat32`: each is a line of its own widths.
pub fn limited_sample(q: i64) -> i16
    ensures { result ≡ word16 q }
{
    q.clamp(-32768, 32767) as i16
}
