// Checksums: a polynomial in 1000003 modulo the prime 2^43 - 57, so that each number and its place count. Numbers are taken
// 2^31 higher, since some are below 0.
ghost use Rattle.std.specs.Prelude.{◌<◌};
ghost use Rattle.calls.specs.declared.checksum.TheConstants.{MODULUS};

use postfilter::Postfilter;
use state::State;
use std::fmt;

const FACTOR: u64 = 1_000_003;

const MODULUS: u64 = 8_796_093_022_151;

#[derive(Clone, Copy)]
pub(crate) struct Checksum {
    sum: u64,
    ghost reduced: { sum < MODULUS },
}

impl Checksum {
    // Of no numbers.
    pub(crate) const NONE: Checksum = Checksum { sum: 0 };

    // A raised number has at most 33 bits.
    fn with_number(self, n: i64) -> Self {
        let raised = n.wrapping_add(1 << 31).cast_unsigned() % (1 << 33);
        Checksum {
            sum: (self.sum * FACTOR + raised) % MODULUS,
        }
    }

    // The checksum with more numbers.
    pub(crate) fn with<T: Copy + Into<i64>>(self, numbers: &[T]) -> Self {
        numbers
            .iter()
            .fold(self, |sum, &n| sum.with_number(n.into()))
    }

    fn with_memory(self, pf: &Postfilter) -> Self {
        self.with(&pf.num_mem)
            .with(&pf.den_mem)
            .with(&[pf.tilt_prev, pf.tilt_k1])
            .with(&[pf.agc_gain_q12])
    }
}

impl fmt::Display for Checksum {
    fn fmt<W: fmt::Write>(&self, f: &mut fmt::Formatter<W>) -> fmt::Result {
        write!(f, "{}", self.sum)
    }
}

// Of a state's 315 numbers in their order.
pub(crate) fn of_state(s: &State) -> Checksum {
    Checksum::NONE
        .with(&s.prev_lsp)
        .with(&s.exc_hist)
        .with(&s.syn_mem)
        .with_memory(&s.pf)
        .with(&[
            s.last_lag,
            s.last_lag2,
            s.last_taps_sum_q15,
            s.last_gain_unvoiced,
        ])
        .with(&s.pcm_hist)
        .with(&[s.erased_run])
        .with(&[s.postfilter])
}
