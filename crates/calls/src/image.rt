// A state from its 315 numbers of four bytes, big-endian two's complement.
use postfilter::Postfilter;
use state::State;

// A type of the numbers of a state.
trait Number {
    // The nearest number that the type has.
    fn nearest(n: i32) -> Self;
}

impl Number for i16 {
    fn nearest(n: i32) -> i16 {
        basicop::saturate(n)
    }
}

impl Number for i32 {
    fn nearest(n: i32) -> i32 {
        n
    }
}

// The numbers after those that are read.
#[derive(Drop)]
struct Numbers<'a>(&'a [u8]);

impl Numbers<'_> {
    // The next number, as bits; 0 where there is none, which no line's bytes come to.
    fn bits(&mut self) -> u32 {
        let Some((number, rest)) = self.0.split_first_chunk() else {
            return 0;
        };
        self.0 = rest;
        u32::from_be_bytes(*number)
    }

    fn number<T: Number>(&mut self) -> T {
        T::nearest(self.bits().cast_signed())
    }

    // As many numbers as the list has.
    fn list<T: Number + Copy + Default, const N: usize>(&mut self) -> [T; N] {
        let mut list = [T::default(); N];
        for x in list.iter_mut() {
            *x = self.number();
        }
        list
    }
}

fn postfilter_of(numbers: &mut Numbers<'_>) -> Postfilter {
    Postfilter {
        num_mem: numbers.list(),
        den_mem: numbers.list(),
        tilt_prev: numbers.number(),
        tilt_k1: numbers.number(),
        agc_gain_q12: numbers.number(),
    }
}

pub(crate) fn state_of(bytes: &[u8]) -> State {
    let mut numbers = Numbers(bytes);
    State {
        prev_lsp: numbers.list(),
        exc_hist: numbers.list(),
        syn_mem: numbers.list(),
        pf: postfilter_of(&mut numbers),
        last_lag: numbers.number(),
        last_lag2: numbers.number(),
        last_taps_sum_q15: numbers.number(),
        last_gain_unvoiced: numbers.number(),
        pcm_hist: numbers.list(),
        erased_run: numbers.bits(),
        postfilter: numbers.bits() == 1,
    }
}
