// How often each number was given, and the closing lines of these counts.
#![tactic(auto)]

ghost use Rattle.std.specs.Prelude.{◌≡◌, ◌++◌, [], cond, ltb, ◌≤◌, ◌<◌, ◌+◌, length, replicate};
ghost use Rattle.tables.specs.Constants.{numbers_counted};
ghost use Rattle.counts.specs.Counts.{tally, counted, count_line, closing};

use array_bytes::ArrayBytes;

// How many numbers are counted, in the width of a number.
const NUMBERS: u8 = tables::NUMBERS as u8;

// No number was given.
pub fn no_tallies() -> [u64; 12]
    ensures { result ≡ replicate numbers_counted 0 }
{
    [0; 12]
}

// One more of n; a number above 11 is not counted. A type of the twelve would ask more of callers.
pub fn count(mut tallies: [u64; 12], n: u8) -> [u64; 12]
    ensures { result ≡ counted tallies n }
{
    let k = usize::from(n);
    if k < tables::NUMBERS {
        tallies[k] = tallies[k].saturating_add(1);
    }
    tallies
}

// The line of n after the text, where n was seen.
fn close_number(text: &mut ArrayBytes<275>, n: u8, count: u64)
    requires room { length text.old.items ≤ 250 }
    requires two_digits { n < 100 }
    ensures items { text.new.items ≡ text.old.items ++ cond (ltb 0 count) (count_line n count) [] }
    ensures len { length text.new.items ≤ length text.old.items + 25 }
{
    if count == 0 {
        return;
    }
    // By hand: `writeln!` was tried, and promises its bytes where it succeeds; nothing says that it does where there is room.
    let mut digits = [0; 20];
    let k = io::decimal(count, &mut digits);
    let _fits = text.try_extend_from_slice(&[b'N', b'0' + n / 10, b'0' + n % 10, b' ']);
    let _fits = text.try_extend_from_slice(&digits[..k]);
    let _fits = text.try_push(b'\n');
}

// A line for each number that was seen, in ascending number.
pub fn closing_lines(tallies: [u64; 12]) -> ArrayBytes<275>
    ensures { result.items ≡ closing (tally tallies) }
{
    let mut text = ArrayBytes::new();
    for n in 1..NUMBERS {
        close_number(&mut text, n, tallies[usize::from(n)]);
    }
    text
}
