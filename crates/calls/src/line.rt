// Lines of standard input. A line is read by the lengths that it states, whatever its characters are: none is refused.

ghost use Rattle.std.specs.Prelude.{◌<◌};
ghost use Rattle.calls.specs.declared.line.TheConstants.{MAX_BYTES};

// A line has less than this many bytes.
pub(crate) const MAX_BYTES: usize = 1300;

const MAX_COUNT: u16 = MAX_BYTES as u16;

// Standard input.
const STDIN: i32 = 0;

// A line's letter, its first two fields, and its bytes: as many as the count says, and then what the text has after them,
// zeros but for the end of the line.
#[derive(Clone, Copy)]
pub(crate) struct Line {
    pub(crate) letter: u8,
    pub(crate) first: u16,
    pub(crate) second: u16,
    pub(crate) count: u16,
    pub(crate) bytes: [u8; MAX_BYTES],
    ghost fits: { count < MAX_BYTES },
}

// The value of a digit, of any character.
fn digit(character: u8) -> u8
    ensures { result < 16 }
{
    if character <= b'9' {
        character % 16
    } else {
        (character % 8 + 9) % 16
    }
}

fn byte(digits: [u8; 2]) -> u8 {
    digit(digits[0]) * 16 + digit(digits[1])
}

// The field of four digits.
fn field(digits: [u8; 4]) -> u16 {
    let [a, b, c, d] = digits;
    u16::from_be_bytes([byte([a, b]), byte([c, d])])
}

// The bytes of a text.
fn bytes_of(text: &[u8]) -> [u8; MAX_BYTES] {
    let mut bytes = [0; MAX_BYTES];
    for (b, &digits) in bytes.iter_mut().zip(text.as_chunks().0) {
        *b = byte(digits);
    }
    bytes
}

impl Line {
    // Reads the next line, whose letter is NUL where the input has ended.
    fn read() -> Self {
        let mut head = [0; 13];
        io::read_full(STDIN, &mut head);
        let [letter, a, b, c, d, e, f, g, h, i, j, k, l] = head;
        let count = field([i, j, k, l]) % MAX_COUNT;
        let mut text = [0; 2 * MAX_BYTES];
        // With the end of the line.
        io::read_full(STDIN, &mut text[..2 * usize::from(count) + 1]);
        Line {
            letter,
            first: field([a, b, c, d]),
            second: field([e, f, g, h]),
            count,
            bytes: bytes_of(&text),
        }
    }

    // None at a NUL for a letter, as at the end of the input.
    pub(crate) fn next() -> Option<Self> {
        let line = Line::read();
        (line.letter != 0).then_some(line)
    }
}
