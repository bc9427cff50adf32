// The words of standard input.

// A word: a number that all its bytes go into, and what it is as a decimal number. names.rt has those of the questions.
#[derive(Clone, Copy, Default)]
pub(crate) struct Word {
    name: u64,
    negative: bool,
    size: u64,
}

// The number of a name with one byte more. Every byte counts, however long the word.
fn appended(name: u64, byte: u8) -> u64 {
    (name % 0x80_0000_0000_0000) * 257 + u64::from(byte)
}

// A number with one digit more, the last four bits of a byte.
fn longer(size: u64, byte: u8) -> u64 {
    ((size % 1_844_674_407_370_955_162) * 10).wrapping_add(u64::from(byte % 16))
}

impl Word {
    // The word with one byte more.
    fn with(self, byte: u8) -> Self {
        let name = appended(self.name, byte);
        if byte == b'-' {
            Word {
                name,
                negative: true,
                ..self
            }
        } else {
            Word {
                name,
                size: longer(self.size, byte),
                ..self
            }
        }
    }
}

// What a word is as a number of a type. No word is refused.
pub(crate) trait Number {
    fn of(word: Word) -> Self;
}

// A signed type has the nearest number that fits.
impl Number for i64 {
    fn of(word: Word) -> Self {
        if word.negative {
            0i64.saturating_sub_unsigned(word.size)
        } else {
            0i64.saturating_add_unsigned(word.size)
        }
    }
}

impl Number for i32 {
    fn of(word: Word) -> Self {
        basicop32::sat32(i64::of(word))
    }
}

impl Number for i16 {
    fn of(word: Word) -> Self {
        basicop::saturate(i32::of(word))
    }
}

// An unsigned type has the number's last bits, and no sign.
impl Number for u64 {
    fn of(word: Word) -> Self {
        word.size
    }
}

impl Number for usize {
    fn of(word: Word) -> Self {
        word.size as usize
    }
}

impl Number for u32 {
    fn of(word: Word) -> Self {
        (word.size % 0x1_0000_0000) as u32
    }
}

impl Number for u8 {
    fn of(word: Word) -> Self {
        (word.size % 256) as u8
    }
}

// Standard input after the words that are read: `buf[at..len]`, and what is not read yet.
#[derive(Drop)]
pub(crate) struct Words {
    buf: [u8; 4096],
    at: usize,
    len: usize,
    ended: bool,
}

impl Words {
    pub(crate) fn new() -> Self {
        Words {
            buf: io::buffer(),
            at: 0,
            len: 0,
            ended: false,
        }
    }

    // Whether the last word went up to the end of the input.
    pub(crate) fn ended(&self) -> bool {
        self.ended
    }

    // The next byte; a newline where the input has ended. A read that fails counts as its end.
    fn byte(&mut self) -> u8 {
        if self.at >= self.len {
            self.len = io::read_full(0, &mut self.buf);
            self.at = 0;
            self.ended = self.len == 0;
        }
        match self.buf.get(self.at) {
            Some(byte) if !self.ended => {
                self.at += 1;
                *byte
            }
            _ => b'\n',
        }
    }

    // The next word, of at most 32 bytes, up to a space or the end of its line.
    fn word(&mut self) -> Word {
        let mut word = Word::default();
        for _ in 0..32u32 {
            let byte = self.byte();
            if byte <= b' ' {
                break;
            }
            word = word.with(byte);
        }
        word
    }

    // The next word as a name.
    pub(crate) fn name(&mut self) -> u64 {
        self.word().name
    }

    // The next word as a number.
    pub(crate) fn number<T: Number>(&mut self) -> T {
        T::of(self.word())
    }

    // As many numbers as the list has.
    pub(crate) fn list<T: Number + Copy + Default, const N: usize>(&mut self) -> [T; N] {
        let mut list = [T::default(); N];
        for x in list.iter_mut() {
            *x = self.number();
        }
        list
    }
}
