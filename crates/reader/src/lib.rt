// The record reader: it refers to the record's bytes and keeps a cursor, which each read leaves past what it read. What the
// other crates call are `byte_field`, `word_field` and `code_field`, which take a slice and a place and make the reader.
#![tactic(auto)]

ghost use Rattle.std.specs.Prelude.{◌≡◌};
ghost use Rattle.reader.specs.Fields.{byte, word, code};
ghost use Rattle.reader.specs.Cursor.{StandsAt, ReadOn, FieldAt};

// The record's bytes, and the place of the field that is read next: the cursor that document 01 asks for.
#[derive(Drop)]
pub struct Reader<'a> {
    pub src: &'a [u8],
    pub at: usize,
}

impl<'a> Reader<'a> {
    pub fn new(src: &'a [u8], at: usize) -> Reader<'a>
        ensures { StandsAt src.entry at result }
    {
        Reader { src, at }
    }

    // At the greatest place, where no record has a byte, the cursor stays.
    pub fn read_byte(&mut self) -> u8
        ensures { ReadOn byte 1 self.old self.new result }
    {
        let at = self.at;
        self.at = at.saturating_add(1);
        self.src.get(at).copied().unwrap_or(0)
    }

    // No plainer as one function with `read_byte`: they differ in their type and in how many bytes they take.
    pub fn read_word(&mut self) -> i16
        ensures { ReadOn word 2 self.old self.new result }
    {
        let high = self.read_byte();
        let low = self.read_byte();
        i16::from_be_bytes([high, low])
    }
}

// No plainer as one function: the three fields differ in their type and in how many reads they take.
pub fn byte_field(src: &[u8], at: usize) -> u8
    ensures { FieldAt byte src.entry at result }
{
    Reader::new(src, at).read_byte()
}

pub fn word_field(src: &[u8], at: usize) -> i16
    ensures { FieldAt word src.entry at result }
{
    Reader::new(src, at).read_word()
}

// The bytes are read one after the other.
pub fn code_field(src: &[u8], at: usize) -> u32
    ensures { FieldAt code src.entry at result }
{
    let mut reader = Reader::new(src, at);
    let high = reader.read_byte();
    let middle = reader.read_byte();
    let low = reader.read_byte();
    u32::from_be_bytes([0, high, middle, low])
}
