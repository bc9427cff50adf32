// Answers, on standard output.
use std::fmt::{self, Display, Write};

#[derive(Drop)]
pub(crate) struct Output;

// What a write that fails leaves out is passed over, so that no write is refused.
impl Write for Output {
    fn write_str(&mut self, s: &str) -> fmt::Result {
        io::write_all(1, s.as_bytes());
        Ok(())
    }
}

impl Output {
    // Writes an answer, a line.
    pub(crate) fn line<D: Display + Drop>(&mut self, answer: D) {
        let _ = self.writeln(answer);
    }
}
