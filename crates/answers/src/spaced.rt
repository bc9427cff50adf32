// Numbers of an answer.
use std::fmt::{self, Display};

// The numbers of a list with a space between them.
#[derive(Clone, Copy)]
pub(crate) struct Spaced<'a, T>(pub(crate) &'a [T]);

impl<T: Display> Display for Spaced<'_, T> {
    fn fmt<W: fmt::Write>(&self, f: &mut fmt::Formatter<W>) -> fmt::Result {
        if let [first, rest @ ..] = self.0 {
            write!(f, "{first}")?;
            for x in rest {
                write!(f, " {x}")?;
            }
        }
        Ok(())
    }
}
