// The ten numbers by their meaning.
#![tactic(auto)]

ghost use Rattle.std.specs.Prelude.{◌≡◌, Some};
ghost use Rattle.numbers.specs.Numbers.{number, cause};

use std::error::Error;
use std::fmt;

// The ten refusals, each with its number. The first two are not of a record.
#[derive(Clone, Copy, Debug, PartialEq, Eq)]
pub enum Refusal {
    SampleLength = 1,
    StateBounds = 2,
    NoByte = 3,
    Kind = 4,
    Length = 5,
    LagCode = 6,
    StepCode = 7,
    GainIndex = 8,
    Flags = 9,
    Signs = 10,
}

// The number that is written down.
impl From<Refusal> for u8 {
    ghost from_gives = { λ n r. r ≡ number n };

    fn from(n: Refusal) -> u8 {
        n as u8
    }
}

// What causes it, in a few words.
impl fmt::Display for Refusal {
    ghost output = { λ n. Some (cause n) };

    fn fmt<W: fmt::Write>(&self, f: &mut fmt::Formatter<W>) -> fmt::Result {
        match self {
            Refusal::SampleLength => write!(f, "the samples lent are not 240"),
            Refusal::StateBounds => write!(f, "the state is out of bounds"),
            Refusal::NoByte => write!(f, "the record has no byte"),
            Refusal::Kind => write!(f, "the record's kind is not 0 to 4"),
            Refusal::Length => write!(f, "the record's length is not its kind's"),
            Refusal::LagCode => write!(f, "a base lag code is above 127"),
            Refusal::StepCode => write!(f, "a step code is above 3"),
            Refusal::GainIndex => write!(f, "a gain index is above 23"),
            Refusal::Flags => write!(
                f,
                "a flags byte is above 3, or a train is set at a base lag of 58 or more"
            ),
            Refusal::Signs => write!(f, "a sign bit stands at or above the number of pulses"),
        }
    }
}

impl Error for Refusal {}
