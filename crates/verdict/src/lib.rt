// What the decoder says of a record.
#![tactic(auto)]

ghost use Rattle.std.specs.Prelude.{◌≡◌};
ghost use Rattle.verdict.specs.Verdicts.{number_of};

use numbers::Refusal;
use stability::Outcome;

// Accepted, with what was done to the candidate LSPs of the frame, or refused.
pub type Verdict = Result<Outcome, Refusal>;

// Document 01's number; 0 where the record is accepted.
pub fn verdict_number(v: Verdict) -> u8
    ensures { result ≡ number_of v }
{
    match v {
        Ok(_) => 0,
        Err(n) => u8::from(n),
    }
}
