// What a record is found to be: erased, received, or refused with one of the numbers 3 to 10.
#![tactic(auto)]

ghost use Rattle.std.specs.Prelude.{◌≡◌, ℕ, ◌<◌, ◌||◌, ltb, Bool, Ok, MatchResult};
ghost use Rattle.tables.specs.Constants.{kind_max, gain_index_max};
ghost use Rattle.excitation.specs.declared.Subframe.{Subframe};
ghost use Rattle.reader.specs.Fields.{byte};
ghost use Rattle.numbers.specs.declared.Refusal.TheVariants.{Kind};
ghost use Rattle.record.specs.Record.{gain_index_of};
ghost use Rattle.refusals.specs.Refusals.{record_bytes, any_subframe, any_high, wrong_lag_code, wrong_step_code, wrong_gain_index, wrong_flags_in, wrong_flags, wrong_signs_in, wrong_signs, found_received, found, number_found, kind_of, IsKind, record_number};

use excitation::{Rate, Subframe};
use layout::LspForm;
use numbers::Refusal;
use positions::Count;

// What a record is of that is accepted.
#[derive(Clone, Copy, PartialEq, Eq, Debug)]
pub enum Frame {
    Erased,
    Received(Rate, LspForm),
}

// By its kind, byte 0.
impl TryFrom<u8> for Frame {
    type Error = Refusal;

    ghost try_from_gives = { λ kind r. MatchResult r (λ frame. IsKind (Ok frame) kind) (λ n. (n ≡ Kind) × (kind_max < kind)) };

    fn try_from(kind: u8) -> Result<Frame, Refusal> {
        match kind {
            0 => Ok(Frame::Erased),
            1 => Ok(Frame::Received(Rate::High, LspForm::Values)),
            2 => Ok(Frame::Received(Rate::Low, LspForm::Values)),
            3 => Ok(Frame::Received(Rate::High, LspForm::Index)),
            4 => Ok(Frame::Received(Rate::Low, LspForm::Index)),
            _ => Err(Refusal::Kind),
        }
    }
}

impl Frame {
    // The length of its record.
    fn record_bytes(self) -> usize
        ensures { (kind : ℕ) → IsKind (Ok self) kind → result ≡ record_bytes kind }
    {
        match self {
            Frame::Erased => tables::RECORD_ERASED_BYTES,
            Frame::Received(Rate::High, LspForm::Values) => tables::RECORD_HIGH_BYTES,
            Frame::Received(Rate::Low, LspForm::Values) => tables::RECORD_LOW_BYTES,
            Frame::Received(Rate::High, LspForm::Index) => tables::RECORD_HIGH_INDEX_BYTES,
            Frame::Received(Rate::Low, LspForm::Index) => tables::RECORD_LOW_INDEX_BYTES,
        }
    }
}

// A byte at one of two places is above a limit.
fn either_above(fields: &[u8], i: usize, j: usize, most: u8) -> bool
    ensures { result ≡ (ltb most (byte fields.now i) || ltb most (byte fields.now j)) }
{
    reader::byte_field(fields, i) > most || reader::byte_field(fields, j) > most
}

fn lag_code_above(fields: &[u8]) -> bool
    ensures { result ≡ wrong_lag_code fields.now }
{
    either_above(
        fields,
        tables::LAG_A_PLACE,
        tables::LAG_B_PLACE,
        tables::LAG_CODE_MAX,
    )
}

fn step_code_above(fields: &[u8]) -> bool
    ensures { result ≡ wrong_step_code fields.now }
{
    either_above(
        fields,
        tables::STEP_1_PLACE,
        tables::STEP_3_PLACE,
        tables::STEP_CODE_MAX,
    )
}

// A test holds in one of the four subframes.
fn in_any<F: Fn(Subframe) -> bool>(test: F) -> bool
    requires { F.IsAlwaysCallable test }
    ensures { (t : Subframe → Bool) → ((s : Subframe) (r : Bool) → F.post test s r → r ≡ t s) → result ≡ any_subframe t }
{
    test(Subframe::Zero) || test(Subframe::One) || test(Subframe::Two) || test(Subframe::Three)
}

// The same of what High alone has.
fn in_any_high<F: Fn(Subframe) -> bool>(rate: Rate, test: F) -> bool
    requires { F.IsAlwaysCallable test }
    ensures { (t : Subframe → Bool) → ((s : Subframe) (r : Bool) → F.post test s r → r ≡ t s) → result ≡ any_high rate t }
{
    match rate {
        Rate::High => in_any(test),
        Rate::Low => false,
    }
}

// No plainer with fields, rate and subframe in a struct, as in `record`.
fn gain_above(fields: &[u8], rate: Rate, s: Subframe) -> bool
    ensures { result ≡ ltb gain_index_max (gain_index_of rate fields.now s) }
{
    let at = layout::block_place(rate, s) + tables::GAIN_INDEX_PLACE;
    reader::byte_field(fields, at) > tables::GAIN_INDEX_MAX
}

fn any_gain_above(fields: &[u8], rate: Rate) -> bool
    ensures { result ≡ wrong_gain_index rate fields.now }
{
    in_any(|s| gain_above(fields, rate, s))
}

fn flags_wrong(fields: &[u8], s: Subframe) -> bool
    ensures { result ≡ wrong_flags_in fields.now s }
{
    let at = layout::block_place(Rate::High, s) + tables::FLAGS_PLACE;
    let flags = reader::byte_field(fields, at);
    let lag = i32::from(reader::byte_field(fields, layout::lag_place(s))) + tables::PITCH_MIN;
    flags > tables::FLAGS_MAX || flags / 2 % 2 == 1 && lag >= tables::TRAIN_LAG_LIMIT
}

fn any_flags_wrong(fields: &[u8], rate: Rate) -> bool
    ensures { result ≡ wrong_flags rate fields.now }
{
    in_any_high(rate, |s| flags_wrong(fields, s))
}

fn signs_wrong(fields: &[u8], s: Subframe) -> bool
    ensures { result ≡ wrong_signs_in fields.now s }
{
    let at = layout::block_place(Rate::High, s) + tables::SIGNS_PLACE;
    let signs = reader::byte_field(fields, at);
    match record::pulse_count(s) {
        Count::Six => signs >= tables::MPMLQ_SIGNS_LIMIT_SIX,
        Count::Five => signs >= tables::MPMLQ_SIGNS_LIMIT_FIVE,
    }
}

fn any_signs_wrong(fields: &[u8], rate: Rate) -> bool
    ensures { result ≡ wrong_signs rate fields.now }
{
    in_any_high(rate, |s| signs_wrong(fields, s))
}

// Numbers 6 to 10.
#[tactic(auto, unfolding(crate::specs::Refusals::found_received))]
fn examine_received(fields: &[u8], rate: Rate, form: LspForm) -> Result<Frame, Refusal>
    ensures answer { result ≡ found_received rate form fields.now }
    ensures kind { IsKind result (kind_of rate form) }
{
    if lag_code_above(fields) {
        return Err(Refusal::LagCode);
    }
    if step_code_above(fields) {
        return Err(Refusal::StepCode);
    }
    if any_gain_above(fields, rate) {
        return Err(Refusal::GainIndex);
    }
    if any_flags_wrong(fields, rate) {
        return Err(Refusal::Flags);
    }
    if any_signs_wrong(fields, rate) {
        return Err(Refusal::Signs);
    }
    Ok(Frame::Received(rate, form))
}

// The first number that applies, or what the record is.
pub fn examine(record: &[u8]) -> Result<Frame, Refusal>
    ensures answer { result ≡ found «record».now }
    ensures number { number_found result ≡ record_number «record».now }
    ensures kind { IsKind result (byte «record».now 0) }
{
    let Some(&kind) = record.first() else {
        return Err(Refusal::NoByte);
    };
    let frame = Frame::try_from(kind)?;
    if record.len() != frame.record_bytes() {
        return Err(Refusal::Length);
    }
    match frame {
        Frame::Erased => Ok(frame),
        Frame::Received(rate, form) => {
            examine_received(layout::fields(record, form), rate, form)
        }
    }
}
