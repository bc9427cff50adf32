// The fields of a record: candidate LSPs from its bytes, the others from those after its head.
#![tactic(auto)]

ghost use Rattle.std.specs.Prelude.{◌≡◌, ◌+◌, ◌*◌, ◌<◌, ◌^◌};
ghost use Rattle.excitation.specs.declared.Rate.TheVariants.{Low};
ghost use Rattle.record.specs.Record.{words, candidates, base_lag_of, step, lag, count, description, fixed, block_of};

use excitation::{Rate, Subframe};
use positions::Count;
use pulses::Description;

// What the decoder reads of a subframe.
#[derive(Clone, Copy)]
pub struct Block {
    pub base_lag: i32,
    pub lag: i32,
    pub taps: [i16; 5],
    pub gain_index: u8,
    pub fixed: [i32; 60],
}

// The values of 16 bits from a place on.
fn words_at<const N: usize>(bytes: &[u8], at: usize) -> [i16; N]
    requires { at + 2 * N < 2 ^ 64 }
    ensures { result ≡ words bytes.now at N }
{
    std::array::from_fn(|k| reader::word_field(bytes, at + 2 * k))
}

// Ten candidate LSPs.
pub fn candidate_lsps(record: &[u8]) -> [i16; 10]
    ensures { result ≡ candidates «record».now }
{
    words_at(record, tables::LSPS_PLACE)
}

// No plainer with fields, rate and subframe in a struct: what each function reads of them differs.
fn base_lag(fields: &[u8], s: Subframe) -> u16
    ensures { result ≡ base_lag_of fields.now s }
{
    u16::from(reader::byte_field(fields, layout::lag_place(s))) + tables::PITCH_MIN as u16
}

// Step codes 0, 1, 2, 3 add -1, 0, 1, 2 (the Rust's DELTA_LAG).
fn step(code: u8) -> i32
    ensures { result ≡ step code }
{
    i32::from(code) - i32::from(tables::STEP_CODE_ZERO)
}

// An even subframe has no step.
fn own_lag(fields: &[u8], s: Subframe) -> i32
    ensures { result ≡ lag fields.now s }
{
    let base = i32::from(base_lag(fields, s));
    match s {
        Subframe::Zero | Subframe::Two => base,
        Subframe::One => base + step(reader::byte_field(fields, tables::STEP_1_PLACE)),
        Subframe::Three => base + step(reader::byte_field(fields, tables::STEP_3_PLACE)),
    }
}

pub fn pulse_count(s: Subframe) -> Count
    ensures { result ≡ count s }
{
    match s {
        Subframe::Zero | Subframe::Two => Count::Six,
        Subframe::One | Subframe::Three => Count::Five,
    }
}

fn pulse_description(fields: &[u8], s: Subframe) -> Description
    ensures { result ≡ description fields.now s }
{
    let at = layout::block_place(Rate::High, s);
    let flags = reader::byte_field(fields, at + tables::FLAGS_PLACE);
    Description {
        count: pulse_count(s),
        train: flags / 2 % 2 == 1,
        base_lag: u32::from(base_lag(fields, s)),
        grid: flags % 2 == 1,
        code: reader::code_field(fields, at + tables::CODE_PLACE),
        signs: reader::byte_field(fields, at + tables::SIGNS_PLACE),
        gain_index: reader::byte_field(fields, at + tables::GAIN_INDEX_PLACE),
    }
}

// The values of a Low block.
fn fixed_values(fields: &[u8], s: Subframe) -> [i32; 60]
    ensures { result ≡ fixed Low fields.now s }
{
    let at = layout::block_place(Rate::Low, s) + tables::VALUES_PLACE;
    words_at(fields, at).map(i32::from)
}

fn fixed_vector(fields: &[u8], rate: Rate, s: Subframe) -> [i32; 60]
    ensures { result ≡ fixed rate fields.now s }
{
    match rate {
        Rate::High => pulses::mpmlq_fixed_vector(pulse_description(fields, s)),
        Rate::Low => fixed_values(fields, s),
    }
}

#[tactic(auto, unfolding(crate::specs::Record::block_of))]
pub fn read_block(fields: &[u8], rate: Rate, s: Subframe) -> Block
    ensures { result ≡ block_of rate fields.now s }
{
    let at = layout::block_place(rate, s);
    Block {
        base_lag: i32::from(base_lag(fields, s)),
        lag: own_lag(fields, s),
        taps: words_at(fields, at),
        gain_index: reader::byte_field(fields, at + tables::GAIN_INDEX_PLACE),
        fixed: fixed_vector(fields, rate, s),
    }
}
