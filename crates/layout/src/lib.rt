// Where the fields of a record stand: those after its head are a part of it, with places of their own.
#![tactic(auto)]

ghost use Rattle.std.specs.Prelude.{◌≡◌, ◌≤◌};
ghost use Rattle.layout.specs.Layout.{head_bytes, fields_of, lag_place, block_place};

use excitation::{Rate, Subframe};

// How a record gives its candidate LSPs: as ten values, or by an index of three bytes.
#[derive(Clone, Copy, Debug, PartialEq, Eq)]
pub enum LspForm {
    Values,
    Index,
}

fn head_bytes(form: LspForm) -> usize
    ensures { result ≡ head_bytes form }
{
    match form {
        LspForm::Values => tables::HEAD_VALUES_BYTES,
        LspForm::Index => tables::HEAD_INDEX_BYTES,
    }
}

// The fields after the head; a record that ends before them has none.
pub fn fields<'a>(record: &'a [u8], form: LspForm) -> &'a [u8]
    ensures { result.now ≡ fields_of form «record».now }
{
    record.get(head_bytes(form)..).unwrap_or(&[])
}

// The byte of a subframe's base lag code.
pub fn lag_place(s: Subframe) -> usize
    ensures { result ≡ lag_place s }
{
    match s {
        Subframe::Zero | Subframe::One => tables::LAG_A_PLACE,
        Subframe::Two | Subframe::Three => tables::LAG_B_PLACE,
    }
}

// The first byte of a subframe's block. The last block of a Low record begins at 397, and none further on.
pub fn block_place(rate: Rate, s: Subframe) -> usize
    ensures place { result ≡ block_place rate s }
    ensures within { result ≤ 397 }
{
    let size = match rate {
        Rate::High => tables::BLOCK_HIGH_BYTES,
        Rate::Low => tables::BLOCK_LOW_BYTES,
    };
    tables::BLOCKS_PLACE + s as usize * size
}
