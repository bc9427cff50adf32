// Position codes, under the Rust's names (spec_tables.rs).
#![tactic(auto)]

ghost use Rattle.std.specs.Prelude.{◌≡◌, true, false, Some, MatchOption, length, ◌-◌, ◌≤◌, ◌<◌};
ghost use Rattle.tables.specs.Constants.{grid_slots};
ghost use Rattle.tables.specs.Rules.{choose};
ghost use Rattle.positions.specs.Positions.{pulses, limit, bits, positions};
ghost use Rattle.positions.specs.Packing.{follows, ascending, rank, five_or_six, packed, packing_number, packing_cause, number_of_packed, first_packing_number};

use std::error::Error;
use std::fmt;

// The pulses of a subframe: six in even ones, five in odd ones.
#[derive(Clone, Copy, PartialEq, Eq, Debug)]
pub enum Count {
    Five,
    Six,
}

impl Count {
    // The number of pulses, for the walk and for the vector.
    pub fn pulses(self) -> usize
        ensures { result ≡ pulses self }
    {
        match self {
            Count::Five => tables::MPMLQ_PULSES_ODD,
            Count::Six => tables::MPMLQ_PULSES_EVEN,
        }
    }

    // The first code without slots.
    fn limit(self) -> u32
        ensures { result ≡ limit self }
    {
        match self {
            Count::Five => tables::MPMLQ_MAX_POSITION_FIVE,
            Count::Six => tables::MPMLQ_MAX_POSITION_SIX,
        }
    }
}

// The weight of a slot with so many pulses still wanted. A row has those of one such number; the first is for six.
#[tactic(auto, using(crate::proofs::Bits::weight_is))]
fn comb_weight(slot: usize, wanted: usize) -> u32
    requires slot_bound { slot < 30 }
    requires wanted_nonzero { 0 < wanted }
    requires wanted_bound { wanted ≤ 6 }
    ensures { result ≡ choose (29 - slot) (wanted - 1) }
{
    tables::mpmlq_weights()[(tables::MPMLQ_PULSES_EVEN - wanted) * tables::MPMLQ_GRID_SLOTS + slot]
}

// The slots of a position code, a bit of one number for each; none at its limit or above.
pub fn fcbk_unpk_positions(code: u32, n: Count) -> Option<u32>
    ensures { result ≡ positions n code }
{
    if code >= n.limit() {
        return None;
    }
    let mut found = 0u32;
    let mut wanted = n.pulses();
    let mut rest = code;
    for slot in 0..tables::MPMLQ_GRID_SLOTS {
        if wanted == 0 {
            break;
        }
        let weight = comb_weight(slot, wanted);
        if rest < weight {
            found |= 1 << slot;
            wanted -= 1;
        } else {
            rest -= weight;
        }
    }
    Some(found)
}

// Why slots are not packed, each with its number (document 02, E4).
#[derive(Clone, Copy, Debug, PartialEq, Eq)]
pub enum PackingRefusal {
    WrongCount = 12,
    WrongSlot = 13,
}

// The number that is written down.
impl From<PackingRefusal> for u8 {
    ghost from_gives = { λ n r. r ≡ packing_number n };

    fn from(n: PackingRefusal) -> u8 {
        n as u8
    }
}

// What causes it, in a few words.
impl fmt::Display for PackingRefusal {
    ghost output = { λ n. Some (packing_cause n) };

    fn fmt<W: fmt::Write>(&self, f: &mut fmt::Formatter<W>) -> fmt::Result {
        match self {
            PackingRefusal::WrongCount => write!(f, "the slots are neither five nor six"),
            PackingRefusal::WrongSlot => {
                write!(f, "a slot is above 29, or not greater than the one before")
            }
        }
    }
}

impl Error for PackingRefusal {}

// Whether n is a count of pulses.
fn is_count(n: usize) -> bool
    ensures { result ≡ five_or_six n }
{
    n == tables::MPMLQ_PULSES_ODD || n == tables::MPMLQ_PULSES_EVEN
}

// Whether a slot may follow those below `least`.
fn may_follow(least: usize, slot: usize) -> bool
    ensures { result ≡ follows least slot }
{
    least <= slot && slot < tables::MPMLQ_GRID_SLOTS
}

// The bits of slots that ascend, that of slot 0 the lowest; none where one is above 29, or not greater than the one before.
fn slot_bits(slots: &[usize]) -> Option<u32>
    ensures { MatchOption result (ascending 0 slots.now ≡ false) (λ b. (ascending 0 slots.now ≡ true) × (b ≡ bits slots.now)) }
{
    let mut found = 0u32;
    let mut least = 0;
    let mut left = slots;
    while let [slot, later @ ..] = left {
        if !may_follow(least, *slot) {
            return None;
        }
        found |= 1 << *slot;
        least = *slot + 1;
        left = later;
    }
    Some(found)
}

// The code of slots by their bits. No branch hangs on whether a slot has a pulse: it would cost more than the product.
fn code_of(slots: &[usize], found: u32) -> u32
    requires counted { five_or_six (length slots.now) ≡ true }
    requires ascends { ascending 0 slots.now ≡ true }
    requires found_value { found ≡ bits slots.now }
    ensures { result ≡ rank grid_slots slots.now }
{
    let mut code = 0;
    let mut wanted = slots.len();
    let mut rest = found;
    for slot in 0..tables::MPMLQ_GRID_SLOTS {
        if rest == 0 {
            break;
        }
        let hit = rest % 2;
        code += (1 - hit) * comb_weight(slot, wanted);
        wanted -= hit as usize;
        rest /= 2;
    }
    code
}

// The code of five or six ascending slots, which reading turns back into them.
pub fn fcbk_pack_positions(slots: &[usize]) -> Result<u32, PackingRefusal>
    ensures answer { result ≡ packed slots.now }
    ensures number { number_of_packed result ≡ first_packing_number slots.now }
{
    if !is_count(slots.len()) {
        return Err(PackingRefusal::WrongCount);
    }
    let Some(found) = slot_bits(slots) else {
        return Err(PackingRefusal::WrongSlot);
    };
    Ok(code_of(slots, found))
}
