// The constants of document 01 and the tables of the decoder, in one place. Each number has its counterpart for definitions in
// specs/Constants.antt, but for limits that follow from others. Lengths of arrays, and shifts, stand in code as numbers.
#![tactic(auto)]

mod spec_tables;

pub use spec_tables::{
    fixed_codebook_gain, lsp_cosines, lsp_dc, mpmlq_weights, postfilter_pole, postfilter_zero,
};

// Sizes: ten LSPs, four subframes of 60 samples, excitation history, the signal of history and frame, classifier history.
pub const LPC_ORDER: usize = 10;

pub const SUBFRAMES_PER_FRAME: usize = 4;

pub const SUBFRAME_SIZE: usize = 60;

pub const FRAME_SIZE_SAMPLES: usize = 240;

pub const EXC_HIST: usize = 146;

pub const SIGNAL_SIZE: usize = EXC_HIST + FRAME_SIZE_SAMPLES;

pub const ERASURE_CLASSIFIER_HISTORY_LEN: usize = 120;

// Lags: those of the adaptive part, from G.723.1 (where its text and its C code disagree, document 01 decides), both lags
// of a fresh state, how far a search goes to either side of its centre, and how many lags that are. A base lag is its code
// and PITCH_MIN.
pub const PITCH_MIN: i32 = 18;

pub const PITCH_MAX: i32 = 142;

pub const FRESH_LAG: i32 = 60;

pub const LAG_REACH: i32 = 3;

pub const LAG_CANDIDATES: usize = 2 * LAG_REACH as usize + 1;

// LSPs: their gaps, passes of the stabiliser, the two minima (31.25 Hz and 62.5 Hz), the predictors, 12/32 for an index and 23/32
// for erased frames, the LSPs of the three bands of an index, and the weights of the interpolation.
pub const LSP_GAPS: usize = LPC_ORDER - 1;

pub const LSP_STABILITY_MAX_ITERATIONS: usize = 10;

pub const LSP_DELTA_MIN_Q15: i16 = 256;

pub const LSP_DELTA_MIN_ERASURE_Q15: i16 = 512;

pub const LSP_PREDICTOR_B_Q15: i16 = 12288;

pub const LSP_PREDICTOR_BE_Q15: i16 = 23552;

pub const LSP_BAND_0_SIZE: usize = 3;

pub const LSP_BAND_1_SIZE: usize = 3;

pub const LSP_BAND_2_SIZE: usize = 4;

pub const LSP_QUARTER_Q15: i16 = 8192;

pub const LSP_HALF_Q15: i16 = 2 * LSP_QUARTER_Q15;

pub const LSP_THREE_QUARTERS_Q15: i16 = 3 * LSP_QUARTER_Q15;

// The polynomials that coefficients are made from: 2^24ths, the factors of each, and its places.
pub const LPC_ONE_Q24: i64 = 16777216;

pub const LPC_FACTORS: usize = LPC_ORDER / 2;

pub const LPC_PLACES: usize = LPC_ORDER + 1;

// Excitation: five taps, and the samples that they read for a subframe; thirty slots, six pulses in even subframes and five in
// odd ones, and for each the first code without slots and the first sign byte with too many bits; a train needs a base lag
// below 58.
pub const ACB_TAPS: usize = 5;

pub const ACB_SPAN: usize = SUBFRAME_SIZE + ACB_TAPS - 1;

pub const MPMLQ_GRID_SLOTS: usize = 30;

pub const MPMLQ_PULSES_EVEN: usize = 6;

pub const MPMLQ_PULSES_ODD: usize = 5;

pub const MPMLQ_MAX_POSITION_SIX: u32 = 593775;

pub const MPMLQ_MAX_POSITION_FIVE: u32 = 142506;

pub const MPMLQ_SIGNS_LIMIT_SIX: u8 = 1 << MPMLQ_PULSES_EVEN;

pub const MPMLQ_SIGNS_LIMIT_FIVE: u8 = 1 << MPMLQ_PULSES_ODD;

pub const TRAIN_LAG_LIMIT: i32 = 58;

// Pitch postfilter: the weight by kind, in 32768ths, and the factor of c² at its gate.
pub const LTP_GAMMA_HIGH_Q15: i16 = 6144;

pub const LTP_GAMMA_LOW_Q15: i16 = 8192;

pub const PITCH_GATE: u64 = 4;

// Formant filter: the ten samples before a subframe, and the subframe.
pub const FORMANT_SPAN: usize = LPC_ORDER + SUBFRAME_SIZE;

// Tilt: three parts of the old value and one of the new.
pub const TILT_KEPT: i32 = 3;

// Gain control: one in 4096ths, the largest gain, and 17/16 at the end.
pub const AGC_ONE_Q12: i32 = 4096;

pub const AGC_GAIN_MAX_Q12: i32 = 1048576;

pub const AGC_BOOST: i64 = 17;

// Erasure: attenuation by frame in 32768ths, frames until mute, the factor of c² at the voicing gate, the scale by which
// candidates rank, and the noise word's start, step, factor and summand.
pub const ERASURE_ATTENUATION_Q15: i32 = 24576;

pub const ERASURE_MUTE_AFTER_FRAMES: u32 = 3;

pub const VOICING_GATE: u64 = 8;

pub const VOICING_RANK_ONE: u64 = 1073741824;

pub const NOISE_START: u32 = 0xDEAD_BEEF;

pub const NOISE_STEP: u32 = 0x9E37_79B9;

pub const NOISE_FACTOR: u32 = 1664525;

pub const NOISE_SUMMAND: u32 = 1013904223;

// The state's bounds (number 2), where no other constant gives them.
pub const LAST_LAG_MIN: i32 = 17;

pub const LAST_LAG_MAX: i32 = 147;

pub const LAST_LAG2_MAX: i32 = 145;

pub const TAPS_SUM_MAX_Q15: i32 = 32767;

pub const GAIN_UNVOICED_MAX: i32 = 13246;

// The record: its largest kind, lengths by kind, the places of the LSPs and of an index's rows, the head, which is the kind and
// the LSPs or the index, places in the fields after the head, the lengths of blocks, places in a block, largest lag and step codes,
// the step code that adds 0, largest gain index and flags.
pub const KIND_MAX: u8 = 4;

pub const RECORD_ERASED_BYTES: usize = 1;

pub const RECORD_HIGH_BYTES: usize = 89;

pub const RECORD_LOW_BYTES: usize = 549;

pub const RECORD_HIGH_INDEX_BYTES: usize = 72;

pub const RECORD_LOW_INDEX_BYTES: usize = 532;

pub const LSPS_PLACE: usize = 1;

pub const BAND_0_PLACE: usize = 1;

pub const BAND_1_PLACE: usize = 2;

pub const BAND_2_PLACE: usize = 3;

pub const HEAD_VALUES_BYTES: usize = 21;

pub const HEAD_INDEX_BYTES: usize = 4;

pub const LAG_A_PLACE: usize = 0;

pub const STEP_1_PLACE: usize = 1;

pub const LAG_B_PLACE: usize = 2;

pub const STEP_3_PLACE: usize = 3;

pub const BLOCKS_PLACE: usize = 4;

pub const BLOCK_HIGH_BYTES: usize = 16;

pub const BLOCK_LOW_BYTES: usize = 131;

pub const GAIN_INDEX_PLACE: usize = 10;

pub const FLAGS_PLACE: usize = 11;

pub const SIGNS_PLACE: usize = 12;

pub const CODE_PLACE: usize = 13;

pub const VALUES_PLACE: usize = 11;

pub const LAG_CODE_MAX: u8 = 127;

pub const STEP_CODE_MAX: u8 = 3;

pub const STEP_CODE_ZERO: u8 = 1;

pub const GAIN_INDEX_MAX: u8 = 23;

pub const FLAGS_MAX: u8 = 3;

// Program `frames`: the longest line, in characters, and how many numbers are counted, 0 for samples among them.
pub const LINE_MAX: usize = 1098;

pub const NUMBERS: usize = 12;
