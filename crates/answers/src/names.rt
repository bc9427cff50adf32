// The names of questions, each as the number that all its bytes go into (`appended` of words.rt). No two have the same, and with
// a wrong one here the program would answer a question by `?`.
pub(crate) const ACB_CONTRIBUTION: u64 = 0x6D9D_E823_5E4C_91A5;

pub(crate) const ADD: u64 = 0x0062_2729;

pub(crate) const CLASSIFY_ERASURE_VOICING: u64 = 0x6415_176E_B92D_1802;

pub(crate) const COS_Q14: u64 = 0x0065_C979_4B6B_7B7A;

pub(crate) const EXCITATION_SUBFRAME: u64 = 0x3323_D023_C3B6_BEEC;

pub(crate) const EXTRACT_H: u64 = 0x46EB_4FA3_0F16_59C2;

pub(crate) const FCBK_PACK_POSITIONS: u64 = 0x029D_A2E3_D690_FEDB;

pub(crate) const FCBK_UNPK_POSITIONS: u64 = 0x62DC_ABD9_013D_6AFA;

pub(crate) const FORMANT_AGC_SUBFRAME: u64 = 0x4C9B_73E9_D5A3_6335;

pub(crate) const FRAME_LPC_Q13: u64 = 0x768C_590C_A2B5_86DD;

pub(crate) const ISQRT64: u64 = 0x006B_F1E5_F71D_EF9D;

pub(crate) const L_ADD: u64 = 0x006E_1309_F4F4;

pub(crate) const L_MAC: u64 = 0x006E_1316_09FC;

pub(crate) const L_MULT: u64 = 0x6E81_2934_378D;

pub(crate) const LSP_CHECK_OR_PREVIOUS: u64 = 0x31D4_CB7F_2704_89C8;

pub(crate) const LSP_DECODE: u64 = 0x094D_8A2D_6575_A512;

pub(crate) const LSP_EXTRAPOLATE: u64 = 0x7AB8_9D4F_10DC_AE57;

pub(crate) const LSP_INTERPOLATE: u64 = 0x24EC_F3E1_3516_8755;

pub(crate) const LSP_STABILITY: u64 = 0x08E9_2835_9077_DF83;

pub(crate) const LSP_TO_LPC_Q13: u64 = 0x6054_DC4F_DE4A_0463;

pub(crate) const MPMLQ_FIXED_VECTOR: u64 = 0x45EE_A9B0_2553_F488;

pub(crate) const MULT: u64 = 0x6EBE_9EC2;

pub(crate) const NOISE_START: u64 = 0x68F4_D412_CD04_39AB;

pub(crate) const PITCH_POSTFILTER: u64 = 0x0A2E_C78D_60A7_82C3;

pub(crate) const RECORD_LAST_FRAME: u64 = 0x4C52_CDB5_E783_21FC;

pub(crate) const ROUND16: u64 = 0x0075_245D_8F78_F08F;

pub(crate) const SAT32: u64 = 0x0075_314D_0BAD;

pub(crate) const SATURATE: u64 = 0x7692_413F_3327_1269;

pub(crate) const SHL: u64 = 0x0074_4F47;

pub(crate) const SHR: u64 = 0x0074_4F4D;

pub(crate) const SUB: u64 = 0x0074_5C4A;

pub(crate) const SYNTHESIS_SUBFRAME: u64 = 0x1BD8_D758_9019_009E;

pub(crate) const WIDE_DIVIDE: u64 = 0x05EE_5FEC_9DB8_A87D;

pub(crate) const WIDE_LESS: u64 = 0x36EC_994F_3060_E8BF;

pub(crate) const WIDE_PRODUCT: u64 = 0x6EDA_9E65_8047_9009;

pub(crate) const WIDE_SHIFT: u64 = 0x6D05_E886_B072_AC26;

pub(crate) const WIDE_TIMES: u64 = 0x6D05_E887_B57F_BA2A;
