// The years whose dates exist, in one place. specs/Limits.antt has them again, for the contracts: the prover refuses
// any use of one that differs from the other.
pub const MIN_YEAR: u32 = 1_900;

pub const MAX_YEAR: u32 = 9_999;
