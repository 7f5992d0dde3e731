// The ranges of a network, RULES, "Numbers and sizes", in one place. They are those of specs/Limits.antt.
pub const LEAST_SIDE: u32 = 2;

pub const MAX_SIDE: u32 = 256;

pub const MAX_EDGES: usize = 130_560;

pub const LEAST_SPACING: u32 = 1;

pub const MAX_SPACING: u32 = 500;

pub const MAX_ORIGIN: u32 = 900_000;

pub const MAX_NETWORK_LEVEL: u32 = 150_000;

pub const LEAST_CONTOUR: u32 = 1;

pub const MAX_CONTOUR: u32 = 150_000;
