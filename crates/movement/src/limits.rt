// The ranges of RULES, "Numbers and sizes" and "Movements and the book", in one place. specs/Limits.antt has
// each again, for the contracts: the prover refuses any use of one that differs from the other.

// Rows of a book, and points.
pub const MAX_ROWS: usize = 50_000;

pub const MAX_POINTS: usize = 8;

pub const MAX_IDENTITY: u32 = 99_999;

// Whether a movement counts at a point: 1 yes, 0 no.
pub const MAX_COUNT: u32 = 1;

// Exposure levels and limits, in hundredths of a dB.
pub const MAX_LEVEL: u32 = 12_000;

pub const MAX_LIMIT: u32 = 12_000;

pub const MAX_DAYS: u32 = 366;

// Take-off mass, in kg: a movement of up to 150 is not entered, and a small one is under 6,000.
pub const MAX_MASS: u32 = 1_000_000;

pub const MASS_NOT_COUNTED: u32 = 150;

pub const SMALL_BELOW: u32 = 6_000;

pub const SECONDS_A_DAY: u32 = 86_400;

// 3 types, 2 kinds and 3 periods.
pub const TYPES: u32 = 3;

pub const KINDS: u32 = 2;

pub const GROUPS: usize = 18;
