// The bounds of RULES, "Radar tracks", in one place. crate coupling_rules has each again, for the contracts: the prover
// refuses any use of one that differs from the other.

// Movements, and tracks.
pub const MAX_FLIGHTS: usize = 50_000;

// The seconds that a track may be away from an aeroplane's movement, and from a helicopter's.
pub const AEROPLANE_WINDOW: u64 = 300;

pub const HELICOPTER_WINDOW: u64 = 600;
