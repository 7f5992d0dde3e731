// Rules 1, 2, 3, 7 and 19 of RULES, "Refusal numbers", and what is given of a movement point by point.
ghost use Rattle.std.specs.Prelude.{◌≡◌, ◌&&◌, ◌||◌, length, ◌==◌, nat_lt};
ghost use Rattle.refusal.specs.Range.{all_within};
ghost use Rattle.refusal.specs.Refusal.{told};
ghost use Rattle.movement.specs.Rules.{fields_fit, movement_refusal, identity_fits, levels_fit};
ghost use Rattle.movement.specs.Rules.{counts_fit, zero_elsewhere};

use crate::aircraft::Aircraft;
use crate::limits::{
    KINDS, MASS_NOT_COUNTED, MAX_COUNT, MAX_IDENTITY, MAX_LEVEL, MAX_MASS, SECONDS_A_DAY, TYPES,
};
use refusal::Refusal;

// Whether type, kind, time and mass are in range and go together (rule 1).
pub fn fields_fit(aircraft: u32, kind: u32, second: u32, mass: u32) -> bool
    ensures { result ≡ fields_fit aircraft kind second mass }
{
    aircraft < TYPES
        && kind < KINDS
        && second < SECONDS_A_DAY
        && mass <= MAX_MASS
        && Aircraft::numbered(aircraft).takes(mass)
}

// The rule that refuses a movement, 1 before 2.
pub fn movement_refusal(aircraft: u32, kind: u32, second: u32, mass: u32) -> Result<(), Refusal>
    ensures { told result ≡ movement_refusal aircraft kind second mass }
{
    if !fields_fit(aircraft, kind, second, mass) {
        return Err(Refusal::OutOfRange);
    }
    if mass <= MASS_NOT_COUNTED {
        return Err(Refusal::TooLight);
    }
    Ok(())
}

// Whether an identity is in range (rule 3).
pub fn identity_fits(identity: u32) -> bool
    ensures { result ≡ identity_fits identity }
{
    (1..=MAX_IDENTITY).contains(&identity)
}

// Whether there is one value for each point, none over `top`.
fn one_a_point(values: &[u32], points: usize, top: u32) -> bool
    ensures { result ≡ (length values.now == points && all_within top values.now) }
{
    values.len() == points && refusal::all_within(values, top)
}

// Whether there is one level for each point, and each is in range (rule 7).
pub fn levels_fit(levels: &[u32], points: usize) -> bool
    ensures { result ≡ levels_fit points levels.now }
{
    one_a_point(levels, points, MAX_LEVEL)
}

// Whether there is one yes or no for each point.
pub fn counts_fit(given: &[u32], points: usize) -> bool
    ensures { result ≡ counts_fit points given.now }
{
    one_a_point(given, points, MAX_COUNT)
}

// Whether a level may stand at a point: it is zero where the movement doesn't count.
fn may_hold(count: u32, level: u32) -> bool
    ensures { result ≡ (nat_lt 0 count || level == 0) }
{
    0 < count || level == 0
}

// Whether every level is zero where the movement doesn't count (rule 19).
pub fn zero_elsewhere(counts: &[u32], levels: &[u32]) -> bool
    ensures { result ≡ zero_elsewhere counts.now levels.now }
{
    counts
        .iter()
        .zip(levels)
        .all(|(count, level)| may_hold(*count, *level))
}
