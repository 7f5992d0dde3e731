// What refuses a call on a sound book. `at` is the place of its identity.
ghost use Rattle.std.specs.Prelude.{◌≡◌, ◌*◌, length};
ghost use Rattle.refusal.specs.Refusal.{told};
ghost use Rattle.book_rules.specs.Columns.{index_of};
ghost use Rattle.book_rules.specs.Calls.{enter_refusal, supply_refusal, take_back_refusal, withdraw_refusal};
ghost use Rattle.book_rules.specs.InnerRows.{Placed};

use crate::place::stands_at;
use movement::rules::{counts_fit, identity_fits, levels_fit, movement_refusal, zero_elsewhere};
use refusal::Refusal;

// `rows` rows stand.
pub(crate) fn enter_refusal(
    ids: &[u32],
    at: usize,
    rows: usize,
    points: usize,
    identity: u32,
    ty: u32,
    kind: u32,
    time: u32,
    mass: u32,
    given: &[u32],
) -> Result<(), Refusal>
    requires placed { Placed ids.now at identity }
    requires rows_value { rows ≡ index_of 0 ids.now }
    ensures { told result ≡ enter_refusal points ids.now identity ty kind time mass given.now }
{
    if !counts_fit(given, points) {
        return Err(Refusal::NotSound);
    }
    movement_refusal(ty, kind, time, mass)?;
    if !identity_fits(identity) {
        return Err(Refusal::WrongIdentity);
    }
    if stands_at(ids, at, identity) {
        return Err(Refusal::AlreadyStands);
    }
    if rows == ids.len() {
        return Err(Refusal::NoUnusedRow);
    }
    Ok(())
}

// A row that stands says for each point whether it counts there.
pub(crate) fn supply_refusal(
    ids: &[u32],
    counts: &[u32],
    at: usize,
    points: usize,
    identity: u32,
    given: &[u32],
) -> Result<(), Refusal>
    requires placed { Placed ids.now at identity }
    requires counts_len { length counts.now ≡ length ids.now * points }
    ensures { told result
        ≡ supply_refusal points ids.now counts.now identity given.now }
{
    if !identity_fits(identity) {
        return Err(Refusal::WrongIdentity);
    }
    if !levels_fit(given, points) {
        return Err(Refusal::WrongLevels);
    }
    if !stands_at(ids, at, identity) {
        return Err(Refusal::DoesNotStand);
    }
    let start = at * points;
    if !zero_elsewhere(&counts[start..start + points], given) {
        return Err(Refusal::LevelElsewhere);
    }
    Ok(())
}

pub(crate) fn withdraw_refusal(ids: &[u32], at: usize, identity: u32) -> Result<(), Refusal>
    requires { Placed ids.now at identity }
    ensures { told result ≡ withdraw_refusal ids.now identity }
{
    if !identity_fits(identity) {
        return Err(Refusal::WrongIdentity);
    }
    if !stands_at(ids, at, identity) {
        return Err(Refusal::DoesNotStand);
    }
    Ok(())
}

// A row that stands has a mark.
pub(crate) fn take_back_refusal(
    ids: &[u32],
    marks: &[u32],
    at: usize,
    identity: u32,
) -> Result<(), Refusal>
    requires placed { Placed ids.now at identity }
    requires marks_len { length marks.now ≡ length ids.now }
    ensures { told result ≡ take_back_refusal ids.now marks.now identity }
{
    withdraw_refusal(ids, at, identity)?;
    if marks[at] != 1 {
        return Err(Refusal::NoLevelsHeld);
    }
    Ok(())
}
