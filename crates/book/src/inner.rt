// The calls on a book that is known to be sound. Each keeps it sound (book_rules, proofs/Kept.antt), so a caller that
// makes many calls checks once.
ghost use Rattle.std.specs.Prelude.{◌≡◌, true};
ghost use Rattle.refusal.specs.Refusal.{told};
ghost use Rattle.book_rules.specs.Columns.{book_lent, sound};
ghost use Rattle.book_rules.specs.Calls.{Call, Called};

use crate::place::{place_of, standing_rows};
use crate::refusals::{enter_refusal, supply_refusal, take_back_refusal, withdraw_refusal};
use crate::rows::{row_in, row_out};
use column::inner::{copy_at, fill_at};
use movement::inner::group_of;
use refusal::Refusal;

// Enters a movement, which counts where `given` says: its row goes in at its place, not computed.
pub fn enter(
    ids: &mut [u32],
    groups: &mut [u32],
    marks: &mut [u32],
    counts: &mut [u32],
    levels: &mut [u32],
    points: usize,
    identity: u32,
    ty: u32,
    kind: u32,
    time: u32,
    mass: u32,
    given: &[u32],
) -> Result<(), Refusal>
    requires { sound points (book_lent ids.old groups.old marks.old counts.old levels.old) ≡ true }
    ensures { Called points (book_lent ids.old groups.old marks.old counts.old levels.old)
        (Call.enter identity ty kind time mass given.now) (told result)
        (book_lent ids.new groups.new marks.new counts.new levels.new) }
{
    let at = place_of(ids, identity);
    let rows = standing_rows(ids);
    enter_refusal(ids, at, rows, points, identity, ty, kind, time, mass, given)?;
    row_in(
        ids,
        groups,
        marks,
        counts,
        levels,
        points,
        at,
        rows,
        identity,
        group_of(ty, kind, time),
        given,
    );
    Ok(())
}

// Supplies all levels of a standing movement, replacing earlier ones.
pub fn supply(
    ids: &[u32],
    groups: &[u32],
    marks: &mut [u32],
    counts: &[u32],
    levels: &mut [u32],
    points: usize,
    identity: u32,
    given: &[u32],
) -> Result<(), Refusal>
    requires { sound points (book_lent ids.now groups.now marks.old counts.now levels.old) ≡ true }
    ensures { Called points (book_lent ids.now groups.now marks.old counts.now levels.old)
        (Call.supply identity given.now) (told result)
        (book_lent ids.now groups.now marks.new counts.now levels.new) }
{
    let at = place_of(ids, identity);
    supply_refusal(ids, counts, at, points, identity, given)?;
    fill_at(marks, at, 1, 1);
    copy_at(levels, at * points, given);
    Ok(())
}

// Takes the levels of a movement back: it is no longer computed.
pub fn take_back(
    ids: &[u32],
    groups: &[u32],
    marks: &mut [u32],
    counts: &[u32],
    levels: &mut [u32],
    points: usize,
    identity: u32,
) -> Result<(), Refusal>
    requires { sound points (book_lent ids.now groups.now marks.old counts.now levels.old) ≡ true }
    ensures { Called points (book_lent ids.now groups.now marks.old counts.now levels.old)
        (Call.take_back identity) (told result)
        (book_lent ids.now groups.now marks.new counts.now levels.new) }
{
    let at = place_of(ids, identity);
    take_back_refusal(ids, marks, at, identity)?;
    fill_at(marks, at, 1, 0);
    fill_at(levels, at * points, points, 0);
    Ok(())
}

// Withdraws a movement: later rows move down.
pub fn withdraw(
    ids: &mut [u32],
    groups: &mut [u32],
    marks: &mut [u32],
    counts: &mut [u32],
    levels: &mut [u32],
    points: usize,
    identity: u32,
) -> Result<(), Refusal>
    requires { sound points (book_lent ids.old groups.old marks.old counts.old levels.old) ≡ true }
    ensures { Called points (book_lent ids.old groups.old marks.old counts.old levels.old)
        (Call.withdraw identity) (told result)
        (book_lent ids.new groups.new marks.new counts.new levels.new) }
{
    let at = place_of(ids, identity);
    withdraw_refusal(ids, at, identity)?;
    let rows = standing_rows(ids);
    row_out(ids, groups, marks, counts, levels, points, at, rows);
    Ok(())
}
