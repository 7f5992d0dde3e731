// A row into a book that is known to be sound, and a register's lines as they come.
pub mod feeding;

ghost use Rattle.std.specs.Prelude.{◌≡◌, ◌≤◌, true, replicate};
ghost use Rattle.book_rules.specs.Columns.{book_lent, sound};
ghost use Rattle.book_rules.specs.Calls.{Call, Called};
ghost use Rattle.movement.specs.Limits.{max_points};
ghost use Rattle.refusal.specs.Refusal.{told};
ghost use Rattle.report_steps.specs.Intake.{taken_of, RowAnswered};
ghost use Rattle.report_steps.specs.InnerTaken.{RowTaken, LevelsTaken};

use crate::Entry;
use movement::limits::MAX_POINTS;
use refusal::Refusal;
use register::row::{Fields, read_layout};

// A row of a register into the book: 16, then *enter*, then *supply* where its levels are not blank.
pub fn take_row(
    ids: &mut [u32],
    groups: &mut [u32],
    marks: &mut [u32],
    counts: &mut [u32],
    levels: &mut [u32],
    points: usize,
    line: &[u8],
) -> Result<Entry, Refusal>
    requires { sound points (book_lent ids.old groups.old marks.old counts.old levels.old) ≡ true }
    ensures taken { RowTaken points (book_lent ids.old groups.old marks.old counts.old levels.old) line.now
        (taken_of result) (book_lent ids.new groups.new marks.new counts.new levels.new) }
    ensures answered { RowAnswered points (book_lent ids.old groups.old marks.old counts.old levels.old) line.now
        result }
{
    let row = read_layout(line, points as u32)?;
    let f = row.fields;
    match enter_row(ids, groups, marks, counts, levels, points, f) {
        Ok(()) => {}
        Err(why) => {
            return match why {
                Refusal::TooLight => Ok(Entry::Skipped),
                _ => Err(why),
            };
        }
    }
    if f.computed == 0 {
        return Ok(Entry::Added);
    }
    take_levels(
        ids, groups, marks, counts, levels, points, f.identity, row.levels,
    )
}

// Enters the movement of a row, which counts at every point.
fn enter_row(
    ids: &mut [u32],
    groups: &mut [u32],
    marks: &mut [u32],
    counts: &mut [u32],
    levels: &mut [u32],
    points: usize,
    f: Fields,
) -> Result<(), Refusal>
    requires levels_value { sound points (book_lent ids.old groups.old marks.old counts.old levels.old) ≡ true }
    requires points_le_max_points { points ≤ max_points }
    ensures { Called points (book_lent ids.old groups.old marks.old counts.old levels.old)
        (Call.enter f.identity f.ty f.kind f.time f.mass (replicate points 1)) (told result)
        (book_lent ids.new groups.new marks.new counts.new levels.new) }
{
    let everywhere = [1u32; MAX_POINTS];
    book::inner::enter(
        ids,
        groups,
        marks,
        counts,
        levels,
        points,
        f.identity,
        f.ty,
        f.kind,
        f.time,
        f.mass,
        &everywhere[..points],
    )
}

// The levels of a row that is entered.
fn take_levels(
    ids: &[u32],
    groups: &[u32],
    marks: &mut [u32],
    counts: &[u32],
    levels: &mut [u32],
    points: usize,
    identity: u32,
    given: [u32; MAX_POINTS],
) -> Result<Entry, Refusal>
    requires levels_value { sound points (book_lent ids.now groups.now marks.old counts.now levels.old) ≡ true }
    requires points_le_max_points { points ≤ max_points }
    ensures { LevelsTaken points (book_lent ids.now groups.now marks.old counts.now levels.old) identity given
        (taken_of result)
        (book_lent ids.now groups.now marks.new counts.now levels.new) }
{
    book::inner::supply(
        ids,
        groups,
        marks,
        counts,
        levels,
        points,
        identity,
        &given[..points],
    )?;
    Ok(Entry::Added)
}
