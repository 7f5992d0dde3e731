// Makes the call at the front of a journal, on a book that is known to be sound.
ghost use Rattle.std.specs.Prelude.{◌≡◌, ◌+◌, ◌≤◌, true, length, slice_index};
ghost use Rattle.refusal.specs.Refusal.{told};
ghost use Rattle.book_rules.specs.Columns.{book_lent, sound};
ghost use Rattle.book_rules.specs.Calls.{Called};
ghost use Rattle.journal.specs.Journal.{enter_at, supply_at, call_at, complete};

use crate::numbers::{Kind, kind_at};
use refusal::Refusal;

fn enter_from(
    ids: &mut [u32],
    groups: &mut [u32],
    marks: &mut [u32],
    counts: &mut [u32],
    levels: &mut [u32],
    points: usize,
    rest: &[u32],
) -> Result<(), Refusal>
    requires levels_value { sound points (book_lent ids.old groups.old marks.old counts.old levels.old) ≡ true }
    requires rest_in_bounds { 7 + slice_index rest.now 6 ≤ length rest.now }
    ensures { Called points (book_lent ids.old groups.old marks.old counts.old levels.old)
        (enter_at rest.now) (told result) (book_lent ids.new groups.new marks.new counts.new levels.new) }
{
    book::inner::enter(
        ids,
        groups,
        marks,
        counts,
        levels,
        points,
        rest[1],
        rest[2],
        rest[3],
        rest[4],
        rest[5],
        &rest[7..7 + rest[6] as usize],
    )
}

fn supply_from(
    ids: &[u32],
    groups: &[u32],
    marks: &mut [u32],
    counts: &[u32],
    levels: &mut [u32],
    points: usize,
    rest: &[u32],
) -> Result<(), Refusal>
    requires levels_value { sound points (book_lent ids.now groups.now marks.old counts.now levels.old) ≡ true }
    requires rest_in_bounds { 3 + slice_index rest.now 2 ≤ length rest.now }
    ensures { Called points (book_lent ids.now groups.now marks.old counts.now levels.old)
        (supply_at rest.now) (told result) (book_lent ids.now groups.now marks.new counts.now levels.new) }
{
    book::inner::supply(
        ids,
        groups,
        marks,
        counts,
        levels,
        points,
        rest[1],
        &rest[3..3 + rest[2] as usize],
    )
}

// A complete call is of one of the four kinds.
pub(crate) fn make_call(
    ids: &mut [u32],
    groups: &mut [u32],
    marks: &mut [u32],
    counts: &mut [u32],
    levels: &mut [u32],
    points: usize,
    rest: &[u32],
) -> Result<(), Refusal>
    requires levels_value { sound points (book_lent ids.old groups.old marks.old counts.old levels.old) ≡ true }
    requires rest_value { complete rest.now ≡ true }
    ensures { Called points (book_lent ids.old groups.old marks.old counts.old levels.old) (call_at rest.now)
        (told result) (book_lent ids.new groups.new marks.new counts.new levels.new) }
{
    match kind_at(rest) {
        Some(Kind::Enter) => enter_from(ids, groups, marks, counts, levels, points, rest),
        Some(Kind::Supply) => supply_from(ids, groups, marks, counts, levels, points, rest),
        Some(Kind::TakeBack) => {
            book::inner::take_back(ids, groups, marks, counts, levels, points, rest[1])
        }
        Some(Kind::Withdraw) | None => {
            book::inner::withdraw(ids, groups, marks, counts, levels, points, rest[1])
        }
    }
}
