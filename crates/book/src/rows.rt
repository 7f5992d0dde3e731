// A row goes in or out, in all columns: of each, only the rows that stand after it move.
ghost use Rattle.std.specs.Prelude.{◌≡◌, ◌<◌, length};
ghost use Rattle.book_rules.specs.Columns.{book_lent};
ghost use Rattle.book_rules.specs.Calls.{row_in, row_out};
ghost use Rattle.book_rules.specs.InnerRows.{RowsTo};

use column::inner::{close_at, open_at, open_with};

// A row that counts where `given` says, without levels, goes in at `at`, and the rows from there on, of the `rows` that
// stand, move up by one.
pub(crate) fn row_in(
    ids: &mut [u32],
    groups: &mut [u32],
    marks: &mut [u32],
    counts: &mut [u32],
    levels: &mut [u32],
    points: usize,
    at: usize,
    rows: usize,
    identity: u32,
    group: u32,
    given: &[u32],
)
    requires rows_to { RowsTo points (book_lent ids.old groups.old marks.old counts.old levels.old) at rows }
    requires rows_in_bounds { rows < length ids.old }
    requires given_len { length given.now ≡ points }
    ensures { book_lent ids.new groups.new marks.new counts.new levels.new
        ≡ row_in points (book_lent ids.old groups.old marks.old counts.old levels.old) at identity group
        given.now }
{
    let count = rows - at;
    let start = at * points;
    let cells = count * points;
    open_at(ids, at, count, 1, identity);
    open_at(groups, at, count, 1, group);
    open_at(marks, at, count, 1, 0);
    open_with(counts, start, cells, given);
    open_at(levels, start, cells, points, 0);
}

// The row at `at` goes out, and the rows after it, of the `rows` that stand, move down by one.
pub(crate) fn row_out(
    ids: &mut [u32],
    groups: &mut [u32],
    marks: &mut [u32],
    counts: &mut [u32],
    levels: &mut [u32],
    points: usize,
    at: usize,
    rows: usize,
)
    requires rows_to { RowsTo points (book_lent ids.old groups.old marks.old counts.old levels.old) at rows }
    requires at_lt_rows { at < rows }
    ensures { book_lent ids.new groups.new marks.new counts.new levels.new
        ≡ row_out points (book_lent ids.old groups.old marks.old counts.old levels.old) at }
{
    let count = rows - at - 1;
    let start = at * points;
    let cells = count * points;
    close_at(ids, at, count, 1);
    close_at(groups, at, count, 1);
    close_at(marks, at, count, 1);
    close_at(counts, start, cells, points);
    close_at(levels, start, cells, points);
}
