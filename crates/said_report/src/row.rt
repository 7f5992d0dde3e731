// What is wrong with a line of a register or of limits.csv whose bytes are not odd as a whole.
use crate::table::{MAX_LOOKED, Table, is_cut};
use register::column::{IDENTITY, KIND, MASS, TIME, TYPE};
use said::note::Note;
use said::row::Row;
use said::{clock, field};

// A level that a decimal comma cuts in two, column k and the next.
fn cut(note: &mut Note, row: Row, k: usize, next: usize) {
    note.words(row.name(k));
    note.words(b" is '");
    note.shown(row.field(k));
    note.byte(b',');
    note.shown(row.field(next));
    note.words(b"', with a decimal comma, expected a point, as 56.00");
}

// A register's field behind its name.
fn row_field(note: &mut Note, k: usize, t: &[u8]) {
    match k {
        IDENTITY | MASS => field::whole(note, t),
        TYPE => {
            field::found(note, t);
            note.words(b", expected G (large), K (small) or H (helicopter)");
        }
        KIND => field::kind(note, t),
        TIME => clock::off(note, t),
        _ => field::level(note, t),
    }
}

// A field of either.
fn field_off(note: &mut Note, table: Table, k: usize, t: &[u8]) {
    match (table, k) {
        (Table::Register, _) => row_field(note, k, t),
        (Table::LimitsFile, 0) => field::whole(note, t),
        (Table::LimitsFile, _) => field::level(note, t),
    }
}

// A header whose columns are not those that they should be.
pub(crate) fn header(note: &mut Note, row: Row) {
    let k = (0..MAX_LOOKED).find(|k| !row.is_named(*k));
    row.misnamed(note, k.unwrap_or(MAX_LOOKED));
}

// A row whose last column should be number `end`.
pub(crate) fn fields(note: &mut Note, table: Table, row: Row, end: usize) {
    if row.last() != end {
        cut_or_count(note, table, row, end);
        return;
    }
    let k = (0..MAX_LOOKED)
        .find(|k| !table.fits(row.field(*k), *k))
        .unwrap_or(MAX_LOOKED);
    if k <= end {
        note.words(row.name(k));
        field_off(note, table, k, row.field(k));
    } else {
        blank(note, table, row);
    }
}

// A level that is blank where another isn't.
fn blank(note: &mut Note, table: Table, row: Row) {
    let k = (table.levels_from()..MAX_LOOKED).find(|k| row.field(*k).is_empty());
    row.column_is(
        note,
        k.unwrap_or(MAX_LOOKED),
        b" where another level isn't, expected a level for each point, or none",
    );
}

// A wrong number of columns, which a decimal comma makes too.
fn cut_or_count(note: &mut Note, table: Table, row: Row, end: usize) {
    let k = (table.levels_from()..MAX_LOOKED)
        .find(|k| is_cut(row, *k))
        .unwrap_or(MAX_LOOKED);
    if k < row.last() {
        cut(note, row, k, k + 1);
    } else {
        row.count_off(note, end);
    }
}
