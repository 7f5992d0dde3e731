// Why a register is refused, and what its report passed over.
use crate::row::{fields, header};
use crate::table::{Table, first_over};
use movement::limits::MAX_MASS;
use register::column::{IDENTITY, LEVELS, MASS};
use register::header::register_points;
use register::row::read_layout;
use said::note::{self, Note};
use said::odd;
use said::part::first_line;
use said::row::{Row, too_long};

// The number of points in the header and in limits.csv.
fn points_off(note: &mut Note, here: u32, there: u32) {
    note.words(b"the number of points is ");
    note.number(here as u64);
    note.words(b" in the header and ");
    note.number(there as u64);
    note.words(b" in limits.csv");
}

// A header whose last column should be number `end`.
fn header_off(note: &mut Note, row: Row, points: u32, end: usize) {
    if let Some(n) = register_points(row.line) {
        points_off(note, n, points);
    } else if row.last() == end {
        header(note, row);
    } else {
        row.count_off(note, end);
    }
}

// A line off its layout; `whole` says whether these are all of its bytes.
fn layout(note: &mut Note, number: u64, row: Row, whole: bool, points: u32) {
    let end = LEVELS - 1 + points as usize;
    if let Some(what) = odd::of_csv(row.line) {
        note.words(what);
    } else if !whole {
        too_long(note, 84);
    } else if row.line.is_empty() {
        row.empty(note, end, number == 1);
    } else if number == 1 {
        header_off(note, row, points, end);
    } else {
        fields(note, Table::Register, row, end);
    }
}

// Rule 1: of its fields a row on its layout can only have the mass out of range.
fn mass_off(line: &[u8], points: u32) -> &'static [u8] {
    let over = read_layout(line, points).is_ok_and(|row| MAX_MASS < row.fields.mass);
    if over {
        b", expected 1,000,000 or less"
    } else {
        b" where type is 'K' (small), expected less than 6,000"
    }
}

// Why a line is refused.
fn reason(note: &mut Note, number: u64, refusal: u32, row: Row, whole: bool, points: u32) {
    match refusal {
        1 => row.column_is(note, MASS, mass_off(row.line, points)),
        3 => row.column_is(note, IDENTITY, b", expected 1 to 99,999"),
        4 => row.column_is(
            note,
            IDENTITY,
            b", which an earlier row has, expected another",
        ),
        7 => row.column_is(note, first_over(row, LEVELS), b", expected 120.00 or less"),
        16 => layout(note, number, row, whole, points),
        _ => row.column_is(
            note,
            IDENTITY,
            b" and finds no room: the report's book has 2,000 rows",
        ),
    }
}

// A line of the register is refused. `whole` says whether all of its bytes are there.
pub fn refused(file: &[u8], number: u64, refusal: u32, line: &[u8], whole: bool, points: u32) {
    let row = Table::Register.row(line);
    let mut note = Note::at_line(file, number);
    reason(&mut note, number, refusal, row, whole, points);
    note.end(refusal, line);
}

// The register is refused at the first line of the `left` bytes from `at` on; `ended` says whether they are its last.
pub fn refused_in(
    file: &[u8],
    bytes: &[u8],
    at: usize,
    left: usize,
    ended: bool,
    number: u64,
    refusal: u32,
    points: u32,
) {
    let (line, whole) = first_line(bytes, at, left, ended);
    refused(file, number, refusal, line, whole, points);
}

// The register can't be read on.
pub fn unread(file: &[u8], line: u64) {
    note::unread(file, line, 16);
}

// The whole book is refused.
pub fn of_book(file: &[u8], refusal: u32) {
    let mut note = Note::of(file);
    note.words(b": ");
    note.general(refusal);
    note.end(refusal, b"");
}

// How many rows stand in a book.
fn standing(ids: &[u32]) -> usize {
    ids.iter().position(|id| *id == 0).unwrap_or(ids.len())
}

// Rows that an answered report passed over, if any: `next` is the number of the line past the last.
pub fn passed_over(file: &[u8], next: u64, ids: &[u32]) {
    let rows = standing(ids) as u64;
    let passed = next.saturating_sub(2).saturating_sub(rows);
    if passed == 0 {
        return;
    }
    let mut note = Note::of(file);
    note.words(b": rows of 150 kg or less that were passed over: ");
    note.number(passed);
    note.byte(b'\n');
    note.send();
}
