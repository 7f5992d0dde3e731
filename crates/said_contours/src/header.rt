// The header of a network: its keys, its numbers, and what is wrong with one of its lines.
use network::limits::{LEAST_SIDE, LEAST_SPACING, MAX_ORIGIN, MAX_SIDE, MAX_SPACING};
use said::field;
use said::note::Note;
use said::part::{column, last, line};

// The lines that a network has to begin with, and the one that may follow.
const HEADER_LINES: u64 = 5;

pub(crate) const NO_DATA_LINE: u64 = 6;

// The key of line k, counted from 1.
pub(crate) fn key(k: u64) -> &'static [u8] {
    match k {
        1 => b"ncols",
        2 => b"nrows",
        3 => b"xllcenter",
        4 => b"yllcenter",
        5 => b"cellsize",
        _ => b"NODATA_value",
    }
}

// The number of line k, 0 where there is none.
pub(crate) fn number_of(text: &[u8], k: u64) -> u32 {
    text::number::whole(column(line(text, k), 1, b' ')).unwrap_or(0)
}

// A line with the wrong key.
fn key_off(note: &mut Note, k: u64, row: &[u8]) {
    note.words(b"the key");
    field::found(note, column(row, 0, b' '));
    note.words(b", expected ");
    note.words(key(k));
}

// A number behind its key.
fn number_off(note: &mut Note, k: u64, row: &[u8]) {
    let spelled = column(row, 1, b' ');
    note.words(key(k));
    if k == NO_DATA_LINE {
        field::found(note, spelled);
        note.words(b", expected a whole number or a level, with a minus or without");
    } else {
        field::whole(note, spelled);
    }
}

// What is wrong with header line k.
pub(crate) fn line_off(note: &mut Note, k: u64, row: &[u8]) {
    if row.is_empty() {
        note.words(b"the line is empty or missing, expected ");
        note.words(key(k));
        note.words(b" and a whole number");
    } else if column(row, 0, b' ') != key(k) {
        key_off(note, k, row);
    } else if last(row, b' ') != 1 {
        note.words(b"expected one space and one number behind ");
        note.words(key(k));
    } else {
        number_off(note, k, row);
    }
}

// Whether the no-data value is named.
pub(crate) fn is_named(text: &[u8]) -> bool {
    line(text, NO_DATA_LINE).starts_with(key(NO_DATA_LINE))
}

// Whether the number of line k is out of its range.
fn is_out(k: u64, n: u32) -> bool {
    match k {
        1 | 2 => !(LEAST_SIDE..=MAX_SIDE).contains(&n),
        3 | 4 => MAX_ORIGIN < n,
        _ => !(LEAST_SPACING..=MAX_SPACING).contains(&n),
    }
}

// The first header line whose number is out of its range.
pub(crate) fn first_out(text: &[u8]) -> Option<u64> {
    (1..=HEADER_LINES).find(|k| is_out(*k, number_of(text, *k)))
}

// The range of line k behind its name and number.
pub(crate) fn range_off(note: &mut Note, k: u64, row: &[u8]) {
    note.words(key(k));
    field::found(note, column(row, 1, b' '));
    note.words(match k {
        1 | 2 => b", expected 2 to 256",
        3 | 4 => b", expected 900,000 or less",
        _ => b", expected 1 to 500",
    });
}
