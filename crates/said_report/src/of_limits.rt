// Why limits.csv is refused.
use crate::row::{fields, header};
use crate::table::{Table, first_over};
use movement::limits::MAX_POINTS;
use said::note::Note;
use said::odd;
use said::part::{last, line};
use said::row::Row;

// A header, off its layout.
fn header_off(note: &mut Note, row: Row) {
    let got = row.last();
    if (1..=MAX_POINTS).contains(&got) {
        header(note, row);
        return;
    }
    note.words(b"the number of columns is ");
    note.ordinal(got);
    note.words(b", expected 2 to 9: days, and p1 to p8 at most");
}

// Line `number` is off its layout.
fn layout(note: &mut Note, number: u64, text: &[u8], row: Row) {
    let end = last(line(text, 1), b',');
    if 2 < number {
        note.words(b"this is a third line, expected two");
    } else if let Some(what) = odd::of_csv(row.line) {
        note.words(what);
    } else if number == 1 {
        header_off(note, row);
    } else if row.line.is_empty() {
        row.empty(note, end, true);
    } else {
        fields(note, Table::LimitsFile, row, end);
    }
}

// Why line `number` of the text is refused.
fn reason(note: &mut Note, number: u64, refusal: u32, text: &[u8], row: Row) {
    if text.is_empty() {
        note.words(b"the file can't be opened in this folder, or is empty");
        return;
    }
    match refusal {
        11 => row.column_is(note, 0, b", expected 1 to 366"),
        15 => row.column_is(note, first_over(row, 1), b", expected 120.00 or less"),
        _ => layout(note, number, text, row),
    }
}

// limits.csv is refused at a line; `text` is all of it that was read.
pub fn refused(file: &[u8], number: u64, refusal: u32, text: &[u8]) {
    let row = Table::LimitsFile.row(line(text, number));
    let mut note = Note::at_line(file, number);
    reason(&mut note, number, refusal, text, row);
    note.end(refusal, row.line);
}
