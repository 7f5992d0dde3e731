// What is wrong with a line of tracks.csv or of the movements.
use flights::cell::cell;
use flights::column::{CIRCUIT, CLASS, DATE, KIND, NUMBER, TIME};
use flights::{TRACK_COLUMNS, read_flight};
use refusal::Refusal;
use said::note::Note;
use said::part::last;
use said::row::{Row, too_long};
use said::{clock, field, odd};

// The header of a file of so many columns: tracks.csv, or the movements.
pub(crate) fn header(columns: usize) -> &'static [u8] {
    if columns == TRACK_COLUMNS {
        b"track,date,time,class,kind,runway,airport,type"
    } else {
        b"id,date,time,class,kind,runway,airport,type,circuit"
    }
}

// Why line `number` is refused.
pub(crate) fn reason(
    note: &mut Note,
    number: u64,
    refusal: u32,
    columns: usize,
    row: Row,
    whole: bool,
) {
    let is_tracks = columns == TRACK_COLUMNS;
    if refusal == Refusal::WrongFlights.number() {
        of_values(note, columns, row);
    } else if let Some(what) = odd::of_csv(row.line) {
        note.words(what);
    } else if !whole {
        too_long(note, if is_tracks { 46 } else { 48 });
    } else if row.line.is_empty() {
        empty(note, number, is_tracks, row);
    } else {
        layout(note, number, row);
    }
}

// A line without bytes.
fn empty(note: &mut Note, number: u64, is_tracks: bool, row: Row) {
    let end = last(row.header, b',');
    if number == 1 && is_tracks {
        note.words(
            b"the file can't be opened in this folder, or its first line is empty, expected ",
        );
        row.names(note, end);
    } else {
        row.empty(note, end, number == 1);
    }
}

// A date that doesn't exist, or a row past the last that there may be.
fn of_values(note: &mut Note, columns: usize, row: Row) {
    if let Err(Refusal::WrongFlights) = read_flight(row.line, columns) {
        row.column_is(
            note,
            DATE,
            b", which doesn't exist, expected a date from 1900-01-01 to 9999-12-31",
        );
    } else {
        note.words(b"this is row 50,001, expected 50,000 or fewer");
    }
}

// A line off its layout, whose bytes are not odd as a whole: the first column that isn't as it should be, or the last,
// by its name in a header, and by its layout in a row.
fn layout(note: &mut Note, number: u64, row: Row) {
    let end = last(row.header, b',');
    if row.last() != end {
        row.count_off(note, end);
    } else if number == 1 {
        let k = (0..end).find(|k| !row.is_named(*k)).unwrap_or(end);
        row.misnamed(note, k);
    } else {
        let k = (0..end).find(|k| cell(*k, row.field(*k)).is_none());
        column_off(note, row, k.unwrap_or(end));
    }
}

// Column k with its name.
fn column_off(note: &mut Note, row: Row, k: usize) {
    note.words(row.name(k));
    field_off(note, k, row.field(k));
}

// A field behind its name.
fn field_off(note: &mut Note, k: usize, t: &[u8]) {
    match k {
        NUMBER => field::whole(note, t),
        TIME => clock::off(note, t),
        KIND => field::kind(note, t),
        _ => {
            field::found(note, t);
            note.words(expected(k));
        }
    }
}

// What was expected.
fn expected(k: usize) -> &'static [u8] {
    match k {
        DATE => b", expected yyyy-mm-dd, as 2026-03-31",
        CLASS => b", expected V (aeroplane) or H (helicopter)",
        CIRCUIT => b", expected C (circuit) or nothing",
        _ => b", expected one to four capital letters or digits",
    }
}
