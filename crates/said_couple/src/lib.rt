// The sentences of the program couple on standard error, each in one write: why tracks.csv or the movements are
// refused, and how many movements have a track. None of it is a promise: the functions are safe and end, and tests hold
// what they say.
#![tactic(auto)]

use crate::row::{header, reason};
use flights::TRACK_COLUMNS;
use said::note::{self, Note};
use said::part::first_line;
use said::row::Row;

mod row;

// Line `number` of a file of so many columns is refused, with that refusal's number. `whole` says whether `line` is all
// of it.
pub fn refused(file: &[u8], number: u64, refusal: u32, columns: usize, line: &[u8], whole: bool) {
    let row = Row {
        header: header(columns),
        line,
    };
    let mut note = Note::at_line(file, number);
    reason(&mut note, number, refusal, columns, row, whole);
    note.end(refusal, line);
}

// The file is refused at the first line of the `left` bytes from `at` on; `ended` says whether they are its last.
pub fn refused_in(
    file: &[u8],
    bytes: &[u8],
    at: usize,
    left: usize,
    ended: bool,
    number: u64,
    refusal: u32,
    columns: usize,
) {
    let (line, whole) = first_line(bytes, at, left, ended);
    refused(file, number, refusal, columns, line, whole);
}

// A read failed at line `number` of a file of so many columns; the movements are standard input.
pub fn unread(file: &[u8], number: u64, columns: usize) {
    if columns != TRACK_COLUMNS {
        note::unread(file, number, 16);
        return;
    }
    let mut note = Note::at_line(file, number);
    note.words(b"the file can't be opened in this folder, or can't be read on");
    note.end(16, b"");
}

// How many movements there are, how many of them have a track, how many aeroplane circuits take none, how many others
// found none, and how many tracks are left.
pub fn counted(movements: u64, with_track: u64, circuits: u64, none: u64, tracks_left: u64) {
    let mut note = Note::new();
    note.words(b"movements: ");
    note.number(with_track);
    note.words(b" of ");
    note.number(movements);
    note.words(b" have a track, ");
    note.number(circuits);
    note.words(b" aeroplane circuits take none, ");
    note.number(none);
    note.words(b" found none; tracks left: ");
    note.number(tracks_left);
    note.words(b"\n");
    note.send();
}
