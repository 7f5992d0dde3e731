// What is wrong with a time of day.
use crate::field::found;
use crate::note::Note;
use crate::part::{column, last};

// Whether a text is an hour.
fn is_hour(t: &[u8]) -> bool {
    match t {
        [b'0' | b'1', b'0'..=b'9'] | [b'2', b'0'..=b'3'] => true,
        _ => false,
    }
}

// Whether the hour has one digit.
fn is_short(t: &[u8]) -> bool {
    match t {
        [b'0'..=b'9', b':', ..] => true,
        _ => false,
    }
}

// What was expected of a text that should be a time of day.
fn expected(t: &[u8]) -> &'static [u8] {
    if is_short(t) {
        b", an hour of one digit, expected two, as 07:00:00"
    } else if last(t, b':') != 2 {
        b", expected hh:mm:ss, as 07:00:00"
    } else if !is_hour(column(t, 0, b':')) {
        b", expected an hour from 00 to 23, as 07:00:00"
    } else {
        b", expected minutes and seconds from 00 to 59, as 07:00:00"
    }
}

// A text that should be a time of day.
pub fn off(note: &mut Note, t: &[u8]) {
    found(note, t);
    note.words(expected(t));
}
