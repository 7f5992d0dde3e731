// What is wrong with one field, behind its name: what was found, what it is, and what was expected.
use crate::note::Note;
use crate::part::is_digits;

// ` is 'found'`.
pub fn found(note: &mut Note, t: &[u8]) {
    if t.is_empty() {
        note.words(b" is blank");
        return;
    }
    note.words(b" is '");
    note.shown(t);
    note.words(b"'");
}

// Whether digits begin with a needless zero.
fn is_padded(t: &[u8]) -> bool {
    1 < t.len() && t[0] == b'0' && is_digits(t)
}

// A field that should be a whole number.
pub fn whole(note: &mut Note, t: &[u8]) {
    found(note, t);
    note.words(if is_padded(t) {
        b", expected a whole number without a zero in front"
    } else {
        b", expected a whole number of one to seven digits"
    });
}

// A field that should be a kind.
pub fn kind(note: &mut Note, t: &[u8]) {
    found(note, t);
    note.words(b", expected S (start) or L (landing)");
}

// A field that should be a level with so many decimals, said in words.
fn with_decimals(note: &mut Note, t: &[u8], decimals: &[u8]) {
    found(note, t);
    if t.contains(&b',') {
        note.words(b", with a decimal comma, expected a point, as 56.00");
    } else if is_digits(t) {
        note.words(b", a level without decimals, expected ");
        note.words(decimals);
        note.words(b", as 56.00");
    } else {
        note.words(b", expected one to three digits, a point and ");
        note.words(decimals);
        note.words(b" decimals, as 56.00");
    }
}

// A field that should be a level, and one that should be a level of a network.
pub fn level(note: &mut Note, t: &[u8]) {
    with_decimals(note, t, b"two");
}

pub fn network_level(note: &mut Note, t: &[u8]) {
    with_decimals(note, t, b"two or three");
}
