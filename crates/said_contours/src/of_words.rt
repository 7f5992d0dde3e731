// Why an argument is refused.
use said::field;
use said::note::Note;

// What is wrong with a word.
fn reason(note: &mut Note, word: &[u8]) {
    if text::number::thousandths(word).is_some() {
        field::found(note, word);
        note.words(b", expected 0.001 to 150.000");
    } else {
        field::network_level(note, word);
    }
}

// Argument number i, which has this text, is no contour level.
pub fn refused(i: usize, word: &[u8]) {
    let mut note = Note::new();
    note.words(b"arguments: level ");
    note.number(i as u64);
    reason(&mut note, word);
    note.end(15, b"");
}

// More levels than there is room for.
pub fn too_many(count: usize) {
    let mut note = Note::new();
    note.words(b"arguments: the number of contour levels is ");
    note.number(count as u64);
    note.words(b", expected 15,000 or less");
    note.end(14, b"");
}

// No level at all.
pub fn too_few() {
    let mut note = Note::new();
    note.words(
        b"arguments: no contour level, expected one or more from 0.001 to 150.000, as 45.00 56.00",
    );
    note.end(15, b"");
}
