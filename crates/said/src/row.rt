// A line of a CSV file beside the header that the file should have: the names of its columns, counted from 0, and what
// is wrong with one.
use crate::field::found;
use crate::note::Note;
use crate::part::{column, last};

#[derive(Clone, Copy)]
pub struct Row<'a> {
    pub header: &'a [u8],
    pub line: &'a [u8],
}

impl<'a> Row<'a> {
    // The name that column k should have, and what it has.
    pub fn name(&self, k: usize) -> &'a [u8] {
        column(self.header, k, b',')
    }

    pub fn field(&self, k: usize) -> &'a [u8] {
        column(self.line, k, b',')
    }

    // The names up to column k.
    pub fn names(&self, note: &mut Note, k: usize) {
        let titles = self.header.split(|b| *b == b',');
        for (i, title) in titles.take(k.saturating_add(1)).enumerate() {
            if 0 < i {
                note.byte(b',');
            }
            note.words(title);
        }
    }

    // The number of the last column.
    pub fn last(&self) -> usize {
        last(self.line, b',')
    }

    // Whether column k has the name that it should have.
    pub fn is_named(&self, k: usize) -> bool {
        self.field(k) == self.name(k)
    }

    // Column k with its name, and what was expected.
    pub fn column_is(&self, note: &mut Note, k: usize, expected: &[u8]) {
        note.words(self.name(k));
        found(note, self.field(k));
        note.words(expected);
    }

    // A line that should be the header, of which column k isn't.
    pub fn misnamed(&self, note: &mut Note, k: usize) {
        note.words(b"column ");
        note.ordinal(k);
        found(note, self.field(k));
        note.words(b", expected ");
        note.words(self.name(k));
    }

    // A wrong number of columns: the last should be number `end`.
    pub fn count_off(&self, note: &mut Note, end: usize) {
        note.words(b"the number of columns is ");
        note.ordinal(self.last());
        note.words(b", expected ");
        note.ordinal(end);
        note.words(b": ");
        self.names(note, end);
    }

    // A line without bytes; the first line may also be missing.
    pub fn empty(&self, note: &mut Note, end: usize, first: bool) {
        note.words(if first {
            b"the line is empty or missing, expected "
        } else {
            b"the line is empty, expected "
        });
        self.names(note, end);
    }
}

// A line of which not all bytes are there: a row has at most so many.
pub fn too_long(note: &mut Note, most: u64) {
    note.words(b"the line is longer than any row, which has up to ");
    note.number(most);
    note.words(b" bytes and CRLF");
}
