// Warnings on the contours of a level: none at all, or lines that are open at the map's edge.
use said::note::Note;

// `level 56.000: `
fn start_of(v: u32) -> Note {
    let mut note = Note::new();
    note.words(b"level ");
    note.thousandths(v);
    note.words(b": ");
    note
}

// No contour: all values are on the same side of the level as the first.
fn no_contour(v: u32, levels: &[u32]) {
    let mut note = start_of(v);
    note.words(if levels.first().is_none_or(|first| *first < v) {
        b"no contour, since every value of the network is lower\n"
    } else {
        b"no contour, since no value of the network is lower\n"
    });
    note.send();
}

// Open lines among all.
fn open_at_edge(v: u32, open: usize, all: usize) {
    let mut note = start_of(v);
    note.words(b"lines that are open at the map's edge: ");
    note.number(open as u64);
    note.words(b" of ");
    note.number(all as u64);
    note.byte(b'\n');
    note.send();
}

// The contours of a network at a level, of which there is a mark each: 0 where the line is open.
pub fn drawn(v: u32, levels: &[u32], closed: &[u32]) {
    if closed.is_empty() {
        no_contour(v, levels);
        return;
    }
    let open = closed.iter().filter(|mark| **mark == 0).count();
    if 0 < open {
        open_at_edge(v, open, closed.len());
    }
}
