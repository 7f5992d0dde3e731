// Why a network is refused.
use crate::header::{NO_DATA_LINE, is_named, line_off};
use crate::rows::{Network, is_off};
use crate::shape::{cell, size_off, values_off};
use refusal::Refusal;
use said::note::{self, Note};
use said::part::{column, line};
use said::{field, odd};

// The lines before the rows, where the no-data value is named and where it isn't.
const NAMED: usize = 6;

const UNNAMED: usize = 5;

// The first value of row k that is none.
fn value_off(note: &mut Note, k: usize, row: &[u8], nodata: &[u8]) {
    let mut values = row.split(|b| *b == b' ').enumerate();
    let found = values.find(|(_, t)| is_off(t, nodata));
    let (column, value) = found.unwrap_or((0, b""));
    cell(note, k, column);
    if value.is_empty() {
        note.words(b" is blank, expected one space between values and none around them");
    } else {
        field::network_level(note, value);
    }
}

// Why line `number` is off its layout.
fn reason(note: &mut Note, number: u64, row: &[u8], network: Network) {
    let before = network.before as u64;
    if let Some(what) = odd::of_grid(row) {
        note.words(what);
    } else if number <= before {
        line_off(note, number, row);
    } else if row.is_empty() {
        note.words(b"the line is empty, expected a row of values");
    } else {
        value_off(note, (number - before - 1) as usize, row, network.nodata);
    }
}

// Line `number` is off its layout.
fn layout(number: u64, network: Network) {
    let row = line(network.text, number);
    let mut note = Note::at_line(network.file, number);
    reason(&mut note, number, row, network);
    note.end(17, row);
}

// The network with what stands for no data.
fn read<'a>(file: &'a [u8], text: &'a [u8]) -> Network<'a> {
    if is_named(text) {
        Network {
            file,
            text,
            nodata: column(line(text, NO_DATA_LINE), 1, b' '),
            before: NAMED,
        }
    } else {
        Network {
            file,
            text,
            nodata: b"-9999",
            before: UNNAMED,
        }
    }
}

// A network is refused: 17 at a line, 12 or 13.
pub fn refused(file: &[u8], refusal: u32, number: u64, text: &[u8]) {
    let network = read(file, text);
    if refusal == Refusal::NetworkOffLayout.number() {
        layout(number, network);
    } else if refusal == Refusal::WrongNetwork.number() {
        size_off(network);
    } else {
        values_off(network);
    }
}

// The network's bytes can't be read on.
pub fn unread(file: &[u8], number: u64) {
    note::unread(file, number, 17);
}

// The network is longer than any that is not refused: 17 at a line, or 12.
pub fn overlong(file: &[u8], number: u64, text: &[u8]) {
    if number != 0 {
        refused(file, Refusal::NetworkOffLayout.number(), number, text);
        return;
    }
    let mut note = Note::of(file);
    note.words(b": 590,176 bytes or more, and no network of 256 rows of 256 values has as many");
    note.end(12, b"");
}
