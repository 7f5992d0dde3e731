// Why a network on its layout is refused: its size (12) and its values (13).
use crate::header::{first_out, range_off};
use crate::rows::{Network, is_over, values_in};
use said::field;
use said::note::Note;
use said::part::{Lines, last, line};

// `row R, column C`, of which each is counted from 0 here.
pub(crate) fn cell(note: &mut Note, row: usize, column: usize) {
    note.words(b"row ");
    note.ordinal(row);
    note.words(b", column ");
    note.ordinal(column);
}

// What the header says and what the file has.
fn against(note: &mut Note, header: usize, file: usize) {
    note.number(header as u64);
    note.words(b" by the header and ");
    note.number(file as u64);
    note.words(b" in the file");
}

// The end of a sentence: the network's rows and values and the refusal, and below it the line.
fn end(mut note: Note, refusal: u32, network: Network, row: &[u8]) {
    let asked = network.rows();
    let found = network.row_count();
    note.words(b"; rows: ");
    against(&mut note, asked, found);
    note.words(b"; values: ");
    let values = found.saturating_add(last(network.body(), b' '));
    against(&mut note, asked.saturating_mul(network.columns()), values);
    note.end(refusal, row);
}

// A value that is missing or one too many, and which of the two.
#[derive(Clone, Copy)]
struct Fault {
    row: usize,
    column: usize,
    what: &'static [u8],
}

// Which it is where there are `got` of so many.
fn what(got: usize, asked: usize) -> &'static [u8] {
    if got < asked {
        b" is missing"
    } else {
        b" is one value too many"
    }
}

// The first value at fault of rows that don't fit the header: in a row, or in one row more or less than it asks for.
fn misfit(network: Network) -> Fault {
    let columns = network.columns();
    let rows = network.rows();
    let mut found = Lines::of(network.body()).enumerate();
    match found.find(|(_, row)| values_in(row) != columns) {
        Some((row, values)) if row < rows => {
            let got = values_in(values);
            Fault {
                row,
                column: got.min(columns),
                what: what(got, columns),
            }
        }
        _ => {
            let got = network.row_count();
            Fault {
                row: got.min(rows),
                column: 0,
                what: what(got, rows),
            }
        }
    }
}

// A header line whose number is out of its range.
fn header_off(network: Network, k: u64) {
    let row = line(network.text, k);
    let mut note = Note::at_line(network.file, k);
    range_off(&mut note, k, row);
    end(note, 12, network, row);
}

// Rows that don't fit the header.
fn rows_off(network: Network) {
    let fault = misfit(network);
    let number = network.line_of(fault.row);
    let mut note = Note::at_line(network.file, number);
    cell(&mut note, fault.row, fault.column);
    note.words(fault.what);
    end(note, 12, network, line(network.text, number));
}

// The size is refused: the header's numbers first, and then the rows.
pub(crate) fn size_off(network: Network) {
    match first_out(network.text) {
        Some(k) => header_off(network, k),
        None => rows_off(network),
    }
}

// What is wrong with a value, behind its row and column.
fn value_is(note: &mut Note, t: &[u8], nodata: &[u8]) {
    field::found(note, t);
    note.words(if t == nodata {
        b", which is no data, expected a level"
    } else {
        b", expected 150.000 or less"
    });
}

// The first value of a row that is refused, and its number.
fn first_over<'a>(row: &'a [u8], nodata: &[u8]) -> Option<(usize, &'a [u8])> {
    row.split(|b| *b == b' ')
        .enumerate()
        .find(|(_, t)| is_over(t, nodata))
}

// The values are refused: the first row that has such a value.
pub(crate) fn values_off(network: Network) {
    let nodata = network.nodata;
    let mut rows = Lines::of(network.body()).enumerate();
    let found = rows.find(|(_, row)| first_over(row, nodata).is_some());
    let (k, row) = found.unwrap_or((0, b""));
    let (column, value) = first_over(row, nodata).unwrap_or((0, b""));
    let mut note = Note::at_line(network.file, network.line_of(k));
    cell(&mut note, k, column);
    value_is(&mut note, value, nodata);
    end(note, 13, network, row);
}
