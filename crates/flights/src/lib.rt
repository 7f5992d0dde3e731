// Rows and headers of tracks.csv and of the movements, as text: RULES, "Radar tracks".
#![tactic(auto)]

ghost use Rattle.std.specs.Prelude.{◌≡◌, ◌≤◌, if◌then◌else◌, nat_eq};
ghost use Rattle.flights.specs.Column.{movement_columns, has_layout};
ghost use Rattle.refusal.specs.Refusal.{told};
ghost use Rattle.flights.specs.Row.{IsFlight, refused_flight, judged_flight, row_of, flight_of};
ghost use Rattle.flights.specs.Header.{is_header, header_refusal};

use crate::cell::cell;
use crate::column::DATE;
use date::date_exists;
use refusal::Refusal;
use text::inner::field_end;
use text::line::bare_length;
use text::same::same_text;

pub mod cell;
pub mod column;
mod day;
mod name;

// How many columns a track has, and a movement.
pub const TRACK_COLUMNS: usize = 8;

pub const MOVEMENT_COLUMNS: usize = 9;

// The values of a row's columns, a track's circuit 0.
pub type Values = [u32; MOVEMENT_COLUMNS];

// A row on its layout: its date has to exist.
fn judged(values: Values) -> Result<Values, Refusal>
    ensures { IsFlight (judged_flight values) result }
{
    if date_exists(values[DATE]) {
        Ok(values)
    } else {
        Err(Refusal::WrongFlights)
    }
}

// A row that had `k` fields and has to have `count`.
fn counted(k: usize, count: usize, values: Values) -> Result<Values, Refusal>
    ensures { IsFlight (if nat_eq k count then judged_flight values else refused_flight 16) result }
{
    if k == count {
        judged(values)
    } else {
        Err(Refusal::OffLayout)
    }
}

// A line that has to have `count` fields, in one pass.
fn read_row(s: &[u8], count: usize) -> Result<Values, Refusal>
    requires { (1 ≤ count) × (count ≤ movement_columns) }
    ensures { IsFlight (row_of count s.now) result }
{
    let mut values = [0u32; MOVEMENT_COLUMNS];
    let mut at = 0;
    let mut k = 0;
    // Kept: (d) where the next field begins is found with the end of this one.
    loop {
        let end = field_end(s, at, b',');
        let Some(v) = cell(k, &s[at..end]) else {
            return Err(Refusal::OffLayout);
        };
        values[k] = v;
        k += 1;
        if s.len() <= end {
            return counted(k, count, values);
        }
        if count <= k {
            return Err(Refusal::OffLayout);
        }
        at = end + 1;
    }
}

// Whether so many columns have a layout.
fn has_layout(columns: usize) -> bool
    ensures { result ≡ has_layout columns }
{
    columns == TRACK_COLUMNS || columns == MOVEMENT_COLUMNS
}

// Reads a row of so many columns, with its CRLF or without. It has to be on its layout, and then its date to exist.
pub fn read_flight(s: &[u8], columns: usize) -> Result<Values, Refusal>
    ensures { IsFlight (flight_of columns s.now) result }
{
    if !has_layout(columns) {
        return Err(Refusal::OffLayout);
    }
    let n = bare_length(s);
    read_row(&s[..n], columns)
}

// Whether a line is the header of so many columns.
fn is_header(s: &[u8], columns: usize) -> bool
    ensures { result ≡ is_header columns s.now }
{
    match columns {
        TRACK_COLUMNS => same_text(s, b"track,date,time,class,kind,runway,airport,type"),
        MOVEMENT_COLUMNS => same_text(s, b"id,date,time,class,kind,runway,airport,type,circuit"),
        _ => false,
    }
}

// A line has to be the header of so many columns, byte for byte and without its CRLF.
pub fn header_refusal(s: &[u8], columns: usize) -> Result<(), Refusal>
    ensures { told result ≡ header_refusal columns s.now }
{
    if is_header(s, columns) {
        Ok(())
    } else {
        Err(Refusal::OffLayout)
    }
}
