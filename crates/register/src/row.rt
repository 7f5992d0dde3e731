// Register rows, read: the layout alone, and on it the row with its refusals.
ghost use Rattle.std.specs.Prelude.{◌≡◌, ◌≤◌};
ghost use Rattle.refusal.specs.Refusal.{told};
ghost use Rattle.register.specs.Column.{level_columns};
ghost use Rattle.register.specs.Row.{points_fit, eight_from, row_layout, cells_layout, layout_of, fault_of};
ghost use Rattle.register.specs.Row.{row_refusal, layout_told, RowRead};
ghost use Rattle.register.specs.InnerCell.{cells_told};

use crate::cell::{Line, Table, read_cells};
use crate::column::{IDENTITY, KIND, LEVELS, MASS, MAX_COLUMNS, TIME, TYPE};
use movement::limits::{MAX_LEVEL, MAX_POINTS};
use movement::rules::{fields_fit, identity_fits};
use refusal::{Refusal, all_within};
use text::line::bare_length;

// The fields of a row: type 0 large, 1 small, 2 helicopter; kind 0 start, 1 landing; time a second of the day;
// computed 1 or 0.
#[derive(Clone, Copy)]
pub struct Fields {
    pub identity: u32,
    pub ty: u32,
    pub mass: u32,
    pub kind: u32,
    pub time: u32,
    pub computed: u32,
}

// A row of a register: its fields and its levels, zero past the points.
#[derive(Clone, Copy)]
pub struct Row {
    pub fields: Fields,
    pub levels: [u32; MAX_POINTS],
}

// Whether so many points have a layout.
pub(crate) fn points_fit(points: u32) -> bool
    ensures { result ≡ points_fit points }
{
    (1..=MAX_POINTS as u32).contains(&points)
}

// Eight values from column `k` on.
pub(crate) fn eight_from(values: [u32; MAX_COLUMNS], k: usize) -> [u32; MAX_POINTS]
    requires { k ≤ level_columns }
    ensures { result ≡ eight_from k values }
{
    let mut eight = [0u32; MAX_POINTS];
    eight.copy_from_slice(&values[k..k + MAX_POINTS]);
    eight
}

// A row on its layout, from the values of its columns.
fn row_layout(values: [u32; MAX_COLUMNS], computed: u32) -> Row
    ensures { layout_told (Ok result) ≡ row_layout values computed }
{
    Row {
        fields: Fields {
            identity: values[IDENTITY],
            ty: values[TYPE],
            mass: values[MASS],
            kind: values[KIND],
            time: values[TIME],
            computed,
        },
        levels: eight_from(values, LEVELS),
    }
}

// The row of a line: computed where no level is blank, not computed where all are.
fn line_layout(line: Line, points: u32) -> Result<Row, Refusal>
    ensures { layout_told result ≡ cells_layout points (cells_told (Some line)) }
{
    match line.blanks {
        0 => Ok(row_layout(line.values, 1)),
        blanks if blanks == points => Ok(row_layout(line.values, 0)),
        _ => Err(Refusal::OffLayout),
    }
}

// Reads a row, with its CRLF or without, by its layout alone.
pub fn read_layout(s: &[u8], points: u32) -> Result<Row, Refusal>
    ensures { layout_told result ≡ layout_of points s.now }
{
    if !points_fit(points) {
        return Err(Refusal::OffLayout);
    }
    let n = bare_length(s);
    let Some(line) = read_cells(&s[..n], Table::Register, LEVELS + points as usize) else {
        return Err(Refusal::OffLayout);
    };
    line_layout(line, points)
}

// Rule 1, 3 or 7 of a row's fields.
pub(crate) fn fault(f: Fields, fits: bool) -> Result<(), Refusal>
    ensures { told result ≡ fault_of f fits }
{
    if !fields_fit(f.ty, f.kind, f.time, f.mass) {
        return Err(Refusal::OutOfRange);
    }
    if !identity_fits(f.identity) {
        return Err(Refusal::WrongIdentity);
    }
    if !fits {
        return Err(Refusal::WrongLevels);
    }
    Ok(())
}

// The refusal of a row on its layout, into `room` levels.
fn row_refusal(row: Row, points: u32, room: usize) -> Result<(), Refusal>
    ensures { told result ≡ row_refusal points (layout_told (Ok row)) room }
{
    fault(row.fields, all_within(&row.levels, MAX_LEVEL))?;
    if room < points as usize {
        return Err(Refusal::TooLittleRoom);
    }
    Ok(())
}

// Reads a row: 16, 1, 3, 7 and 14; its levels go into the lent slice.
pub fn read_row(s: &[u8], points: u32, levels: &mut [u32]) -> Result<Fields, Refusal>
    ensures { RowRead points s.now levels.old result levels.new }
{
    let row = read_layout(s, points)?;
    row_refusal(row, points, levels.len())?;
    let n = points as usize;
    levels[..n].copy_from_slice(&row.levels[..n]);
    Ok(row.fields)
}
