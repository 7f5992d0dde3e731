// The columns of a register's row and of the second line of limits.csv, read field by field.
ghost use Rattle.std.specs.Prelude.{◌≡◌, ◌≤◌, if◌then◌else◌};
ghost use Rattle.register.specs.Column.{max_columns};
ghost use Rattle.register.specs.Cell.{level_or_blank, row_cell, cell_of, cells_of};
ghost use Rattle.register.specs.InnerCell.{blank_cell, cells_told};

use crate::column::{IDENTITY, KIND, LEVELS, MASS, MAX_COLUMNS, TIME, TYPE};
use text::clock::time;
use text::inner::{field_end, letter};
use text::number::{level, whole};

// Whose columns: those of a register or of limits.csv.
#[derive(Clone, Copy)]
pub enum Table {
    Register,
    LimitsFile,
}

// The fields of a line: how many levels are blank, and the values, zero past the last.
#[derive(Clone, Copy)]
pub struct Line {
    pub blanks: u32,
    pub values: [u32; MAX_COLUMNS],
}

// A level, or nothing.
fn level_or_blank(t: &[u8]) -> Option<u32>
    ensures { result ≡ level_or_blank t.now }
{
    if t.is_empty() { Some(0) } else { level(t) }
}

// What stands in column `k` of a register's row.
fn row_cell(k: usize, t: &[u8]) -> Option<u32>
    ensures { result ≡ row_cell k t.now }
{
    match k {
        IDENTITY | MASS => whole(t),
        TYPE => letter(t, b"GKH"),
        KIND => letter(t, b"SL"),
        TIME => time(t),
        _ => level_or_blank(t),
    }
}

// What stands in column `k` of either.
fn cell(table: Table, k: usize, t: &[u8]) -> Option<u32>
    ensures { result ≡ cell_of table k t.now }
{
    match table {
        Table::Register => row_cell(k, t),
        Table::LimitsFile => { if k == 0 { whole(t) } else { level(t) } }
    }
}

// 1 for a level that is left blank, else 0.
fn blank_level(k: usize, t: &[u8]) -> u32
    ensures { result ≡ (if blank_cell k t.now then 1 else 0) }
{
    (LEVELS <= k && t.is_empty()) as u32
}

// The fields of a line that has to have `count` of them, in one pass.
pub(crate) fn read_cells(s: &[u8], table: Table, count: usize) -> Option<Line>
    requires { (1 ≤ count) × (count ≤ max_columns) }
    ensures { cells_told result ≡ cells_of table count s.now }
{
    let mut values = [0u32; MAX_COLUMNS];
    let mut blanks = 0;
    let mut at = 0;
    for k in 0..count {
        let end = field_end(s, at, b',');
        values[k] = cell(table, k, &s[at..end])?;
        blanks += blank_level(k, &s[at..end]);
        if (end == s.len()) != (k + 1 == count) {
            return None;
        }
        at = end + 1;
    }
    Some(Line { blanks, values })
}
