// Register rows, written.
ghost use Rattle.std.specs.Prelude.{◌≡◌, ◌+◌, ◌<◌, ◌≤◌, ◌++◌, length, slice_index};
ghost use Rattle.refusal.specs.Refusal.{told};
ghost use Rattle.room.specs.Room.{Wrote};
ghost use Rattle.register.specs.Column.{level_columns};
ghost use Rattle.register.specs.Cell.{cell_text};
ghost use Rattle.register.specs.Write.{columns, show_line, show_row, row_levels_fit, write_fault, RowWritten};
ghost use Rattle.register.specs.InnerCell.{top_of, comma_at, Writable};

use crate::clock::put_time;
use crate::column::{IDENTITY, KIND, LEVELS, MASS, TIME, TYPE};
use crate::letter::put_letter;
use crate::row::{Fields, fault, points_fit};
use movement::rules::levels_fit;
use refusal::{Refusal, all_within};
use text::inner::{put_byte, put_end, put_level, put_whole};

// Writes the text of column `k`, which has at most eight bytes.
fn put_cell(out: &mut [u8], at: usize, mark: u32, k: usize, v: u32) -> usize
    requires { (v < top_of k) × (at + 8 ≤ length out.old) }
    ensures { Wrote out.old at (cell_text mark k v) out.new result }
{
    match k {
        IDENTITY | MASS => put_whole(out, at, v),
        TYPE => put_letter(out, at, b"GKH", v),
        KIND => put_letter(out, at, b"SL", v),
        TIME => put_time(out, at, v),
        _ if mark == 0 => at,
        _ => put_level(out, at, v),
    }
}

// Writes column `k` with the comma before it; the first column has none.
fn put_field(out: &mut [u8], at: usize, mark: u32, k: usize, v: u32) -> usize
    requires { (v < top_of k) × (at + 9 ≤ length out.old) }
    ensures { Wrote out.old at (comma_at k ++ cell_text mark k v) out.new result }
{
    if k == IDENTITY {
        return put_cell(out, at, mark, k, v);
    }
    let next = put_byte(out, at, b',');
    put_cell(out, next, mark, k, v)
}

// The value of column `k`.
fn value_at(f: Fields, levels: &[u32], k: usize) -> u32
    requires { k < level_columns + length levels.now }
    ensures { result ≡ slice_index (columns f levels.now) k }
{
    match k {
        IDENTITY => f.identity,
        TYPE => f.ty,
        MASS => f.mass,
        KIND => f.kind,
        TIME => f.time,
        _ => levels[k - LEVELS],
    }
}

// Writes a row's line; a column has at most eight bytes and a comma.
fn put_line(out: &mut [u8], f: Fields, levels: &[u32]) -> usize
    requires { Writable f levels.now × (117 ≤ length out.old) }
    ensures { Wrote out.old 0 (show_line f levels.now) out.new result
        × (result ≤ 117) }
{
    let mark = f.computed;
    let mut at = 0;
    for k in 0..LEVELS + levels.len() {
        let v = value_at(f, levels, k);
        at = put_field(out, at, mark, k, v);
    }
    at
}

// Writes a row with its CRLF.
fn put_row(out: &mut [u8], f: Fields, levels: &[u32]) -> usize
    requires { Writable f levels.now × (119 ≤ length out.old) }
    ensures { Wrote out.old 0 (show_row f levels.now) out.new result
        × (result ≤ 119) }
{
    let at = put_line(out, f, levels);
    put_end(out, at)
}

// Whether there is a level for each point, each in range, and each zero where the row is not computed.
fn row_levels_fit(mark: u32, levels: &[u32], points: u32) -> bool
    ensures { result ≡ row_levels_fit points mark levels.now }
{
    levels_fit(levels, points as usize) && (mark != 0 || all_within(levels, 0))
}

// Why a row can't be written: 9, 1, 3 or 7.
fn write_fault(f: Fields, levels: &[u32], points: u32) -> Result<(), Refusal>
    ensures { told result ≡ write_fault points f levels.now }
{
    if !points_fit(points) || 1 < f.computed {
        return Err(Refusal::NotSound);
    }
    fault(f, row_levels_fit(f.computed, levels, points))
}

// Writes a row with its CRLF, and answers its size: 9, 1, 3, 7 and 14, and then changes nothing.
pub fn write_row(f: Fields, levels: &[u32], points: u32, out: &mut [u8]) -> Result<u32, Refusal>
    ensures { RowWritten points f levels.now out.old result out.new }
{
    write_fault(f, levels, points)?;
    let mut text = [0u8; 120];
    let n = put_row(&mut text, f, levels);
    if out.len() < n {
        return Err(Refusal::TooLittleRoom);
    }
    out[..n].copy_from_slice(&text[..n]);
    Ok(n as u32)
}
