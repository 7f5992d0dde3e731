// Register rows, read and written.
ghost use Rattle.std.specs.Prelude.{◌≡◌, false, ◌∷◌, [], ◌≤◌, length, take};
ghost use Rattle.refusal.specs.Refusal.{number_of};
ghost use Rattle.room.specs.Room.{front, then_room, WritesTwo};
ghost use Rattle.register.specs.Row.{layout_of, field_list};
ghost use Rattle.register.specs.Write.{write_fault, show_row};
ghost use Rattle.okubinrafo.specs.Rows.{field_count, fields_from, row_fault, numbers_fault};

use movement::limits::MAX_POINTS;
use refusal::Refusal;
use register::row::{Fields, read_row};
use register::write::write_row;

// A row as numbers: identity, type, mass, kind, time, 1 if computed.
const FIELDS: usize = 6;

// Why a row can't be read where there is no room for its fields: 16, 1, 3, 7 or 14.
fn row_fault(line: &[u8], points: u32) -> Refusal
    ensures { number_of result ≡ then_room (row_fault (layout_of points line.now)) false }
{
    let mut levels = [0u32; MAX_POINTS];
    match read_row(line, points, &mut levels) {
        Err(why) => why,
        Ok(_) => Refusal::TooLittleRoom,
    }
}

// Writes the six fields of a row.
fn put_fields(f: Fields, fields: &mut [u32])
    requires { field_count ≤ length fields.old }
    ensures { fields.new ≡ front (field_list f) fields.old }
{
    fields[0] = f.identity;
    fields[1] = f.ty;
    fields[2] = f.mass;
    fields[3] = f.kind;
    fields[4] = f.time;
    fields[5] = f.computed;
}

// A register row, read: its six fields, and a level a point.
#[unsafe(no_mangle)]
pub extern "C" fn okubinrafo_read_row(
    line: &[u8],
    points: u32,
    fields: &mut [u32],
    levels: &mut [u32],
) -> u32
    ensures { WritesTwo (row_fault (layout_of points line.now))
        (field_list (layout_of points line.now).fields)
        (take points (layout_of points line.now).levels)
        fields.old levels.old result fields.new levels.new }
{
    if fields.len() < FIELDS {
        return row_fault(line, points).number();
    }
    match read_row(line, points, levels) {
        Err(why) => why.number(),
        Ok(f) => {
            put_fields(f, fields);
            0
        }
    }
}

// The fields of six numbers.
fn fields_from(fields: &[u32]) -> Fields
    requires { length fields.now ≡ field_count }
    ensures { result ≡ fields_from fields.now }
{
    Fields {
        identity: fields[0],
        ty: fields[1],
        mass: fields[2],
        kind: fields[3],
        time: fields[4],
        computed: fields[5],
    }
}

// Why a row can't be written where there is no room for its size: 9, 1, 3, 7 or 14.
fn unwritten(f: Fields, levels: &[u32], points: u32) -> Refusal
    ensures { number_of result ≡ then_room (write_fault points f levels.now) false }
{
    let mut text = [0u8; 120];
    match write_row(f, levels, points, &mut text) {
        Err(why) => why,
        Ok(_) => Refusal::TooLittleRoom,
    }
}

// A register row, written with its CRLF, and its size.
#[unsafe(no_mangle)]
pub extern "C" fn okubinrafo_write_row(
    fields: &[u32],
    levels: &[u32],
    points: u32,
    text: &mut [u8],
    size: &mut [u32],
) -> u32
    ensures { WritesTwo (numbers_fault points fields.now levels.now)
        (show_row (fields_from fields.now) levels.now)
        (length (show_row (fields_from fields.now) levels.now) ∷ [])
        text.old size.old result text.new size.new }
{
    if fields.len() != FIELDS {
        return Refusal::NotSound.number();
    }
    let f = fields_from(fields);
    if size.is_empty() {
        return unwritten(f, levels, points).number();
    }
    match write_row(f, levels, points, text) {
        Err(why) => why.number(),
        Ok(k) => {
            size[0] = k;
            0
        }
    }
}
