// What stands around the texts of contours, put into a lent buffer that has room. A writer writes from a place on and
// answers the place past its text.
ghost use Rattle.std.specs.Prelude.{◌+◌, ◌<◌, ◌≤◌, length};
ghost use Rattle.room.specs.Room.{Wrote};
ghost use Rattle.contours_steps.specs.Sheet.{line_start, refused_line};

use text::inner::{put_any_thousandths, put_byte, put_end, put_field, put_text};

// A level in thousandths and its semicolon.
pub fn put_start(out: &mut [u8], v: u32) -> usize
    requires { (v < 1000000) × (8 ≤ length out.old) }
    ensures { Wrote out.old 0 (line_start v) out.new result }
{
    let next = put_any_thousandths(out, 0, v);
    put_byte(out, next, b';')
}

// The line of a refusal.
pub fn put_refused(out: &mut [u8], number: u32, line: u64) -> usize
    requires { 51 ≤ length out.old }
    ensures { Wrote out.old 0 (refused_line number line) out.new result }
{
    let word = put_text(out, 0, b"refused");
    let first = put_field(out, word, number as u64);
    let second = put_field(out, first, line);
    put_end(out, second)
}
