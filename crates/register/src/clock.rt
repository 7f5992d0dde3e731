// Times of day as text, written.
ghost use Rattle.std.specs.Prelude.{◌+◌, ◌<◌, ◌≤◌, length};
ghost use Rattle.movement.specs.Limits.{seconds_a_day};
ghost use Rattle.room.specs.Room.{Wrote};
ghost use Rattle.text.specs.Clock.{show_time};

use text::inner::{put_byte, put_digits};

// Writes a second of the day.
pub(crate) fn put_time(out: &mut [u8], at: usize, n: u32) -> usize
    requires { (n < seconds_a_day) × (at + 8 ≤ length out.old) }
    ensures { Wrote out.old at (show_time n) out.new result }
{
    let hours = put_digits(out, at, n / 3600, 2);
    let first = put_byte(out, hours, b':');
    let minutes = put_digits(out, first, n / 60 % 60, 2);
    let second = put_byte(out, minutes, b':');
    put_digits(out, second, n % 60, 2)
}
