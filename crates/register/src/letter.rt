// Types and kinds as text, written.
ghost use Rattle.std.specs.Prelude.{◌<◌, length};
ghost use Rattle.room.specs.Room.{Wrote};
ghost use Rattle.text.specs.Letter.{show_letter};

use text::inner::put_byte;

// Writes the letter at a place.
pub(crate) fn put_letter(out: &mut [u8], at: usize, letters: &[u8], n: u32) -> usize
    requires { (n < length letters.now) × (at < length out.old) }
    ensures { Wrote out.old at (show_letter letters.now n) out.new result }
{
    put_byte(out, at, letters[n as usize])
}
