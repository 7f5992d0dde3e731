// Where a line ends, for callers that know that it starts within the text.
ghost use Rattle.std.specs.Prelude.{◌≤◌, length};

use text::inner::line_end;

// The place of the next CRLF, or the text's length.
pub fn row_end(s: &[u8], from: usize) -> usize
    requires { from ≤ length s.now }
    ensures { (from ≤ result) × (result ≤ length s.now) }
{
    line_end(s, from)
}
