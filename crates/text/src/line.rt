// A line with its CRLF or without.
ghost use Rattle.std.specs.Prelude.{◌≡◌, length};
ghost use Rattle.text.specs.Line.{bare_line};

// The length of a line without its CRLF, which may be missing.
pub fn bare_length(s: &[u8]) -> usize
    ensures { result ≡ length (bare_line s.now) }
{
    if s.ends_with(b"\r\n") {
        s.len() - 2
    } else {
        s.len()
    }
}
