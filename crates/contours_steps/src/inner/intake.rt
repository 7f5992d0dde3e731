// Lines of a network whose bytes didn't all come.
ghost use Rattle.std.specs.Prelude.{◌≡◌};
ghost use Rattle.contours_steps.specs.Sheet.{line_begun, overlong_line};

// The line that a next byte would stand in, counted from 1.
pub fn line_begun(text: &[u8]) -> usize
    ensures { result ≡ line_begun text.now }
{
    let mut at = 0;
    let mut line = 1;
    let mut end = text::inner::line_end(text, 0);
    // Kept: (d) where the next line begins is found with the end of this one.
    while end < text.len() {
        at = end + 2;
        line += 1;
        end = text::inner::line_end(text, at);
    }
    line
}

// The line at fault of a text that fills its buffer, or 0 where neither the header nor a line that it ends is at fault.
pub fn overlong_line(text: &[u8]) -> usize
    ensures { result ≡ overlong_line text.now }
{
    let line = grid::read::fault_line(text);
    if line <= 5 || line < line_begun(text) {
        return line;
    }
    0
}
