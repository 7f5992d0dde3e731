// Output.
use crate::fields::{self, from_field};

// The descriptor of standard output.
const STDOUT_FILENO: i32 = 1;

// A text as it stands.
pub fn say(text: &[u8]) {
    io::write_all(STDOUT_FILENO, text);
}

// Field k of a line.
pub fn field(line: &[u8], k: usize) {
    say(fields::field(line, k));
}

// The answer that a digit names.
fn answer(got: &[u64], digit: u8) {
    let i = digit.checked_sub(b'0');
    if let Some(value) = i.and_then(|i| got.get(i as usize)) {
        io::print_decimal(STDOUT_FILENO, *value);
    }
}

// A byte of a template that is not a digit after `#`.
fn plain(line: &[u8], shown: usize, c: u8) {
    match c {
        b'#' => {}
        b'@' => field(line, shown),
        b'~' => say(b"\n"),
        _ => say(&[c]),
    }
}

// What stands from field k on, with the line's end: `#` and a digit stand for that answer, `@` for the field shown, and
// `~` for an LF.
pub fn told(line: &[u8], k: usize, shown: usize, got: &[u64]) {
    let mut named = false;
    for c in from_field(line, k) {
        if named {
            answer(got, *c);
        } else {
            plain(line, shown, *c);
        }
        named = *c == b'#';
    }
}

// Numbers, each with a text before it and one after it.
pub fn list(before: &[u8], values: &[u32], after: &[u8]) {
    for value in values {
        say(before);
        io::print_decimal(STDOUT_FILENO, *value as u64);
        say(after);
    }
}
