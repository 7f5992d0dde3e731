// How the reading of a whole text ends, and files that are refused or can't be read.
use crate::short::Short;
use cases::show::say;
use channel::file::{close_file, open_file};
use stream::inner::reading::read_whole;
use stream::{State, Turn};

// The descriptor of standard output.
const STDOUT_FILENO: i32 = 1;

// Room for a longest line, its CRLF and a byte more.
const ROOM: usize = 11;

// A number, and a space behind it.
fn number(value: u64) {
    io::print_decimal(STDOUT_FILENO, value);
    say(b" ");
}

// How it ended (1 at its end, 2 refused before, 3 at a read that failed), the number of the next line or of the one
// that is refused, and the refusal.
pub(crate) fn end(name: &[u8], turn: Turn, expected: &[u8]) {
    say(name);
    say(b": ");
    number(match turn.state {
        State::Going => 0,
        State::Ended => 1,
        State::Stopped => 2,
        State::Failed => 3,
    });
    number(turn.line);
    number(refusal::told(turn.refusal) as u64);
    say(b"should be ");
    say(expected);
}

// A file of the current folder, into a type that takes lines of at most eight bytes.
pub(crate) fn file(rt: &HostRuntime, path: &str, expected: &[u8]) {
    let mut short = Short { last: 0 };
    let mut bytes = [0u8; ROOM];
    let mut taken = 0;
    let source = open_file(rt, path);
    let turn = read_whole(rt, true, path, &source, &mut taken, &mut short, &mut bytes);
    close_file(source);
    end(path.as_bytes(), turn, expected);
}
