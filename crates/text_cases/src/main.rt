// Register rows, headers and limits.csv: the examples of the rules and a table of damaged lines, as the script in the
// file stdin has them. Each line of output has a text, the answer, and what it should be. A line of the script has its
// kind, the points and the text or the row's fields and levels, and last what is shown of the answers.
#![tactic(auto)]

mod read;
mod written;

use cases::fields::{letter, text};
use movement::limits::MAX_POINTS;

// The descriptor of standard input.
const STDIN_FILENO: i32 = 0;

fn judge(line: &[u8], text: &[u8]) {
    match letter(line) {
        b'l' => read::layout(line, text),
        b'r' => read::row(line, text, &mut [0u32; MAX_POINTS]),
        b'f' => read::row(line, text, &mut [0u32; 1]),
        b'c' => read::limits(line, text),
        b'w' => written::write(line),
        b'u' => written::write_short(line),
        kind => read::header(kind, line, text),
    }
}

fn case(line: &[u8]) {
    let mut room = [0u8; 128];
    let n = text(line, 2, &mut room);
    judge(line, &room[..n]);
}

fn run(script: &[u8]) {
    for line in script.split_inclusive(|c| *c == b'\n') {
        case(line);
    }
}

fn main() {
    let mut script = io::large_buffer();
    let n = io::read_full(STDIN_FILENO, &mut script);
    run(&script[..n]);
}
