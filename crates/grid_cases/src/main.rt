// Network files: a small network read and written, and a table of damaged files, as the script in the file stdin has
// them. Each line of output names the case and gives the answer and the first line at fault, and then what they should
// be. A line of the script has its kind, the text or the levels, and last what is shown of the answers.
#![tactic(auto)]

mod read;
mod written;

use cases::fields::{letter, text};

// The descriptor of standard input.
const STDIN_FILENO: i32 = 0;

fn judge(line: &[u8], text: &[u8]) {
    match letter(line) {
        b'f' => read::file(line, text),
        b'n' => read::network(line, text),
        b'r' => read::room(line, text),
        kind => written::case(kind, line),
    }
}

fn case(line: &[u8]) {
    let mut room = [0u8; 160];
    let n = text(line, 1, &mut room);
    judge(line, &room[..n]);
}

fn run(script: &[u8]) {
    for line in script.split_inclusive(|b| *b == b'\n') {
        case(line);
    }
}

fn main() {
    let mut script = io::large_buffer();
    let n = io::read_full(STDIN_FILENO, &mut script);
    run(&script[..n]);
}
