// The cases of RULES for the calls on a book, as the script in the file stdin has them. A line has a name, the number
// of points, how many counts and levels are lent, how many answers there is room for, and a journal, whose calls are
// made on an empty book of 3 rows (1 enter: identity, type, kind, time, mass, how many yes and no, those; 2 supply:
// identity, how many levels, the levels; 3 take back; 4 withdraw). Then come the answers that each call should get, 99
// where nothing is written, and the columns as they should be. Shown is each of them beside what it should be.
#![tactic(auto)]

use cases::fields::{numbers, place};
use cases::show::{field, list, say};
use refusal::told;

// The descriptor of standard input.
const STDIN_FILENO: i32 = 0;

// What is got, in a line of its own; the field behind it in the script is what it should be.
fn shown(name: &[u8], got: &[u32], line: &[u8], k: usize) {
    say(name);
    list(b" ", got, b"");
    say(b", should be ");
    field(line, k);
    say(b"\n");
}

fn show_book(
    ids: &[u32],
    groups: &[u32],
    marks: &[u32],
    counts: &[u32],
    levels: &[u32],
    line: &[u8],
) {
    shown(b"  identities", ids, line, 8);
    shown(b"  groups", groups, line, 9);
    shown(b"  marks", marks, line, 10);
    shown(b"  counts", counts, line, 11);
    shown(b"  levels", levels, line, 12);
}

fn replayed(
    counts: &mut [u32],
    levels: &mut [u32],
    points: usize,
    calls: &[u32],
    answers: &mut [u32],
    line: &[u8],
) {
    let mut ids = [0u32; 3];
    let mut groups = [0u32; 3];
    let mut marks = [0u32; 3];
    let got = told(journal::replay(
        &mut ids,
        &mut groups,
        &mut marks,
        counts,
        levels,
        points,
        calls,
        answers,
    ));
    shown(b"  replay", &[got], line, 6);
    shown(b"  calls", answers, line, 7);
    show_book(&ids, &groups, &marks, counts, levels, line);
}

// The book has as many counts and levels, and the answers as much room, as the line says.
fn lent(counts: &mut [u32], levels: &mut [u32], answers: &mut [u32], calls: &[u32], line: &[u8]) {
    let said = place(line, 2);
    let many = place(line, 3);
    let room = place(line, 4);
    if counts.len() < said || levels.len() < many || answers.len() < room {
        return;
    }
    replayed(
        &mut counts[..said],
        &mut levels[..many],
        place(line, 1),
        calls,
        &mut answers[..room],
        line,
    );
}

fn case(line: &[u8]) {
    let mut counts = [0u32; 27];
    let mut levels = [0u32; 27];
    let mut answers = [99u32; 33];
    let mut calls = [0u32; 200];
    let n = numbers(line, 5, &mut calls);
    field(line, 0);
    say(b"\n");
    lent(&mut counts, &mut levels, &mut answers, &calls[..n], line);
}

fn run(script: &[u8]) {
    for line in script.split_inclusive(|b| *b == b'\n') {
        case(line);
    }
}

fn main() {
    let mut script = io::buffer();
    let n = io::read_full(STDIN_FILENO, &mut script);
    run(&script[..n]);
}
