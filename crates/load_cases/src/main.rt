// The rules' file as a book, and the edge cases of a load, as the script in the file stdin has them. Each line of
// output has a case, and each number beside what it should be. A line of the script fills a column (ids, groups, marks,
// counts, levels), or says what is asked of a book (enter, supply, withdraw, total, verdict, average), how many rows,
// marks and levels it has, as many counts as levels, and for how many points; and last what is shown of the answers.
#![tactic(auto)]

mod asked;

use cases::column::stepped;
use cases::fields::{letter, number, numbers, place};

// The descriptor of standard input.
const STDIN_FILENO: i32 = 0;

// A column's values; or, with a gap, where they start, the first, and how much more each next one is.
fn fill(column: &mut [u32], line: &[u8]) {
    let gap = place(line, 1);
    if gap == 0 {
        numbers(line, 2, column);
        return;
    }
    stepped(
        column,
        place(line, 2),
        number(line, 3),
        number(line, 4),
        gap,
    );
}

// What is asked of the book that stands in the front of the columns.
fn ask(
    ids: &mut [u32],
    groups: &mut [u32],
    marks: &mut [u32],
    counts: &mut [u32],
    levels: &mut [u32],
    line: &[u8],
) {
    let rows = place(line, 1);
    let marked = place(line, 2);
    let cells = place(line, 3);
    if ids.len() < rows
        || groups.len() < rows
        || marks.len() < marked
        || counts.len() < cells
        || levels.len() < cells
    {
        return;
    }
    asked::ask(
        &mut ids[..rows],
        &mut groups[..rows],
        &mut marks[..marked],
        &mut counts[..cells],
        &mut levels[..cells],
        line,
    );
}

fn case(
    ids: &mut [u32],
    groups: &mut [u32],
    marks: &mut [u32],
    counts: &mut [u32],
    levels: &mut [u32],
    line: &[u8],
) {
    match letter(line) {
        b'i' => fill(ids, line),
        b'g' => fill(groups, line),
        b'm' => fill(marks, line),
        b'c' => fill(counts, line),
        b'l' => fill(levels, line),
        _ => ask(ids, groups, marks, counts, levels, line),
    }
}

fn run(
    ids: &mut [u32],
    groups: &mut [u32],
    marks: &mut [u32],
    counts: &mut [u32],
    levels: &mut [u32],
    script: &[u8],
) {
    for line in script.split_inclusive(|b| *b == b'\n') {
        case(ids, groups, marks, counts, levels, line);
    }
}

fn main() {
    let mut ids = [0u32; 50000];
    let mut groups = [0u32; 50000];
    let mut marks = [0u32; 50000];
    let mut counts = [0u32; 50000];
    let mut levels = [0u32; 50000];
    let mut script = io::large_buffer();
    let n = io::read_full(STDIN_FILENO, &mut script);
    run(
        &mut ids,
        &mut groups,
        &mut marks,
        &mut counts,
        &mut levels,
        &script[..n],
    );
}
