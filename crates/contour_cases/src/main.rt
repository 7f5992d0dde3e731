// Contours of small networks, as the script in the file stdin has them, and of one of full size. Each answer stands
// beside what it should be: edges, counts, closed marks, or the refusal; or the printed text, and below it what it
// should be. A line of the script has its kind, columns, rows, spacing, west and south, the contour level, the levels,
// and last what is right.
#![tactic(auto)]

mod full;

use cases::fields::{letter, number, numbers};
use cases::show::{list, say, told};
use network::Frame;

// The descriptor of standard input.
const STDIN_FILENO: i32 = 0;

fn frame(line: &[u8]) -> Frame {
    Frame {
        columns: number(line, 1),
        rows: number(line, 2),
        spacing: number(line, 3),
        west: number(line, 4),
        south: number(line, 5),
    }
}

// The first n numbers.
pub(crate) fn front(values: &[u32], n: u32) {
    let n = n as usize;
    if n <= values.len() {
        list(b"", &values[..n], b" ");
    }
}

fn show_answer(edges: &[u32], counts: &[u32], closed: &[u32], sizes: [u32; 2]) {
    front(edges, sizes[0]);
    say(b"| ");
    front(counts, sizes[1]);
    say(b"| ");
    front(closed, sizes[1]);
}

// The answer in buffers of 20, 6 and 6 numbers, and what it should be.
fn traced(line: &[u8], levels: &[u32]) {
    let mut edges = [9u32; 20];
    let mut counts = [9u32; 6];
    let mut closed = [9u32; 6];
    let mut sizes = [0u32; 2];
    let answer = contour::contours(
        levels,
        frame(line),
        number(line, 6),
        &mut edges,
        &mut counts,
        &mut closed,
        &mut sizes,
    );
    if answer.is_ok() {
        show_answer(&edges, &counts, &closed, sizes);
    }
    told(line, 8, 0, &[u64::from(refusal::told(answer))]);
}

fn show_front(text: &[u8], size: u32) {
    let n = size as usize;
    if n <= text.len() {
        say(&text[..n]);
    }
}

// The printed text, and on the next line what it should be.
fn printed(line: &[u8], levels: &[u32]) {
    let mut text = [0u8; 256];
    let mut size = [0u32; 1];
    let _ = wkt::print_contours(levels, frame(line), number(line, 6), &mut text, &mut size);
    show_front(&text, size[0]);
    say(b"\n");
    told(line, 8, 0, &[0]);
}

fn judge(line: &[u8], levels: &[u32]) {
    match letter(line) {
        b't' => traced(line, levels),
        _ => printed(line, levels),
    }
}

fn case(line: &[u8]) {
    let mut levels = [0u32; 16];
    let n = numbers(line, 7, &mut levels);
    judge(line, &levels[..n]);
}

fn run(script: &[u8]) {
    for line in script.split_inclusive(|b| *b == b'\n') {
        case(line);
    }
}

fn main() {
    let mut script = io::large_buffer();
    let n = io::read_full(STDIN_FILENO, &mut script);
    run(&script[..n]);
    full::full_size();
}
