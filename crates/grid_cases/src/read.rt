// Network files that are read.
use cases::show::{list, say, told};
use grid::read::{fault_line, read_network};
use refusal::Refusal;

// The answer and the line at fault.
pub(crate) fn show(line: &[u8], answer: Result<(), Refusal>, fault: usize) {
    told(line, 2, 1, &[refusal::told(answer) as u64, fault as u64]);
}

// Numbers in a line, each with a space before it.
pub(crate) fn row(values: &[u32]) {
    list(b" ", values, b"");
    say(b"\n");
}

// A text into enough room.
pub(crate) fn file(line: &[u8], text: &[u8]) {
    let mut header = [7u32; 6];
    let mut levels = [7u32; 10];
    let answer = read_network(text, &mut header, &mut levels);
    show(line, answer, fault_line(text));
}

// The same, and what stands in the room: one number and one level more than the answer has keep their 7.
pub(crate) fn network(line: &[u8], text: &[u8]) {
    let mut header = [7u32; 6];
    let mut levels = [7u32; 7];
    let answer = read_network(text, &mut header, &mut levels);
    show(line, answer, fault_line(text));
    row(&header);
    row(&levels);
}

// A header that is one number short; all room keeps its 7.
pub(crate) fn room(line: &[u8], text: &[u8]) {
    let mut header = [7u32; 4];
    let mut levels = [7u32; 4];
    let answer = read_network(text, &mut header, &mut levels);
    show(line, answer, fault_line(text));
    row(&header);
    row(&levels);
}
