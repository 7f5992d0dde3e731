// Networks that are written.
use crate::read::{network, row, show};
use cases::fields::{number, numbers};
use cases::show::{say, told};
use grid::write::write_network;
use network::Frame;

// The first `size` bytes of a text are read again.
fn again(text: &[u8], size: u32) {
    if let Some(written) = text.get(..size as usize) {
        network(b"||and read again: #0 #1, should be 0 0\n", written);
    }
}

// Writes a network into room for 130 bytes, shows its text and reads it again.
fn write_wide(line: &[u8], levels: &[u32]) {
    let frame = Frame {
        columns: 3,
        rows: 2,
        spacing: 100,
        west: 1000,
        south: 0,
    };
    let mut text = [b'.'; 130];
    let mut size = [7u32; 2];
    let answer = write_network(levels, frame, &mut text, &mut size);
    show(line, answer, 0);
    row(&size);
    say(&text);
    say(b"\n");
    again(&text, size[0]);
}

// Writes levels of two by two points into room for 82 bytes.
fn write_two(line: &[u8], levels: &[u32]) {
    let frame = Frame {
        columns: 2,
        rows: 2,
        spacing: number(line, 2),
        west: 0,
        south: 0,
    };
    let mut text = [b'.'; 82];
    let mut size = [7u32; 1];
    let answer = write_network(levels, frame, &mut text, &mut size);
    told(line, 3, 1, &[refusal::told(answer) as u64]);
}

fn write(kind: u8, line: &[u8], levels: &[u32]) {
    if kind == b'w' {
        write_wide(line, levels);
    } else {
        write_two(line, levels);
    }
}

pub(crate) fn case(kind: u8, line: &[u8]) {
    let mut levels = [0u32; 6];
    let n = numbers(line, 1, &mut levels);
    write(kind, line, &levels[..n]);
}
