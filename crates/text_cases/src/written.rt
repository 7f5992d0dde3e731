// Rows that are written, or refused.
use cases::fields::{number, numbers};
use cases::show::{say, told};
use movement::limits::MAX_POINTS;
use refusal::Refusal;
use register::row::Fields;
use register::write::write_row;

fn fields(line: &[u8]) -> Fields {
    Fields {
        identity: number(line, 2),
        ty: number(line, 3),
        mass: number(line, 4),
        kind: number(line, 5),
        time: number(line, 6),
        computed: number(line, 7),
    }
}

// The refusal, or the size.
fn show(line: &[u8], answer: Result<u32, Refusal>) {
    match answer {
        Ok(n) => told(line, 9, 8, &[0, n as u64]),
        Err(why) => told(line, 9, 8, &[why.number() as u64, 0]),
    }
}

fn write_into(line: &[u8], text: &mut [u8]) -> Result<u32, Refusal> {
    let mut levels = [0u32; MAX_POINTS];
    let n = numbers(line, 8, &mut levels);
    write_row(fields(line), &levels[..n], number(line, 1), text)
}

// Writes a row into room for 88 bytes and shows them.
pub(crate) fn write(line: &[u8]) {
    let mut text = [b'.'; 88];
    let answer = write_into(line, &mut text);
    say(&text);
    show(line, answer);
}

// Writes a row into room for 28 bytes.
pub(crate) fn write_short(line: &[u8]) {
    let mut text = [0u8; 28];
    show(line, write_into(line, &mut text));
}
