// Texts that are read.
use cases::fields::number;
use cases::show::told;
use register::header::{limits_points, register_points};
use register::limits_csv::read_limits;
use register::row::{read_layout, read_row};

// The layout alone: its refusal, the six fields and the first three levels, zero where there are none.
pub(crate) fn layout(line: &[u8], text: &[u8]) {
    let row = match read_layout(text, number(line, 1)) {
        Ok(row) => row,
        Err(why) => {
            told(
                line,
                3,
                2,
                &[why.number() as u64, 0, 0, 0, 0, 0, 0, 0, 0, 0],
            );
            return;
        }
    };
    let f = row.fields;
    let l = row.levels;
    let got = [
        0,
        f.identity as u64,
        f.ty as u64,
        f.mass as u64,
        f.kind as u64,
        f.time as u64,
        f.computed as u64,
        l[0] as u64,
        l[1] as u64,
        l[2] as u64,
    ];
    told(line, 3, 2, &got);
}

// One answer.
fn show(line: &[u8], n: u32) {
    told(line, 3, 2, &[n as u64]);
}

// A row with its rules, into lent room for its levels.
pub(crate) fn row(line: &[u8], text: &[u8], levels: &mut [u32]) {
    show(line, refusal::told(read_row(text, number(line, 1), levels)));
}

// The points of a register's header, or of that of limits.csv, which begins with the days; 0 where it is off.
pub(crate) fn header(kind: u8, line: &[u8], text: &[u8]) {
    let points = if kind == b'd' {
        limits_points(text)
    } else {
        register_points(text)
    };
    show(line, points.unwrap_or(0));
}

// limits.csv: its refusal and its line, points, days and the first three limits, zero where there are none.
pub(crate) fn limits(line: &[u8], text: &[u8]) {
    match read_limits(text) {
        Ok(read) => {
            let l = read.limits;
            let got = [
                0,
                0,
                read.points as u64,
                read.days as u64,
                l[0] as u64,
                l[1] as u64,
                l[2] as u64,
            ];
            told(line, 3, 2, &got);
        }
        Err(refused) => {
            let got = [
                refused.why.number() as u64,
                refused.line as u64,
                0,
                0,
                0,
                0,
                0,
            ];
            told(line, 3, 2, &got);
        }
    }
}
