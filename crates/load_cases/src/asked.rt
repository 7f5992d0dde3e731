// What a line asks of a book.
use cases::fields::{letter, number, numbers, place, wide};
use cases::show::told;
use level::Verdict;
use load_rules::Load;
use refusal::Refusal;

fn enter(
    ids: &mut [u32],
    groups: &mut [u32],
    marks: &mut [u32],
    counts: &mut [u32],
    levels: &mut [u32],
    line: &[u8],
) {
    let mut given = [0u32; 8];
    let n = numbers(line, 10, &mut given);
    let points = place(line, 4);
    let identity = number(line, 5);
    let ty = number(line, 6);
    let kind = number(line, 7);
    let time = number(line, 8);
    let mass = number(line, 9);
    let _ = book::enter(
        ids,
        groups,
        marks,
        counts,
        levels,
        points,
        identity,
        ty,
        kind,
        time,
        mass,
        &given[..n],
    );
}

fn supply(
    ids: &[u32],
    groups: &[u32],
    marks: &mut [u32],
    counts: &[u32],
    levels: &mut [u32],
    line: &[u8],
) {
    let mut given = [0u32; 8];
    let n = numbers(line, 6, &mut given);
    let _ = book::supply(
        ids,
        groups,
        marks,
        counts,
        levels,
        place(line, 4),
        number(line, 5),
        &given[..n],
    );
}

fn withdraw(
    ids: &mut [u32],
    groups: &mut [u32],
    marks: &mut [u32],
    counts: &mut [u32],
    levels: &mut [u32],
    line: &[u8],
) {
    let points = place(line, 4);
    let identity = number(line, 5);
    let _ = book::withdraw(ids, groups, marks, counts, levels, points, identity);
}

// The refusal, the total, the level and whether it is given, and V and U of the first and the last group.
fn show_load(line: &[u8], answer: Result<Load, Refusal>) {
    let got = match answer {
        Ok(load) => [
            0,
            load.total,
            wide(load.level.given()),
            wide(load.level.value()),
            wide(load.counts[0].computed),
            wide(load.counts[0].missing),
            wide(load.counts[17].computed),
            wide(load.counts[17].missing),
        ],
        Err(why) => [wide(why.number()), 0, 0, 0, 0, 0, 0, 0],
    };
    told(line, 7, 0, &got);
}

fn total(ids: &[u32], groups: &[u32], marks: &[u32], counts: &[u32], levels: &[u32], line: &[u8]) {
    let points = place(line, 4);
    let point = place(line, 5);
    let days = number(line, 6);
    show_load(
        line,
        load::load_at(ids, groups, marks, counts, levels, points, point, days),
    );
}

// The refusal's number, and 1 for over.
fn show_verdict(line: &[u8], answer: Result<Verdict, Refusal>) {
    let got = match answer {
        Ok(verdict) => [0, wide(verdict.number())],
        Err(why) => [wide(why.number()), 0],
    };
    told(line, 8, 0, &got);
}

fn verdict(
    ids: &[u32],
    groups: &[u32],
    marks: &[u32],
    counts: &[u32],
    levels: &[u32],
    line: &[u8],
) {
    let points = place(line, 4);
    let point = place(line, 5);
    let days = number(line, 6);
    let limit = number(line, 7);
    show_verdict(
        line,
        load::verdict_at(
            ids, groups, marks, counts, levels, points, point, days, limit,
        ),
    );
}

// What changes no row; and M of the rules' file.
fn told_of(
    ids: &[u32],
    groups: &[u32],
    marks: &[u32],
    counts: &[u32],
    levels: &[u32],
    line: &[u8],
) {
    match letter(line) {
        b't' => total(ids, groups, marks, counts, levels, line),
        b'v' => verdict(ids, groups, marks, counts, levels, line),
        _ => told(line, 5, 0, &[level::inner::mean(40000000000, 1)]),
    }
}

pub(crate) fn ask(
    ids: &mut [u32],
    groups: &mut [u32],
    marks: &mut [u32],
    counts: &mut [u32],
    levels: &mut [u32],
    line: &[u8],
) {
    match letter(line) {
        b'e' => enter(ids, groups, marks, counts, levels, line),
        b's' => supply(ids, groups, marks, counts, levels, line),
        b'w' => withdraw(ids, groups, marks, counts, levels, line),
        _ => told_of(ids, groups, marks, counts, levels, line),
    }
}
