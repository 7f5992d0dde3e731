// The sentences, put to the front of a buffer that has room for any. A number that is no refusal has none.
ghost use Rattle.std.specs.Prelude.{◌+◌, ◌<◌, ◌≤◌, ◌++◌, length};
ghost use Rattle.room.specs.Room.{Wrote};
ghost use Rattle.sentence.specs.Sentence.{max_sentence, sentence_of};

use text::inner::put_text;

// The sentence of any number.
pub fn put_any(out: &mut [u8], number: u32) -> usize
    requires { max_sentence ≤ length out.old }
    ensures { Wrote out.old 0 (sentence_of number) out.new result }
{
    match number {
        0..=6 => of_movement(out, number),
        7..=11 => of_load(out, number),
        12..=17 => of_file(out, number),
        _ => of_later(out, number),
    }
}

// 1 to 6: a movement, its identity and its row.
fn of_movement(out: &mut [u8], number: u32) -> usize
    requires { (number ≤ 6) × (max_sentence ≤ length out.old) }
    ensures { Wrote out.old 0 (sentence_of number) out.new result }
{
    match number {
        1 => put_text(
            out,
            0,
            b"type, kind, time or mass is out of range, or a small aircraft has 6,000 kg or more",
        ),
        2 => put_text(
            out,
            0,
            b"the mass is 150 kg or less, and only heavier aircraft are entered",
        ),
        3 => put_text(out, 0, b"the identity is not from 1 to 99,999"),
        4 => put_text(out, 0, b"the identity already stands"),
        5 => put_text(out, 0, b"the identity does not stand in the book"),
        6 => put_text(out, 0, b"the book has no unused row left"),
        _ => 0,
    }
}

// 7 to 11: levels, the book and its load.
fn of_load(out: &mut [u8], number: u32) -> usize
    requires { ((7 ≤ number) × (number < 12)) × (max_sentence ≤ length out.old) }
    ensures { Wrote out.old 0 (sentence_of number) out.new result }
{
    match number {
        7 => put_text(
            out,
            0,
            b"the number of levels is not the number of points, or a level is over 120.00",
        ),
        8 => put_text(
            out,
            0,
            b"the movement has no levels that could be taken back",
        ),
        9 => put_text(
            out,
            0,
            b"the book is not sound, its points are not 1 to 8, there is no such point, or not one yes or no a point",
        ),
        10 => put_text(
            out,
            0,
            b"movements count at the point, and none of them has levels, so no load can be worked out",
        ),
        _ => put_text(out, 0, b"the days have to be from 1 to 366"),
    }
}

// What a sentence is about, and what is wrong with it.
fn put_about(out: &mut [u8], about: &[u8], what: &[u8]) -> usize
    requires { length about.now + length what.now ≤ length out.old }
    ensures { Wrote out.old 0 (about.now ++ what.now) out.new result }
{
    let next = put_text(out, 0, about);
    put_text(out, next, what)
}

// 12 to 17: networks, lent room, limits and contour levels, and the layouts of files.
fn of_file(out: &mut [u8], number: u32) -> usize
    requires { ((12 ≤ number) × (number < 18)) × (max_sentence ≤ length out.old) }
    ensures { Wrote out.old 0 (sentence_of number) out.new result }
{
    match number {
        12 => put_about(
            out,
            b"network: ",
            b"size (2 to 256 a side), spacing (1 to 500 m), origin (0 to 900,000 m) or the count of values is wrong",
        ),
        13 => put_about(
            out,
            b"network: ",
            b"a level is over 150.000, or is the no-data value",
        ),
        14 => put_text(out, 0, b"the room lent for the answer is too small"),
        15 => put_text(
            out,
            0,
            b"a limit is over 120.00, or a contour level is not from 0.001 to 150.000",
        ),
        16 => put_text(
            out,
            0,
            b"the register, limits.csv, movements, tracks.csv or the journal is off its layout",
        ),
        _ => put_about(
            out,
            b"network: ",
            b"a line is off its layout, or its line end is LF where CRLF is expected",
        ),
    }
}

// From 18 on: flights to be coupled, and a level where its movement doesn't count.
fn of_later(out: &mut [u8], number: u32) -> usize
    requires { (18 ≤ number) × (max_sentence ≤ length out.old) }
    ensures { Wrote out.old 0 (sentence_of number) out.new result }
{
    match number {
        18 => put_about(
            out,
            b"movements or tracks: ",
            b"over 50,000, columns of unequal length, class or kind over 1, second over 86,399, or no such date",
        ),
        19 => put_text(
            out,
            0,
            b"a level is not zero at a point where the movement does not count",
        ),
        _ => 0,
    }
}
