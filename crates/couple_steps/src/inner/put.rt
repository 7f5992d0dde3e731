// The lines of the sheet, put into a buffer.
ghost use Rattle.std.specs.Prelude.{◌≡◌, ◌+◌, ◌<◌, ◌≤◌, ◌∷◌, ◌++◌, length, slice_index};
ghost use Rattle.text.specs.Sheet.{comma};
ghost use Rattle.text.specs.Spelled.{crlf};
ghost use Rattle.text.specs.InnerWithin.{longest_field, WroteWithin};
ghost use Rattle.couple_steps.specs.Sheet.{track_text, flight_line};
ghost use Rattle.couple_steps.specs.InnerSheet.{longest_flight, PartPut};

use text::inner::{put_any_number, put_byte, put_end, put_field};

// The longest line with its CRLF: two numbers of up to 20 digits, a comma and the CRLF.
const LONGEST_FLIGHT: usize = 43;

// A part of the sheet: `size` bytes at the front of the buffer, up to the line of movement `next`.
#[derive(Clone, Copy)]
pub struct Part {
    pub size: usize,
    pub next: usize,
}

// The number at a place; past the end it is 0.
fn number_at(numbers: &[u32], i: usize) -> u32
    ensures { result ≡ slice_index numbers.now i }
{
    numbers.get(i).copied().unwrap_or(0)
}

// A comma, and the number of the track at a place counted from 1, or nothing for place 0.
fn put_track(out: &mut [u8], at: usize, numbers: &[u32], answer: u32) -> usize
    requires { at + longest_field ≤ length out.old }
    ensures { WroteWithin longest_field out.old at
        (comma ∷ track_text numbers.now answer) out.new result }
{
    match answer {
        0 => put_byte(out, at, b','),
        place => put_field(out, at, u64::from(number_at(numbers, place as usize - 1))),
    }
}

// The line of movement i.
fn put_line(
    out: &mut [u8],
    at: usize,
    ids: &[u32],
    numbers: &[u32],
    answers: &[u32],
    i: usize,
) -> usize
    requires { at + longest_flight ≤ length out.old }
    ensures { WroteWithin longest_flight out.old at
        (flight_line ids.now numbers.now answers.now i ++ crlf) out.new result }
{
    let id = put_any_number(out, at, u64::from(number_at(ids, i)));
    let track = put_track(out, id, numbers, number_at(answers, i));
    put_end(out, track)
}

// The lines from movement `from` on, as many as there is room for.
pub fn put_lines(
    out: &mut [u8],
    ids: &[u32],
    numbers: &[u32],
    answers: &[u32],
    many: usize,
    from: usize,
) -> Part
    requires longest_flight_in_bounds { longest_flight ≤ length out.old }
    requires from_lt_many { from < many }
    ensures { PartPut ids.now numbers.now answers.now many from
        out.old result out.new }
{
    let mut at = 0;
    for i in from..many {
        if out.len() - at < LONGEST_FLIGHT {
            return Part { size: at, next: i };
        }
        at = put_line(out, at, ids, numbers, answers, i);
    }
    Part {
        size: at,
        next: many,
    }
}
