// The lines of a point, put into a buffer that has room for the longest.
ghost use Rattle.std.specs.Prelude.{◌≡◌, ◌+◌, ◌<◌, ◌≤◌, ◌∷◌, ◌++◌, length};
ghost use Rattle.movement.specs.Limits.{group_count, max_points};
ghost use Rattle.movement.specs.Group.{group_period};
ghost use Rattle.text.specs.Sheet.{ended, comma, line};
ghost use Rattle.text.specs.Spelled.{crlf};
ghost use Rattle.text.specs.Letter.{show_letter};
ghost use Rattle.text.specs.InnerWithin.{WroteWithin};
ghost use Rattle.explain_text.specs.Text.{period_text, factor_text, group_fields, all_fields, stands};
ghost use Rattle.explain_text.specs.Text.{group_line, group_lines, point_lines};
ghost use Rattle.explain_text.specs.InnerNumbers.{Addable, group_in, all_in};
ghost use Rattle.explain_text.specs.InnerRoom.{longest_letter, longest_period, longest_names, longest_pair};
ghost use Rattle.explain_text.specs.InnerRoom.{longest_factor, longest_amounts, longest_line, longest_groups};
ghost use Rattle.explain_text.specs.InnerRoom.{longest_point, names, pair, amounts_text};

use crate::amounts::{Amounts, all_amounts, group_amounts};
use movement::limits::GROUPS;
use text::inner::{put_any_number, put_byte, put_end, put_field, put_text, put_word};

// A comma, and the letter at a place among a few.
fn put_letter(out: &mut [u8], at: usize, letters: &[u8], n: usize) -> usize
    requires { (n < length letters.now) × (at + longest_letter ≤ length out.old) }
    ensures { WroteWithin longest_letter out.old at
        (comma ∷ show_letter letters.now n) out.new result }
{
    let next = put_byte(out, at, b',');
    put_byte(out, next, letters[n])
}

// A comma, and the period of a group.
fn put_period(out: &mut [u8], at: usize, g: usize) -> usize
    requires { at + longest_period ≤ length out.old }
    ensures { WroteWithin longest_period out.old at (comma ∷ period_text (group_period g))
        out.new result }
{
    match g % 3 {
        0 => put_word(out, at, b"day"),
        1 => put_word(out, at, b"evening"),
        _ => put_word(out, at, b"night"),
    }
}

// Type, kind and period of a group, each with its comma.
fn put_names(out: &mut [u8], at: usize, g: usize) -> usize
    requires { (g < group_count) × (at + longest_names ≤ length out.old) }
    ensures { WroteWithin longest_names out.old at (names g) out.new result }
{
    let kind = put_letter(out, at, b"GKH", g / 6);
    let period = put_letter(out, kind, b"SL", g % 6 / 3);
    put_period(out, period, g)
}

// A comma, and a factor, or nothing where its lower is 0.
fn put_factor(out: &mut [u8], at: usize, upper: u64, lower: u64) -> usize
    requires { at + longest_factor ≤ length out.old }
    ensures { WroteWithin longest_factor out.old at (comma ∷ factor_text upper lower)
        out.new result }
{
    if lower == 0 {
        return put_byte(out, at, b',');
    }
    let slash = put_field(out, at, upper);
    let next = put_byte(out, slash, b'/');
    put_any_number(out, next, lower)
}

// Two numbers, each with its comma.
fn put_pair(out: &mut [u8], at: usize, first: u64, second: u64) -> usize
    requires { at + longest_pair ≤ length out.old }
    ensures { WroteWithin longest_pair out.old at (pair first second) out.new result }
{
    let next = put_field(out, at, first);
    put_field(out, next, second)
}

// The amounts of a line, and its end.
fn put_amounts(out: &mut [u8], at: usize, a: Amounts) -> usize
    requires { at + longest_amounts ≤ length out.old }
    ensures { WroteWithin longest_amounts out.old at (amounts_text a) out.new result }
{
    let factor = put_pair(out, at, a.computed, a.missing);
    let energies = put_factor(out, factor, a.upper, a.lower);
    let end = put_pair(out, energies, a.energy, a.counted);
    put_end(out, end)
}

// The line of a group.
fn put_group(out: &mut [u8], at: usize, point: usize, g: usize, a: Amounts) -> usize
    requires { (point < max_points) × (g < group_count) × (at + longest_line ≤ length out.old) }
    ensures { WroteWithin longest_line out.old at (line (group_fields point g a) ++ crlf)
        out.new result }
{
    let number = put_any_number(out, at, (point + 1) as u64);
    let next = put_names(out, number, g);
    put_amounts(out, next, a)
}

// The line `all`.
fn put_all(out: &mut [u8], at: usize, point: usize, a: Amounts) -> usize
    requires { (point < max_points) × (at + longest_line ≤ length out.old) }
    ensures { WroteWithin longest_line out.old at (line (all_fields point a) ++ crlf)
        out.new result }
{
    let number = put_any_number(out, at, (point + 1) as u64);
    let next = put_text(out, number, b",all,,");
    put_amounts(out, next, a)
}

// Whether a group has a movement.
fn has_movement(a: Amounts) -> bool
    ensures { result ≡ stands a }
{
    a.computed != 0 || a.missing != 0
}

// The line of a group that has a movement; nothing of any other.
fn put_standing(out: &mut [u8], at: usize, point: usize, g: usize, a: Amounts) -> usize
    requires { (point < max_points) × (g < group_count) × (at + longest_line ≤ length out.old) }
    ensures { WroteWithin longest_line out.old at (ended (group_line point g a))
        out.new result }
{
    if has_movement(a) {
        return put_group(out, at, point, g, a);
    }
    at
}

// The lines of the groups of a point, from the numbers of its account.
fn put_groups(out: &mut [u8], at: usize, point: usize, numbers: &[u64; 78]) -> usize
    requires { (point < max_points) × Addable numbers.now × (at + longest_groups ≤ length out.old) }
    ensures { WroteWithin longest_groups out.old at
        (ended (group_lines point (group_in numbers.now) group_count)) out.new result }
{
    let mut next = at;
    for g in 0..GROUPS {
        next = put_standing(out, next, point, g, group_amounts(numbers, g));
    }
    next
}

// The lines of a point, from the numbers of its account.
pub(crate) fn put_point(out: &mut [u8], at: usize, point: usize, numbers: &[u64; 78]) -> usize
    requires { (point < max_points) × Addable numbers.now × (at + longest_point ≤ length out.old) }
    ensures { WroteWithin longest_point out.old at
        (ended (point_lines point (group_in numbers.now) (all_in numbers.now)))
        out.new result }
{
    let next = put_groups(out, at, point, numbers);
    put_all(out, next, point, all_amounts(numbers))
}
