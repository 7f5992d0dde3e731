// The text of how each load comes about, put into a buffer that has room for the longest.
ghost use Rattle.std.specs.Prelude.{◌≡◌, ◌+◌, ◌<◌, ◌≤◌, ◌++◌, length};
ghost use Rattle.movement.specs.Limits.{max_points};
ghost use Rattle.book_rules.specs.Columns.{book_lent};
ghost use Rattle.load_rules.specs.Load.{book_load};
ghost use Rattle.room.specs.Room.{Wrote};
ghost use Rattle.report_text.specs.Text.{book_refusal};
ghost use Rattle.report_text.specs.InnerRoom.{LimitsFit};
ghost use Rattle.text.specs.Sheet.{ended};
ghost use Rattle.text.specs.Spelled.{crlf};
ghost use Rattle.text.specs.InnerWithin.{WroteWithin};
ghost use Rattle.explain_text.specs.Text.{header_line, lines_at, points_text};
ghost use Rattle.explain_text.specs.InnerRoom.{longest_point, header_size, longest_text, Explained};
ghost use Rattle.register.specs.LimitsFile.{accepted_limits};

use crate::lines::put_point;
use load::account::account_at;
use register::limits_csv::Limits;
use report_text::inner::{Report, book_refusal};
use text::inner::{put_end, put_refused, put_text};

// The bytes of the longest text: the header, and at eight points nineteen lines of at most 160 bytes.
pub const LONGEST_TEXT: usize = 24_383;

// The header.
fn put_header(out: &mut [u8]) -> usize
    requires { longest_text ≤ length out.old }
    ensures { WroteWithin header_size out.old 0 (header_line ++ crlf) out.new result }
{
    let next = put_text(
        out,
        0,
        b"point,type,kind,period,computed,missing,factor,energy,counted",
    );
    put_end(out, next)
}

// The lines of a point of a book whose load is answered there.
fn put_answered(
    out: &mut [u8],
    at: usize,
    ids: &[u32],
    groups: &[u32],
    marks: &[u32],
    counts: &[u32],
    levels: &[u32],
    points: usize,
    point: usize,
    days: u32,
) -> usize
    requires point_lt_max_points { (point < max_points) × (at + longest_point ≤ length out.old) }
    requires days_value { (book_load points point
        (book_lent ids.now groups.now marks.now counts.now levels.now) days).refused ≡ 0 }
    ensures { WroteWithin longest_point out.old at
        (ended (lines_at points point (book_lent ids.now groups.now marks.now counts.now levels.now))) out.new result }
{
    let mut numbers = [0u64; 78];
    match account_at(
        ids,
        groups,
        marks,
        counts,
        levels,
        points,
        point,
        days,
        &mut numbers,
    ) {
        Ok(()) => put_point(out, at, point, &numbers),
        Err(_) => at,
    }
}

// The header, and the lines of each point.
fn put_points(
    out: &mut [u8],
    ids: &[u32],
    groups: &[u32],
    marks: &[u32],
    counts: &[u32],
    levels: &[u32],
    limits: Limits,
) -> usize
    requires limits_fit { LimitsFit (accepted_limits limits) × (longest_text ≤ length out.old) }
    requires levels_value { book_refusal (accepted_limits limits)
        (book_lent ids.now groups.now marks.now counts.now levels.now) ≡ 0 }
    ensures { Wrote out.old 0
        (points_text (accepted_limits limits) (book_lent ids.now groups.now marks.now counts.now levels.now))
        out.new result }
{
    let points = limits.points as usize;
    let days = limits.days;
    let mut at = put_header(out);
    for point in 0..points {
        at = put_answered(
            out, at, ids, groups, marks, counts, levels, points, point, days,
        );
    }
    at
}

// How the loads of a book come about, at the front of a buffer.
pub fn put_explained(
    out: &mut [u8],
    ids: &[u32],
    groups: &[u32],
    marks: &[u32],
    counts: &[u32],
    levels: &[u32],
    limits: Limits,
) -> Report
    requires { LimitsFit (accepted_limits limits) × (longest_text ≤ length out.old) }
    ensures { Explained (accepted_limits limits) (book_lent ids.now groups.now marks.now counts.now levels.now)
        out.old result out.new }
{
    let points = limits.points as usize;
    let outcome = book_refusal(ids, groups, marks, counts, levels, points, limits.days);
    let size = match outcome {
        Ok(()) => put_points(out, ids, groups, marks, counts, levels, limits),
        Err(why) => put_refused(out, why.number(), 0),
    };
    Report { size, outcome }
}
