// The report's text, put into a buffer that has room for the longest.
ghost use Rattle.std.specs.Prelude.{◌≡◌, ◌+◌, ◌<◌, ◌≤◌, ◌∷◌, ◌++◌, length};
ghost use Rattle.refusal.specs.Refusal.{told};
ghost use Rattle.level.specs.Level.{level_value, verdict_of};
ghost use Rattle.movement.specs.Limits.{max_points};
ghost use Rattle.book_rules.specs.Columns.{book_lent};
ghost use Rattle.load_rules.specs.Load.{load_told};
ghost use Rattle.room.specs.Room.{Wrote};
ghost use Rattle.text.specs.Sheet.{comma, line};
ghost use Rattle.text.specs.Spelled.{crlf};
ghost use Rattle.text.specs.Number.{show_number, show_level};
ghost use Rattle.report_text.specs.Totals.{all_computed, all_missing};
ghost use Rattle.report_text.specs.Text.{level_text, verdict_text, point_fields};
ghost use Rattle.report_text.specs.Text.{header_line, points_text, refused_to, book_refusal};
ghost use Rattle.report_text.specs.InnerRoom.{longest_word, longest_judged, longest_totals};
ghost use Rattle.report_text.specs.InnerRoom.{longest_point, header_size, longest_report};
ghost use Rattle.report_text.specs.InnerRoom.{LimitsFit, Reported};
ghost use Rattle.text.specs.InnerWithin.{WroteWithin};
ghost use Rattle.register.specs.LimitsFile.{accepted_limits};

use crate::totals::added_up;
use level::{Level, Verdict};
use load::load_at;
use load_rules::{Counts, Load};
use refusal::Refusal;
use register::limits_csv::Limits;
use text::inner::{
    put_any_level, put_any_number, put_byte, put_end, put_field, put_refused, put_text, put_word,
};

// A report: how many bytes it has, and whether the whole book is refused.
#[derive(Clone, Copy)]
pub struct Report {
    pub size: usize,
    pub outcome: Result<(), Refusal>,
}

// A comma, and a level or `below`.
fn put_rounded(out: &mut [u8], at: usize, level: Level) -> usize
    requires { (level_value level < 100000) × (at + longest_word ≤ length out.old) }
    ensures { WroteWithin longest_word out.old at (comma ∷ level_text level)
        out.new result }
{
    match level {
        Level::BelowZero => put_word(out, at, b"below"),
        Level::At(n) => put_limit(out, at, n),
    }
}

// A comma, and `over` or `within`.
fn put_verdict(out: &mut [u8], at: usize, verdict: Verdict) -> usize
    requires { at + longest_word ≤ length out.old }
    ensures { WroteWithin longest_word out.old at (comma ∷ verdict_text verdict)
        out.new result }
{
    match verdict {
        Verdict::Within => put_word(out, at, b"within"),
        Verdict::Over => put_word(out, at, b"over"),
    }
}

// A comma, and a limit.
fn put_limit(out: &mut [u8], at: usize, limit: u32) -> usize
    requires { (limit < 100000) × (at + longest_word ≤ length out.old) }
    ensures { WroteWithin longest_word out.old at (comma ∷ show_level limit)
        out.new result }
{
    let next = put_byte(out, at, b',');
    put_any_level(out, next, limit)
}

// What a point has: the rounded level, the limit and the verdict.
fn put_judged(out: &mut [u8], at: usize, level: Level, limit: u32) -> usize
    requires { (level_value level < 100000) × (limit < 100000) × (at + longest_judged ≤ length out.old) }
    ensures { WroteWithin longest_judged out.old at
        ((comma ∷ level_text level)
        ++ ((comma ∷ show_level limit) ++ (comma ∷ verdict_text (verdict_of level limit)))) out.new result }
{
    let rounded = put_rounded(out, at, level);
    let next = put_limit(out, rounded, limit);
    put_verdict(out, next, level::inner::judge(level, limit))
}

// Movements computed and movements without levels, and the end of the line.
fn put_totals(out: &mut [u8], at: usize, counts: [Counts; 18]) -> usize
    requires { at + longest_totals ≤ length out.old }
    ensures { WroteWithin longest_totals out.old at
        ((comma ∷ show_number (all_computed counts)) ++ ((comma ∷ show_number (all_missing counts)) ++ crlf))
        out.new result }
{
    let totals = added_up(&counts);
    let computed = put_field(out, at, totals.computed);
    let missing = put_field(out, computed, totals.missing);
    put_end(out, missing)
}

// The line of a point.
fn put_point(out: &mut [u8], at: usize, point: usize, load: Load, limit: u32) -> usize
    requires { (point < max_points) × (level_value load.level < 100000) × (limit < 100000)
        × (at + longest_point ≤ length out.old) }
    ensures { WroteWithin longest_point out.old at
        (line (point_fields point limit (load_told (Ok load))) ++ crlf) out.new result }
{
    let number = put_any_number(out, at, (point + 1) as u64);
    let judged = put_judged(out, number, load.level, limit);
    put_totals(out, judged, load.counts)
}

// The header.
fn put_header(out: &mut [u8]) -> usize
    requires { longest_report ≤ length out.old }
    ensures { WroteWithin header_size out.old 0 (header_line ++ crlf) out.new result }
{
    let next = put_text(out, 0, b"point,level,limit,verdict,computed,missing");
    put_end(out, next)
}

// The header, and the line of each point of a book that isn't refused.
fn put_points(
    out: &mut [u8],
    ids: &[u32],
    groups: &[u32],
    marks: &[u32],
    counts: &[u32],
    levels: &[u32],
    limits: Limits,
) -> usize
    requires limits_fit { LimitsFit (accepted_limits limits) × (longest_report ≤ length out.old) }
    requires answered { book_refusal (accepted_limits limits)
        (book_lent ids.now groups.now marks.now counts.now levels.now) ≡ 0 }
    ensures { Wrote out.old 0
        (points_text (accepted_limits limits) (book_lent ids.now groups.now marks.now counts.now levels.now))
        out.new result }
{
    let points = limits.points as usize;
    let days = limits.days;
    let limit = limits.limits;
    let mut at = put_header(out);
    for point in 0..points {
        if let Ok(load) = load_at(ids, groups, marks, counts, levels, points, point, days) {
            at = put_point(out, at, point, load, limit[point]);
        }
    }
    at
}

// Whether the whole book is refused: as the first of its points that is.
pub fn book_refusal(
    ids: &[u32],
    groups: &[u32],
    marks: &[u32],
    counts: &[u32],
    levels: &[u32],
    points: usize,
    days: u32,
) -> Result<(), Refusal>
    ensures { told result
        ≡ refused_to points days (book_lent ids.now groups.now marks.now counts.now levels.now) points }
{
    for point in 0..points {
        load_at(ids, groups, marks, counts, levels, points, point, days)?;
    }
    Ok(())
}

// The report of a book, at the front of a buffer.
pub fn put_report(
    out: &mut [u8],
    ids: &[u32],
    groups: &[u32],
    marks: &[u32],
    counts: &[u32],
    levels: &[u32],
    limits: Limits,
) -> Report
    requires { LimitsFit (accepted_limits limits) × (longest_report ≤ length out.old) }
    ensures { Reported (accepted_limits limits) (book_lent ids.now groups.now marks.now counts.now levels.now)
        out.old result out.new }
{
    let points = limits.points as usize;
    let outcome = book_refusal(ids, groups, marks, counts, levels, points, limits.days);
    let size = match outcome {
        Ok(()) => put_points(out, ids, groups, marks, counts, levels, limits),
        Err(why) => put_refused(out, why.number(), 0),
    };
    Report { size, outcome }
}
