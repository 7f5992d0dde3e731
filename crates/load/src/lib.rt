// The load and the verdict at a point of a book: RULES, "Energy and load".
#![tactic(auto)]

pub mod account;
mod asked;
mod sums;
mod tally;

ghost use Rattle.std.specs.Prelude.{◌≡◌, true, ◌&&◌, nat_lt};
ghost use Rattle.book_rules.specs.Columns.{book_lent, sound};
ghost use Rattle.load_rules.specs.Load.{days_fit, load_of, book_load, load_told};
ghost use Rattle.load_rules.specs.Told.{judged_told};
ghost use Rattle.load_rules.specs.Verdict.{Judging};
ghost use Rattle.load.specs.InnerSteps.{group_at, Bounded, load_from, shares_asked};

use crate::asked::Asked;
use level::Verdict;
use load_rules::{Groups, Load};
use movement::limits::{MAX_DAYS, MAX_LIMIT};
use refusal::Refusal;
use sums::{counts_of, none_computed, summed, totals_of};
use tally::groups_of;

// The load at a point of a book, over a number of days.
pub fn load_at(
    ids: &[u32],
    groups: &[u32],
    marks: &[u32],
    counts: &[u32],
    levels: &[u32],
    points: usize,
    point: usize,
    days: u32,
) -> Result<Load, Refusal>
    ensures { load_told result
        ≡ book_load points point (book_lent ids.now groups.now marks.now counts.now levels.now) days }
{
    let asked = Asked::of(ids, groups, marks, counts, levels, points, point, days)?;
    load_of(asked, days)
}

// The verdict on the load at a point of a book.
pub fn verdict_at(
    ids: &[u32],
    groups: &[u32],
    marks: &[u32],
    counts: &[u32],
    levels: &[u32],
    points: usize,
    point: usize,
    days: u32,
    limit: u32,
) -> Result<Verdict, Refusal>
    ensures { Judging points point (book_lent ids.now groups.now marks.now counts.now levels.now) days limit
        (judged_told result) }
{
    let asked = Asked::of(ids, groups, marks, counts, levels, points, point, days)?;
    if MAX_LIMIT < limit {
        return Err(Refusal::WrongLevelAsked);
    }
    let load = load_of(asked, days)?;
    Ok(level::inner::judge(load.level, limit))
}

// Whether the book is sound and the point asked for is there.
pub(crate) fn point_fits(
    ids: &[u32],
    groups: &[u32],
    marks: &[u32],
    counts: &[u32],
    levels: &[u32],
    points: usize,
    point: usize,
) -> bool
    ensures { result
        ≡ (sound points (book_lent ids.now groups.now marks.now counts.now levels.now) && nat_lt point points) }
{
    soundness::is_sound(ids, groups, marks, counts, levels, points) && point < points
}

pub(crate) fn days_fit(days: u32) -> bool
    ensures { result ≡ days_fit days }
{
    (1..=MAX_DAYS).contains(&days)
}

// The load where neither 9 nor 11 is given.
fn load_of(asked: Asked<'_>, days: u32) -> Result<Load, Refusal>
    requires { days_fit days ≡ true }
    ensures { load_told result ≡ load_of true (shares_asked asked.entry) days }
{
    answer_from(groups_of(asked), days)
}

// The load of groups that were tallied: refused where movements count at the point and none of them is computed.
fn answer_from(groups: Groups, days: u32) -> Result<Load, Refusal>
    requires bounded { Bounded groups }
    requires days_value { days_fit days ≡ true }
    ensures { load_told result ≡ load_from (group_at groups) days }
{
    let sums = summed(groups);
    if none_computed(sums) {
        return Err(Refusal::NoneComputed);
    }
    let totals = totals_of(sums, days);
    Ok(Load {
        total: totals.total,
        level: totals.level,
        counts: counts_of(groups),
    })
}
