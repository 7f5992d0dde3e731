// How a load comes about: RULES, "Energy and load". The numbers are those that the load itself works with.
ghost use Rattle.std.specs.Prelude.{◌≡◌, ◌+◌, ◌<◌, ◌≤◌, true, length};
ghost use Rattle.movement.specs.Limits.{group_count};
ghost use Rattle.book_rules.specs.Columns.{book_lent};
ghost use Rattle.refusal.specs.Refusal.{told};
ghost use Rattle.room.specs.Room.{front, put, Writes};
ghost use Rattle.load_rules.specs.Factors.{ratio};
ghost use Rattle.load_rules.specs.Load.{days_fit, book_load};
ghost use Rattle.load_rules.specs.Account.{group_numbers, groups_to, whole_numbers, account_from, account_of};
ghost use Rattle.load_rules.specs.Account.{whole_from, account_size};
ghost use Rattle.load.specs.InnerSteps.{group_at, Scalable, Bounded, load_from};

use crate::asked::Asked;
use crate::sums::{Sums, Totals, none_computed, scaled_by, summed, totals_of};
use crate::tally::{group_at, groups_of};
use load_rules::{Group, Groups};
use movement::limits::GROUPS;
use refusal::Refusal;

// The groups' four numbers each, and those of the whole.
const WHOLE_FROM: usize = 4 * GROUPS;

const ACCOUNT_NUMBERS: usize = WHOLE_FROM + 6;

// How the load at a point of a book comes about, over a number of days.
pub fn account_at(
    ids: &[u32],
    groups: &[u32],
    marks: &[u32],
    counts: &[u32],
    levels: &[u32],
    points: usize,
    point: usize,
    days: u32,
    answer: &mut [u64],
) -> Result<(), Refusal>
    ensures { Writes
        (book_load points point (book_lent ids.now groups.now marks.now counts.now levels.now) days).refused
        (account_of points point (book_lent ids.now groups.now marks.now counts.now levels.now) days)
        answer.old (told result) answer.new }
{
    let asked = Asked::of(ids, groups, marks, counts, levels, points, point, days)?;
    put_account(groups_of(asked), days, answer)
}

// The account of groups that were tallied: refused as their load is.
fn put_account(groups: Groups, days: u32, answer: &mut [u64]) -> Result<(), Refusal>
    requires bounded { Bounded groups }
    requires days_value { days_fit days ≡ true }
    ensures { Writes (load_from (group_at groups) days).refused (account_from (group_at groups) days)
        answer.old (told result) answer.new }
{
    let sums = summed(groups);
    if none_computed(sums) {
        return Err(Refusal::NoneComputed);
    }
    if answer.len() < ACCOUNT_NUMBERS {
        return Err(Refusal::TooLittleRoom);
    }
    put_groups(groups, answer);
    put_whole(sums, totals_of(sums, days), answer);
    Ok(())
}

// Writes the numbers of all groups to the front.
fn put_groups(groups: Groups, answer: &mut [u64])
    requires bounded { Bounded groups }
    requires whole_from_in_bounds { whole_from ≤ length answer.old }
    ensures { answer.new ≡ front (groups_to (group_at groups) group_count) answer.old }
{
    for g in 0..GROUPS {
        put_group(group_at(groups, g), 4 * g, answer);
    }
}

// Writes V, U, S and the scaled energy of a group.
fn put_group(c: Group, at: usize, answer: &mut [u64])
    requires scalable { Scalable c.energy (c.computed + c.missing) c.computed }
    requires at_in_bounds { at + 4 ≤ length answer.old }
    ensures { answer.new ≡ put answer.old at (group_numbers c) }
{
    answer[at..at + 4].copy_from_slice(&[
        c.computed as u64,
        c.missing as u64,
        c.energy,
        scaled_by(c.energy, c.computed + c.missing, c.computed),
    ]);
}

// Writes the general factor, P, the total and the level behind the groups.
fn put_whole(s: Sums, t: Totals, answer: &mut [u64])
    requires scalable { Scalable s.scaled (s.known + s.unknown) s.known }
    requires account_size_in_bounds { account_size ≤ length answer.old }
    ensures { answer.new ≡ put answer.old whole_from
        (whole_numbers (ratio (s.known + s.unknown) s.known) s.scaled t.total t.level) }
{
    answer[WHOLE_FROM..ACCOUNT_NUMBERS].copy_from_slice(&[
        (s.known + s.unknown) as u64,
        s.known as u64,
        s.scaled,
        t.total,
        t.level.given() as u64,
        t.level.value() as u64,
    ]);
}
