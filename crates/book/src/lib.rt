// The calls on a book: RULES, "Movements and the book". Each checks that the book is sound and leaves the rest to
// `inner`.
#![tactic(auto)]

pub mod inner;
mod place;
mod refusals;
mod rows;

ghost use Rattle.refusal.specs.Refusal.{told};
ghost use Rattle.book_rules.specs.Columns.{book_lent};
ghost use Rattle.book_rules.specs.Calls.{Call, Called};

use refusal::Refusal;
use soundness::is_sound;

// Enters a movement, which counts where `given` says: its row goes in at its place, not computed.
pub fn enter(
    ids: &mut [u32],
    groups: &mut [u32],
    marks: &mut [u32],
    counts: &mut [u32],
    levels: &mut [u32],
    points: usize,
    identity: u32,
    ty: u32,
    kind: u32,
    time: u32,
    mass: u32,
    given: &[u32],
) -> Result<(), Refusal>
    ensures { Called points (book_lent ids.old groups.old marks.old counts.old levels.old)
        (Call.enter identity ty kind time mass given.now) (told result)
        (book_lent ids.new groups.new marks.new counts.new levels.new) }
{
    if !is_sound(ids, groups, marks, counts, levels, points) {
        return Err(Refusal::NotSound);
    }
    inner::enter(
        ids, groups, marks, counts, levels, points, identity, ty, kind, time, mass, given,
    )
}

// Supplies all levels of a standing movement, replacing earlier ones.
pub fn supply(
    ids: &[u32],
    groups: &[u32],
    marks: &mut [u32],
    counts: &[u32],
    levels: &mut [u32],
    points: usize,
    identity: u32,
    given: &[u32],
) -> Result<(), Refusal>
    ensures { Called points (book_lent ids.now groups.now marks.old counts.now levels.old)
        (Call.supply identity given.now) (told result)
        (book_lent ids.now groups.now marks.new counts.now levels.new) }
{
    if !is_sound(ids, groups, marks, counts, levels, points) {
        return Err(Refusal::NotSound);
    }
    inner::supply(ids, groups, marks, counts, levels, points, identity, given)
}

// Takes the levels of a movement back: it is no longer computed.
pub fn take_back(
    ids: &[u32],
    groups: &[u32],
    marks: &mut [u32],
    counts: &[u32],
    levels: &mut [u32],
    points: usize,
    identity: u32,
) -> Result<(), Refusal>
    ensures { Called points (book_lent ids.now groups.now marks.old counts.now levels.old)
        (Call.take_back identity) (told result)
        (book_lent ids.now groups.now marks.new counts.now levels.new) }
{
    if !is_sound(ids, groups, marks, counts, levels, points) {
        return Err(Refusal::NotSound);
    }
    inner::take_back(ids, groups, marks, counts, levels, points, identity)
}

// Withdraws a movement: later rows move down.
pub fn withdraw(
    ids: &mut [u32],
    groups: &mut [u32],
    marks: &mut [u32],
    counts: &mut [u32],
    levels: &mut [u32],
    points: usize,
    identity: u32,
) -> Result<(), Refusal>
    ensures { Called points (book_lent ids.old groups.old marks.old counts.old levels.old)
        (Call.withdraw identity) (told result)
        (book_lent ids.new groups.new marks.new counts.new levels.new) }
{
    if !is_sound(ids, groups, marks, counts, levels, points) {
        return Err(Refusal::NotSound);
    }
    inner::withdraw(ids, groups, marks, counts, levels, points, identity)
}
