// Replays a journal: a whole sequence of calls, given as numbers, on lent columns, with each call's answer written to a
// lent slice. Soundness is checked once.
#![tactic(auto)]

mod making;
mod numbers;

ghost use Rattle.std.specs.Prelude.{◌≡◌, ◌≤◌, true, length};
ghost use Rattle.refusal.specs.Refusal.{told};
ghost use Rattle.book_rules.specs.Columns.{book_lent, sound};
ghost use Rattle.book_rules.specs.History.{booked, answered};
ghost use Rattle.room.specs.Room.{front};
ghost use Rattle.journal.specs.Journal.{laid_out, calls_of, calls_for, replay_refusal, Replayed};

use making::make_call;
use numbers::{count_calls, is_laid_out, width_of};
use refusal::{Refusal, told};
use soundness::is_sound;

// 16, then 9, then 14.
fn replay_refusal(
    ids: &[u32],
    groups: &[u32],
    marks: &[u32],
    counts: &[u32],
    levels: &[u32],
    points: usize,
    journal: &[u32],
    room: usize,
) -> Result<(), Refusal>
    ensures { told result
        ≡ replay_refusal points (book_lent ids.now groups.now marks.now counts.now levels.now) journal.now room }
{
    if !is_laid_out(journal) {
        return Err(Refusal::OffLayout);
    }
    if !is_sound(ids, groups, marks, counts, levels, points) {
        return Err(Refusal::NotSound);
    }
    if room < count_calls(journal) {
        return Err(Refusal::TooLittleRoom);
    }
    Ok(())
}

// Makes every call of a journal on the layout, on a sound book, with room for every answer.
fn run(
    ids: &mut [u32],
    groups: &mut [u32],
    marks: &mut [u32],
    counts: &mut [u32],
    levels: &mut [u32],
    points: usize,
    journal: &[u32],
    answers: &mut [u32],
)
    requires levels_value { sound points (book_lent ids.old groups.old marks.old counts.old levels.old) ≡ true }
    requires journal_value { laid_out journal.now ≡ true }
    requires journal_in_bounds { length (calls_of journal.now) ≤ length answers.old }
    ensures book_of_calls { book_lent ids.new groups.new marks.new counts.new levels.new
        ≡ booked (book_lent ids.old groups.old marks.old counts.old levels.old) (calls_for points journal.now) }
    ensures answers_of_calls { answers.new
        ≡ front (answered (book_lent ids.old groups.old marks.old counts.old levels.old) (calls_for points journal.now))
        answers.old }
{
    let mut rest = journal;
    let mut made = 0;
    // Kept: (d) how long a call is is read in it, so the rest is found in each turn.
    while !rest.is_empty() {
        let answer = make_call(ids, groups, marks, counts, levels, points, rest);
        answers[made] = told(answer);
        made += 1;
        rest = &rest[width_of(rest)..];
    }
}

// Replays a journal: the columns and the answers become those of the sequence of calls.
pub fn replay(
    ids: &mut [u32],
    groups: &mut [u32],
    marks: &mut [u32],
    counts: &mut [u32],
    levels: &mut [u32],
    points: usize,
    journal: &[u32],
    answers: &mut [u32],
) -> Result<(), Refusal>
    ensures { Replayed points (book_lent ids.old groups.old marks.old counts.old levels.old) journal.now
        answers.old (told result) (book_lent ids.new groups.new marks.new counts.new levels.new) answers.new }
{
    replay_refusal(
        ids,
        groups,
        marks,
        counts,
        levels,
        points,
        journal,
        answers.len(),
    )?;
    run(ids, groups, marks, counts, levels, points, journal, answers);
    Ok(())
}
