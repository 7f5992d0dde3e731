// The load, its account and the verdict at a point of a book.
ghost use Rattle.std.specs.Prelude.{◌≡◌, ◌∷◌, [], ◌≤◌, ◌<◌, Ok, length, get_or};
ghost use Rattle.book_rules.specs.Columns.{book_lent};
ghost use Rattle.refusal.specs.Refusal.{told};
ghost use Rattle.load_rules.specs.Load.{book_load, load_told};
ghost use Rattle.load_rules.specs.Verdict.{refusal_number, book_verdict};
ghost use Rattle.load_rules.specs.Account.{account_of};
ghost use Rattle.room.specs.Room.{front, Writes};
ghost use Rattle.okubinrafo.specs.Loads.{load_size, numbers_from, load_numbers, verdict_numbers};

use load_rules::Load;
use movement::limits::GROUPS;
use refusal::{Refusal, told};

// Where V and U of the groups begin among the numbers of a load, and how many numbers there are.
const COMPUTED_FROM: usize = 3;

const MISSING_FROM: usize = COMPUTED_FROM + GROUPS as usize;

const LOAD_NUMBERS: usize = MISSING_FROM + GROUPS as usize;

// Number `k` of a load: total, whether a level is given, the level, V of the groups, U of the groups.
fn number_at(load: Load, k: usize) -> u64
    requires { k < load_size }
    ensures { result ≡ get_or (numbers_from load.total load.level load.counts) k 0 }
{
    match k {
        0 => load.total,
        1 => load.level.given() as u64,
        2 => load.level.value() as u64,
        COMPUTED_FROM..MISSING_FROM => load.counts[k - COMPUTED_FROM].computed as u64,
        _ => load.counts[k - MISSING_FROM].missing as u64,
    }
}

// Writes the numbers of a load to the front of a buffer.
fn put_numbers(load: Load, answer: &mut [u64])
    requires { load_size ≤ length answer.old }
    ensures { answer.new ≡ front (numbers_from load.total load.level load.counts) answer.old }
{
    for k in 0..LOAD_NUMBERS {
        answer[k] = number_at(load, k);
    }
}

// Writes a load in lent room, if it suffices.
fn put_load(load: Load, answer: &mut [u64]) -> Result<(), Refusal>
    ensures { Writes 0 (load_numbers (load_told (Ok load))) answer.old (told result) answer.new }
{
    if answer.len() < LOAD_NUMBERS {
        return Err(Refusal::TooLittleRoom);
    }
    put_numbers(load, answer);
    Ok(())
}

// The load at a point, as its numbers.
#[unsafe(no_mangle)]
pub extern "C" fn okubinrafo_load(
    identities: &[u32],
    groups: &[u32],
    marks: &[u32],
    counts: &[u32],
    levels: &[u32],
    points: u32,
    point: u32,
    days: u32,
    answer: &mut [u64],
) -> u32
    ensures { Writes
        (book_load points point (book_lent identities.now groups.now marks.now counts.now levels.now) days).refused
        (load_numbers
        (book_load points point (book_lent identities.now groups.now marks.now counts.now levels.now) days))
        answer.old result answer.new }
{
    let answered = load::load_at(
        identities,
        groups,
        marks,
        counts,
        levels,
        points as usize,
        point as usize,
        days,
    );
    match answered {
        Err(why) => why.number(),
        Ok(load) => told(put_load(load, answer)),
    }
}

// How the load at a point comes about, as its numbers.
#[unsafe(no_mangle)]
pub extern "C" fn okubinrafo_account(
    identities: &[u32],
    groups: &[u32],
    marks: &[u32],
    counts: &[u32],
    levels: &[u32],
    points: u32,
    point: u32,
    days: u32,
    answer: &mut [u64],
) -> u32
    ensures { Writes
        (book_load points point (book_lent identities.now groups.now marks.now counts.now levels.now) days).refused
        (account_of points point (book_lent identities.now groups.now marks.now counts.now levels.now) days)
        answer.old result answer.new }
{
    told(load::account::account_at(
        identities,
        groups,
        marks,
        counts,
        levels,
        points as usize,
        point as usize,
        days,
        answer,
    ))
}

// Writes one number in lent room, if there is any.
fn put_number(n: u32, room: &mut [u32]) -> Result<(), Refusal>
    ensures { Writes 0 (n ∷ []) room.old (told result) room.new }
{
    if room.is_empty() {
        return Err(Refusal::TooLittleRoom);
    }
    room[0] = n;
    Ok(())
}

// The verdict at a point, as one number: 1 over, 0 within.
#[unsafe(no_mangle)]
pub extern "C" fn okubinrafo_verdict(
    identities: &[u32],
    groups: &[u32],
    marks: &[u32],
    counts: &[u32],
    levels: &[u32],
    points: u32,
    point: u32,
    days: u32,
    limit: u32,
    answer: &mut [u32],
) -> u32
    ensures { Writes
        (refusal_number
        (book_verdict points point (book_lent identities.now groups.now marks.now counts.now levels.now) days
        limit))
        (verdict_numbers
        (book_verdict points point (book_lent identities.now groups.now marks.now counts.now levels.now) days
        limit))
        answer.old result answer.new }
{
    let judged = load::verdict_at(
        identities,
        groups,
        marks,
        counts,
        levels,
        points as usize,
        point as usize,
        days,
        limit,
    );
    match judged {
        Err(why) => why.number(),
        Ok(verdict) => told(put_number(verdict.number(), answer)),
    }
}
