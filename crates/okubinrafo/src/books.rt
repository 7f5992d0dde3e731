// The calls on a book, and a journal of them.
ghost use Rattle.book_rules.specs.Columns.{book_lent};
ghost use Rattle.book_rules.specs.Calls.{Call, Called};
ghost use Rattle.journal.specs.Journal.{Replayed};

use refusal::told;

// A movement goes into the book at its place, not computed; `given` says for each point whether it counts there.
#[unsafe(no_mangle)]
pub extern "C" fn okubinrafo_enter(
    identities: &mut [u32],
    groups: &mut [u32],
    marks: &mut [u32],
    counts: &mut [u32],
    levels: &mut [u32],
    points: u32,
    identity: u32,
    ty: u32,
    kind: u32,
    time: u32,
    mass: u32,
    given: &[u32],
) -> u32
    ensures { Called points (book_lent identities.old groups.old marks.old counts.old levels.old)
        (Call.enter identity ty kind time mass given.now) result
        (book_lent identities.new groups.new marks.new counts.new levels.new) }
{
    told(book::enter(
        identities,
        groups,
        marks,
        counts,
        levels,
        points as usize,
        identity,
        ty,
        kind,
        time,
        mass,
        given,
    ))
}

// All levels of a standing movement, replacing earlier ones.
#[unsafe(no_mangle)]
pub extern "C" fn okubinrafo_supply(
    identities: &[u32],
    groups: &[u32],
    marks: &mut [u32],
    counts: &[u32],
    levels: &mut [u32],
    points: u32,
    identity: u32,
    given: &[u32],
) -> u32
    ensures { Called points (book_lent identities.now groups.now marks.old counts.now levels.old)
        (Call.supply identity given.now) result (book_lent identities.now groups.now marks.new counts.now levels.new) }
{
    told(book::supply(
        identities,
        groups,
        marks,
        counts,
        levels,
        points as usize,
        identity,
        given,
    ))
}

// A movement is no longer computed.
#[unsafe(no_mangle)]
pub extern "C" fn okubinrafo_take_back(
    identities: &[u32],
    groups: &[u32],
    marks: &mut [u32],
    counts: &[u32],
    levels: &mut [u32],
    points: u32,
    identity: u32,
) -> u32
    ensures { Called points (book_lent identities.now groups.now marks.old counts.now levels.old)
        (Call.take_back identity) result
        (book_lent identities.now groups.now marks.new counts.now levels.new) }
{
    told(book::take_back(
        identities,
        groups,
        marks,
        counts,
        levels,
        points as usize,
        identity,
    ))
}

// A movement goes out of the book.
#[unsafe(no_mangle)]
pub extern "C" fn okubinrafo_withdraw(
    identities: &mut [u32],
    groups: &mut [u32],
    marks: &mut [u32],
    counts: &mut [u32],
    levels: &mut [u32],
    points: u32,
    identity: u32,
) -> u32
    ensures { Called points (book_lent identities.old groups.old marks.old counts.old levels.old)
        (Call.withdraw identity) result
        (book_lent identities.new groups.new marks.new counts.new levels.new) }
{
    told(book::withdraw(
        identities,
        groups,
        marks,
        counts,
        levels,
        points as usize,
        identity,
    ))
}

// A journal: calls one after the other as numbers, with an answer for each.
#[unsafe(no_mangle)]
pub extern "C" fn okubinrafo_replay(
    identities: &mut [u32],
    groups: &mut [u32],
    marks: &mut [u32],
    counts: &mut [u32],
    levels: &mut [u32],
    points: u32,
    journal: &[u32],
    answers: &mut [u32],
) -> u32
    ensures { Replayed points (book_lent identities.old groups.old marks.old counts.old levels.old) journal.now
        answers.old result (book_lent identities.new groups.new marks.new counts.new levels.new) answers.new }
{
    told(journal::replay(
        identities,
        groups,
        marks,
        counts,
        levels,
        points as usize,
        journal,
        answers,
    ))
}
