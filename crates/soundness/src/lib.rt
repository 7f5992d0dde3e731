// When the lent columns are a sound book.
#![tactic(auto)]

ghost use Rattle.std.specs.Prelude.{◌≡◌, true, cond, ◌*◌, length, eqb};
ghost use Rattle.refusal.specs.Range.{all_within};
ghost use Rattle.book_rules.specs.Columns.{shape_fits, rising, follows, head_sound, top_level, cells_sound, row_sound};
ghost use Rattle.book_rules.specs.Columns.{rows_sound, book_lent, sound};

use movement::limits::{GROUPS, MAX_COUNT, MAX_IDENTITY, MAX_LEVEL, MAX_POINTS, MAX_ROWS};

// Whether points and rows are in range and the columns fit, by their lengths.
fn shape_fits(
    points: usize,
    rows: usize,
    groups: usize,
    marks: usize,
    counts: usize,
    levels: usize,
) -> bool
    ensures { result ≡ shape_fits points rows groups marks counts levels }
{
    (1..=MAX_POINTS).contains(&points)
        && (1..=MAX_ROWS).contains(&rows)
        && groups == rows
        && marks == rows
        && counts == rows * points
        && levels == rows * points
}

// Whether one identity may stand right after another.
fn may_follow(before: u32, after: u32) -> bool
    ensures { result ≡ follows before after }
{
    match (before, after) {
        (_, 0) => true,
        (0, _) => false,
        _ => before < after,
    }
}

// Whether identities rise with no gap and unused rows come last.
fn identities_rise(ids: &[u32]) -> bool
    ensures { result ≡ rising ids.now }
{
    ids.is_sorted_by(|before, after| may_follow(*before, *after))
}

// Whether identity, group and mark go together.
fn head_sound(x: u32, g: u32, m: u32) -> bool
    ensures { result ≡ head_sound x g m }
{
    if x == 0 {
        g == 0 && m == 0
    } else {
        x <= MAX_IDENTITY && g < GROUPS as u32 && m <= 1
    }
}

// The highest level where this says yes or no: a row's mark, or whether it counts at a point.
fn top_level(says: u32) -> u32
    ensures { result ≡ top_level says }
{
    if says == 0 { 0 } else { MAX_LEVEL }
}

// Whether what rows have at each point would be sound in rows that are used and computed. It reads all of it, since a
// book is mostly sound and a loop that never ends early is much quicker.
fn cells_sound(counts: &[u32], levels: &[u32]) -> bool
    requires { length levels.now ≡ length counts.now }
    ensures { result ≡ cells_sound 1 1 counts.now levels.now }
{
    counts
        .iter()
        .zip(levels)
        .fold(true, |sound, (count, level)| {
            sound & (*count <= MAX_COUNT) & (*level <= top_level(*count))
        })
}

// Whether no level is over `top`. It reads them all: to pass over the rows that may have levels costs more.
fn row_within(levels: &[u32], top: u32) -> bool
    ensures { result ≡ all_within top levels.now }
{
    levels
        .iter()
        .fold(true, |within, level| within & (*level <= top))
}

// Whether all values are zero, where `says` is.
fn zero_with(says: u32, values: &[u32]) -> bool
    ensures { result ≡ cond (eqb says 0) (all_within 0 values.now) true }
{
    says != 0 || refusal::all_within(values, 0)
}

// Whether one row is sound by itself, where what it has at each point would be in a row that is used and computed.
fn row_sound(x: u32, g: u32, m: u32, counts: &[u32], levels: &[u32]) -> bool
    requires { cells_sound 1 1 counts.now levels.now ≡ true }
    ensures { result ≡ row_sound x g m counts.now levels.now }
{
    head_sound(x, g, m) && zero_with(x, counts) && row_within(levels, top_level(m))
}

// Whether every row is sound by itself, where what rows have at each point would be if all were used and computed.
fn rows_sound(
    ids: &[u32],
    groups: &[u32],
    marks: &[u32],
    counts: &[u32],
    levels: &[u32],
    points: usize,
) -> bool
    requires groups_len { length groups.now ≡ length ids.now }
    requires marks_len { length marks.now ≡ length ids.now }
    requires counts_len { length counts.now ≡ length ids.now * points }
    requires levels_len { length levels.now ≡ length ids.now * points }
    requires levels_value { cells_sound 1 1 counts.now levels.now ≡ true }
    ensures { result ≡ rows_sound points ids.now groups.now marks.now counts.now levels.now }
{
    for (row, x) in ids.iter().enumerate() {
        let start = row * points;
        let end = start + points;
        if !row_sound(
            *x,
            groups[row],
            marks[row],
            &counts[start..end],
            &levels[start..end],
        ) {
            return false;
        }
    }
    true
}

// Whether the book is sound.
pub fn is_sound(
    ids: &[u32],
    groups: &[u32],
    marks: &[u32],
    counts: &[u32],
    levels: &[u32],
    points: usize,
) -> bool
    ensures { result ≡ sound points (book_lent ids.now groups.now marks.now counts.now levels.now) }
{
    shape_fits(
        points,
        ids.len(),
        groups.len(),
        marks.len(),
        counts.len(),
        levels.len(),
    ) && identities_rise(ids)
        && cells_sound(counts, levels)
        && rows_sound(ids, groups, marks, counts, levels, points)
}
