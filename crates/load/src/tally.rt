// The tally of a book's rows: V, U and S of each group at one point.
ghost use Rattle.std.specs.Prelude.{◌≡◌, ◌+◌, ◌<◌, ◌≤◌, true, [], ◌∷◌};
ghost use Rattle.movement.specs.Limits.{max_level, group_count};
ghost use Rattle.load_rules.specs.Tally.{tally};
ghost use Rattle.load.specs.InnerSteps.{table, group_at, flat, flat_at, Tables, RoomForOne, with_row, shares_asked};

use crate::asked::Asked;
use load_rules::{Group, Groups};
use movement::limits::GROUPS;

// No movement in any group.
fn no_groups() -> Groups
    ensures { result ≡ table (tally []) }
{
    let none = Group {
        computed: 0,
        missing: 0,
        energy: 0,
    };
    [[[none; 3]; 2]; 3]
}

// A group by its number.
pub(crate) fn group_at(groups: Groups, g: usize) -> Group
    requires { g < group_count }
    ensures { result ≡ group_at groups g }
{
    groups[g / 6][g % 6 / 3][g % 3]
}

// A group with one row of it more that counts at the point, by table A and the powers of ten.
fn with_row(
    a: &[u64; 1000],
    powers: &[u64; 14],
    seen: Group,
    group: u32,
    mark: u32,
    level: u32,
) -> Group
    requires room_for_one { (RoomForOne seen) × (group < group_count) × (level ≤ max_level) }
    requires tables { Tables a.now powers.now }
    ensures { result ≡ with_row seen group mark level }
{
    if mark == 0 {
        return Group {
            missing: seen.missing + 1,
            ..seen
        };
    }
    let e = level::inner::energy(a, powers, level + movement::inner::group_weight(group));
    Group {
        computed: seen.computed + 1,
        energy: seen.energy + e,
        ..seen
    }
}

// The groups side by side, by number.
fn side_by_side(groups: Groups) -> [Group; GROUPS]
    ensures { result ≡ flat (group_at groups) }
{
    let none = Group {
        computed: 0,
        missing: 0,
        energy: 0,
    };
    let mut cells = [none; GROUPS];
    for g in 0..GROUPS {
        cells[g] = group_at(groups, g);
    }
    cells
}

// The three periods from group g on, of groups side by side.
fn periods_from(cells: [Group; GROUPS], g: usize) -> [Group; 3]
    requires { g + 2 < group_count }
    ensures { result ≡ flat_at cells g ∷ flat_at cells (g + 1) ∷ flat_at cells (g + 2) ∷ [] }
{
    [cells[g], cells[g + 1], cells[g + 2]]
}

// Groups side by side as type by kind by period.
fn arranged(cells: [Group; GROUPS]) -> Groups
    ensures { result ≡ table (flat_at cells) }
{
    [
        [periods_from(cells, 0), periods_from(cells, 3)],
        [periods_from(cells, 6), periods_from(cells, 9)],
        [periods_from(cells, 12), periods_from(cells, 15)],
    ]
}

// The groups with all rows that count at the point. Side by side, a row finds its group at one place.
fn with_rows(
    start: [Group; GROUPS],
    a: &[u64; 1000],
    powers: &[u64; 14],
    asked: Asked<'_>,
) -> [Group; GROUPS]
    requires { (start ≡ flat (tally [])) × (Tables a.now powers.now) }
    ensures { result ≡ flat (tally (shares_asked asked.entry)) }
{
    let Asked {
        ids,
        groups,
        marks,
        counts,
        levels,
        points,
        point,
    } = asked;
    let mut cells = start;
    for i in 0..ids.len() {
        let at = i * points + point;
        if counts[at] != 0 {
            let group = groups[i];
            let g = group as usize;
            cells[g] = with_row(a, powers, cells[g], group, marks[i], levels[at]);
        }
    }
    cells
}

// The same of the groups as they travel: they come in once and go out once.
fn tallied(start: Groups, a: &[u64; 1000], powers: &[u64; 14], asked: Asked<'_>) -> Groups
    requires { (start ≡ table (tally [])) × (Tables a.now powers.now) }
    ensures { result ≡ table (tally (shares_asked asked.entry)) }
{
    arranged(with_rows(side_by_side(start), a, powers, asked))
}

// The groups of what is asked.
pub(crate) fn groups_of(asked: Asked<'_>) -> Groups
    ensures { result ≡ table (tally (shares_asked asked.entry)) }
{
    let a = level::tables::table_a();
    let powers = level::tables::powers();
    tallied(no_groups(), &a, &powers, asked)
}
