// Where an identity stands, and where a new one goes: a binary search, since identities rise and unused rows come last.
ghost use Rattle.std.specs.Prelude.{◌≡◌, ◌≤◌, true, ◌||◌, ◌==◌, nat_le};
ghost use Rattle.refusal.specs.Range.{all_within};
ghost use Rattle.movement.specs.Limits.{max_identity};
ghost use Rattle.book_rules.specs.Columns.{rising, index_of, stands, place_of};
ghost use Rattle.book_rules.specs.InnerRows.{Placed};

use movement::limits::MAX_IDENTITY;

// Whether the identity x goes before a row of identity y, or is that row's.
fn goes_before(x: u32, y: u32) -> bool
    ensures { result ≡ (y == 0 || nat_le x y) }
{
    y == 0 || x <= y
}

// The place of identity x: the first row that is unused or not lower, or the number of rows.
pub(crate) fn place_of(ids: &[u32], x: u32) -> usize
    requires { rising ids.now ≡ true }
    ensures { result ≡ place_of x ids.now }
{
    ids.partition_point(|y| !goes_before(x, *y))
}

// How many rows stand: the place of an identity that no row has.
pub(crate) fn standing_rows(ids: &[u32]) -> usize
    requires ids_value { rising ids.now ≡ true }
    requires ids_value_2 { all_within max_identity ids.now ≡ true }
    ensures { result ≡ index_of 0 ids.now }
{
    place_of(ids, MAX_IDENTITY + 1)
}

// Whether the identity x, whose place is `at`, stands.
pub(crate) fn stands_at(ids: &[u32], at: usize, x: u32) -> bool
    requires placed { Placed ids.now at x }
    requires le_x { 1 ≤ x }
    ensures { result ≡ stands x ids.now }
{
    at < ids.len() && ids[at] == x
}
