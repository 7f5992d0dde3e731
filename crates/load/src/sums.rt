// Sums over the 18 groups.
ghost use Rattle.std.specs.Prelude.{◌≡◌, ◌+◌, true, ◌&&◌, ◌==◌, nat_lt};
ghost use Rattle.movement.specs.Limits.{group_count};
ghost use Rattle.load_rules.specs.Tally.{list_from};
ghost use Rattle.load_rules.specs.Factors.{ratio, scaled_by};
ghost use Rattle.load_rules.specs.Load.{counts_of, days_fit};
ghost use Rattle.load.specs.InnerSteps.{group_at, Scalable, Bounded, Fitting, sums_of, added_to, totals_of};

use crate::tally::group_at;
use level::Level;
use load_rules::{Counts, Group, Groups};
use movement::limits::GROUPS;

// P, V + U over the groups with computed movements, and W.
#[derive(Clone, Copy)]
pub(crate) struct Sums {
    pub(crate) scaled: u64,
    pub(crate) known: u32,
    pub(crate) unknown: u32,
}

// The total of a load, and its level.
#[derive(Clone, Copy)]
pub(crate) struct Totals {
    pub(crate) total: u64,
    pub(crate) level: Level,
}

// An energy times a factor, rounded down; a lower of 0 never divides.
pub(crate) fn scaled_by(energy: u64, upper: u32, lower: u32) -> u64
    requires { Scalable energy upper lower }
    ensures { result ≡ scaled_by (ratio upper lower) energy }
{
    if lower == 0 {
        return 0;
    }
    level::inner::scaled(energy, upper, lower)
}

// The sums with one group more: the U of a group with none computed go into W.
fn added_to(s: Sums, c: Group) -> Sums
    requires { Fitting s c }
    ensures { result ≡ added_to s c }
{
    let all = c.computed + c.missing;
    let scaled = s.scaled + scaled_by(c.energy, all, c.computed);
    if c.computed == 0 {
        let unknown = s.unknown + c.missing;
        return Sums {
            scaled,
            unknown,
            ..s
        };
    }
    let known = s.known + all;
    Sums { scaled, known, ..s }
}

// The sums over all groups.
pub(crate) fn summed(groups: Groups) -> Sums
    requires { Bounded groups }
    ensures { result ≡ sums_of (group_at groups) group_count }
{
    let mut s = Sums {
        scaled: 0,
        known: 0,
        unknown: 0,
    };
    for g in 0..GROUPS {
        s = added_to(s, group_at(groups, g));
    }
    s
}

// Whether the groups have movements and none of them is computed.
pub(crate) fn none_computed(s: Sums) -> bool
    ensures { result ≡ (s.known == 0 && nat_lt 0 s.unknown) }
{
    s.known == 0 && 0 < s.unknown
}

// The total over a number of days: P by the general factor.
pub(crate) fn totals_of(s: Sums, days: u32) -> Totals
    requires scalable { Scalable s.scaled (s.known + s.unknown) s.known }
    requires days_value { days_fit days ≡ true }
    ensures { result ≡ totals_of s days }
{
    let total = scaled_by(s.scaled, s.known + s.unknown, s.known);
    let level = level::inner::level_of(level::inner::mean(total, days));
    Totals { total, level }
}

// V and U of each group, by its number.
pub(crate) fn counts_of(groups: Groups) -> [Counts; GROUPS]
    ensures { result ≡ list_from (λ g. counts_of (group_at groups g)) 0 group_count }
{
    let none = Counts {
        computed: 0,
        missing: 0,
    };
    let mut flat = [none; GROUPS];
    for g in 0..GROUPS {
        let c = group_at(groups, g);
        flat[g] = Counts {
            computed: c.computed,
            missing: c.missing,
        };
    }
    flat
}
