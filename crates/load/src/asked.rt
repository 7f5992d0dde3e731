// What a load, its account and a verdict are asked of: the rows of a sound book, as they are lent, and a point of it.
ghost use Rattle.std.specs.Prelude.{◌≡◌, ◌<◌, true};
ghost use Rattle.book_rules.specs.Columns.{book_lent, sound};

use crate::{days_fit, point_fits};
use refusal::Refusal;

#[derive(Clone, Copy)]
pub(crate) struct Asked<'a> {
    pub(crate) ids: &'a [u32],
    pub(crate) groups: &'a [u32],
    pub(crate) marks: &'a [u32],
    pub(crate) counts: &'a [u32],
    pub(crate) levels: &'a [u32],
    pub(crate) points: usize,
    pub(crate) point: usize,
    pub ghost sound: { sound points (book_lent ids.now groups.now marks.now counts.now levels.now) ≡ true },
    pub ghost there: { point < points },
}

impl<'a> Asked<'a> {
    ghost use Rattle.std.specs.Prelude.{IfOk, ◌&&◌, nat_lt};
    ghost use Rattle.refusal.specs.Refusal.{told};
    ghost use Rattle.load.specs.InnerSteps.{asked_refusal, AskedOf};

    // 9 where the book isn't sound or the point asked for isn't there, and 11 for the days.
    pub(crate) fn of(
        ids: &'a [u32],
        groups: &'a [u32],
        marks: &'a [u32],
        counts: &'a [u32],
        levels: &'a [u32],
        points: usize,
        point: usize,
        days: u32,
    ) -> Result<Self, Refusal>
        ensures number { told result ≡ asked_refusal
            (sound points (book_lent ids.now groups.now marks.now counts.now levels.now) && nat_lt point points) days }
        ensures asked { IfOk result
            (AskedOf points point (book_lent ids.now groups.now marks.now counts.now levels.now)) }
    {
        if !point_fits(ids, groups, marks, counts, levels, points, point) {
            return Err(Refusal::NotSound);
        }
        if !days_fit(days) {
            return Err(Refusal::WrongDays);
        }
        Ok(Asked {
            ids,
            groups,
            marks,
            counts,
            levels,
            points,
            point,
        })
    }
}
