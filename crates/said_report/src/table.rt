// The columns of a register and of limits.csv: their names, and what may stand in one.
use movement::limits::MAX_LEVEL;
use register::column::{IDENTITY, KIND, LEVELS, MASS, TIME, TYPE};
use said::part::is_digits;
use said::row::Row;

// Whose columns.
#[derive(Clone, Copy)]
pub enum Table {
    Register,
    LimitsFile,
}

// More columns than a row has, each level cut in two: none is looked for past them.
pub(crate) const MAX_LOOKED: usize = 24;

// Whether a text is one letter of a few.
fn is_letter(t: &[u8], letters: &[u8]) -> bool {
    t.len() == 1 && letters.contains(&t[0])
}

// Whether a text may stand in column k of a register's row.
fn fits_row(t: &[u8], k: usize) -> bool {
    match k {
        IDENTITY | MASS => text::number::whole(t).is_some(),
        TYPE => is_letter(t, b"GKH"),
        KIND => is_letter(t, b"SL"),
        TIME => text::clock::time(t).is_some(),
        _ => t.is_empty() || text::number::level(t).is_some(),
    }
}

// Whether a text may stand in column k of a row of limits.csv.
fn fits_limits(t: &[u8], k: usize) -> bool {
    if k == 0 {
        text::number::whole(t).is_some()
    } else {
        text::number::level(t).is_some()
    }
}

impl Table {
    // The header, as long as it may be.
    fn header(self) -> &'static [u8] {
        match self {
            Table::Register => b"id,type,mtow,kind,time,l1,l2,l3,l4,l5,l6,l7,l8",
            Table::LimitsFile => b"days,p1,p2,p3,p4,p5,p6,p7,p8",
        }
    }

    // A line beside its header.
    pub(crate) fn row(self, line: &[u8]) -> Row<'_> {
        Row {
            header: self.header(),
            line,
        }
    }

    // The column where levels begin.
    pub(crate) fn levels_from(self) -> usize {
        match self {
            Table::Register => LEVELS,
            Table::LimitsFile => 1,
        }
    }

    // Whether a text may stand in column k.
    pub(crate) fn fits(self, t: &[u8], k: usize) -> bool {
        match self {
            Table::Register => fits_row(t, k),
            Table::LimitsFile => fits_limits(t, k),
        }
    }
}

// The first column from `from` on that has a level over 120.00, or as many as are looked through.
pub(crate) fn first_over(row: Row, from: usize) -> usize {
    (from..MAX_LOOKED)
        .find(|k| text::number::level(row.field(*k)).is_some_and(|v| MAX_LEVEL < v))
        .unwrap_or(MAX_LOOKED)
}

// Whether a decimal comma cuts the level of column k in two.
pub(crate) fn is_cut(row: Row, k: usize) -> bool {
    let units = row.field(k);
    let parts = row.field(k.saturating_add(1));
    units.len() <= 3 && is_digits(units) && parts.len() == 2 && is_digits(parts)
}
