// The rows of a network and their values, counted from 0, and what is refused of a value.
use crate::header::number_of;
use network::limits::MAX_NETWORK_LEVEL;
use said::part::{Lines, behind, last};

// A network's file and text, what stands for no data, and how many lines stand before its rows.
#[derive(Clone, Copy)]
pub(crate) struct Network<'a> {
    pub(crate) file: &'a [u8],
    pub(crate) text: &'a [u8],
    pub(crate) nodata: &'a [u8],
    pub(crate) before: usize,
}

impl<'a> Network<'a> {
    // The text of its rows.
    pub(crate) fn body(&self) -> &'a [u8] {
        behind(self.text, self.before)
    }

    // How many rows it has.
    pub(crate) fn row_count(&self) -> usize {
        Lines::of(self.body()).count()
    }

    // The values in a row, and the rows, that its header asks for.
    pub(crate) fn columns(&self) -> usize {
        number_of(self.text, 1) as usize
    }

    pub(crate) fn rows(&self) -> usize {
        number_of(self.text, 2) as usize
    }

    // The number of the line in which a row stands.
    pub(crate) fn line_of(&self, row: usize) -> u64 {
        (self.before.saturating_add(row) as u64).saturating_add(1)
    }
}

// How many values a row has.
pub(crate) fn values_in(row: &[u8]) -> usize {
    last(row, b' ').saturating_add(1)
}

// Whether a value is none.
pub(crate) fn is_off(t: &[u8], nodata: &[u8]) -> bool {
    t != nodata && text::number::thousandths(t).is_none()
}

// Whether a value is a level over 150.000 or no data.
pub(crate) fn is_over(t: &[u8], nodata: &[u8]) -> bool {
    t == nodata || text::number::thousandths(t).is_some_and(|v| MAX_NETWORK_LEVEL < v)
}
