// What the report program decides, apart from its bytes in and out: RULES, "Files and the report program". A register's
// lines as they come, and a row into the book.
#![tactic(auto)]

pub mod inner;

// What a row of a register that is not refused did to the book: it was entered, or is too light and was passed over.
#[derive(Clone, Copy, PartialEq, Eq)]
pub enum Entry {
    Added,
    Skipped,
}
