// What the texts of RULES, "Files and the report program", share: numbers, times of day, letters, fields, lines, and
// putting bytes into a lent buffer.
#![tactic(auto)]

pub mod clock;
pub mod inner;
pub mod line;
pub mod number;
pub mod same;
