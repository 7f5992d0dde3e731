// Register rows, headers and limits.csv: RULES, "Files and the report program".
#![tactic(auto)]

mod cell;
mod clock;
pub mod column;
pub mod header;
mod letter;
pub mod limits_csv;
pub mod row;
pub mod write;
