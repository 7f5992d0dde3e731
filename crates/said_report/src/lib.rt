// The sentences of the report on standard error, each in one write: why limits.csv or the register is refused, and what
// a report passed over. None of it is a promise: the functions are safe and end, and tests hold what they say.
#![tactic(auto)]

pub mod of_limits;
pub mod of_register;
mod row;
mod table;
