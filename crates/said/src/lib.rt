// What sentences on standard error are made of: a buffer that goes out in one write, the columns and lines of a text,
// and what is odd about a line or a field. None of it is a promise: the functions are safe and end, and tests hold what
// they say.
#![tactic(auto)]

pub mod clock;
pub mod field;
pub mod inner;
pub mod note;
pub mod odd;
pub mod part;
pub mod row;
