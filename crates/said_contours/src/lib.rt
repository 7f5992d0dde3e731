// The sentences of the program contours on standard error, each in one write: why its network or an argument is
// refused, and where a level has no contour or lines that are open at the map's edge. None of it is a promise: the
// functions are safe and end, and tests hold what they say.
#![tactic(auto)]

mod header;
pub mod of_lines;
pub mod of_network;
pub mod of_words;
mod rows;
mod shape;
