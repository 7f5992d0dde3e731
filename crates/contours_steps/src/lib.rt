// What the program contours writes: its steps over lent buffers. The program itself only moves bytes.
#![tactic(auto)]

pub mod inner;
pub mod words;
