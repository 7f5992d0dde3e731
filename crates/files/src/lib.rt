// Files and the report program: limits.csv and the register, from their bytes to the bytes of the answer. What it
// decides is decided in the libraries below.
#![tactic(auto)]

mod feed;
pub mod inner;
mod sentences;
