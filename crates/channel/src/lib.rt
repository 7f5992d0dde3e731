// The bytes that come and go. No other crate reads a program's data, writes its answer or looks at its arguments: what
// a contract above says of bytes that came or went is known from here alone.
#![tactic(auto)]

pub mod file;
pub mod inner;
pub mod input;
pub mod whole;
pub mod words;
