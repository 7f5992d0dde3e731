// One column of the book, of any width: RULES, "Movements and the book".
#![tactic(auto)]

pub mod inner;
