// How each load comes about, as text: RULES, "The program explain". At each point a line for each group that has a
// movement and a line for all of them, or the one line of a refusal.
#![tactic(auto)]

pub mod amounts;
pub mod inner;
mod lines;
