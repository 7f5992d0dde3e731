// An aircraft movement: RULES, "Movements and the book". Its type, kind and period, its group, its weight, and
// the rules that judge it (1, 2, 3, 7 and 19).
#![tactic(auto)]

pub mod aircraft;
pub mod inner;
pub mod kind;
pub mod limits;
pub mod period;
pub mod rules;
