// Radar tracks for movements: the definitions and theorems of RULES, "Radar tracks". The code is crate coupling's.
#![tactic(auto)]
