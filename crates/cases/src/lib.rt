// What the programs of cases share: the script that each reads from standard input, its lines and their fields, and
// lines of output. A line of a script ends in LF; `|` parts its fields, which count from 0.
#![tactic(auto)]

pub mod column;
pub mod fields;
pub mod show;
