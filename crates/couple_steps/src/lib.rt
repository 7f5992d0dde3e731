// What the program couple decides, apart from its bytes in and out: RULES, "Radar tracks". The lines of tracks.csv and
// of the movements into tables, and the sheet of their tracks.
#![tactic(auto)]

pub mod inner;
