// A network file by its lines and the places in them: RULES, "Files and the report program". The rules stand in
// specs/, and in proofs/ that texts which are read, refused or written keep them. There is no code here: `grid` has it.
#![tactic(auto)]
