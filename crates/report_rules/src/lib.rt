// The whole report, from the bytes of limits.csv and of the register to the bytes of the output: RULES, "Files and the
// report program". The rules stand in specs/, and in proofs/ that no flight drops out. There is no code here: the
// program `report` has it.
#![tactic(auto)]
