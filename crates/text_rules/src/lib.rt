// What lines, fields and numbers are, said of the bytes themselves: RULES, "Files and the report program". The rules
// stand in specs/, and in proofs/ that the definitions of `text` keep them. There is no code here: `text` has it.
#![tactic(auto)]
