// What the text of explain says, read back from its own bytes: RULES, "The program explain". The rules stand in
// specs/, and in proofs/ that the text keeps them. There is no code here: `explain_text` has it.
#![tactic(auto)]
