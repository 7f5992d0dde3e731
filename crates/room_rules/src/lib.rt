// What a call leaves in lent room, place by place: RULES, "Refusal numbers". The rules stand in specs/, and in proofs/
// that the definitions of `room` keep them. There is no code here.
#![tactic(auto)]
