// Room that a caller lends, and what a call leaves in it: RULES, "Refusal numbers". No code: specs/Room.antt has the
// definitions, and proofs/ their laws.
#![tactic(auto)]
