// The book of movements: RULES, "Movements and the book". No code: specs/ says what its columns are, when they are
// sound, what each call answers and changes, and what a history of calls means; proofs/History.antt has the theorem.
// The test of soundness is the crate `soundness`, the calls are the crate `book`.
#![tactic(auto)]
