// The cases of docs/WORKED.md that are marked P: one table in specs/Cases.antt, and one theorem,
// `all_hold`, in proofs/Cases.antt. There is no code here: the cases speak of the definitions that the calls are proved
// against.
#![tactic(auto)]
