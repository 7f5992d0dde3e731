// What a load is made of and what it answers: RULES, "Energy and load". The rules stand in specs/, and in
// proofs/ that every movement is counted once at each point where it counts (demand 3). There is no code here but the
// types: the crate `load` has the functions.
#![tactic(auto)]

use movement::limits::GROUPS;

// V, U and S of a group: its movements computed and not, and the energy of the computed ones.
#[derive(Clone, Copy)]
pub struct Group {
    pub computed: u32,
    pub missing: u32,
    pub energy: u64,
}

// The groups: type by kind by period.
pub type Groups = [[[Group; 3]; 2]; 3];

// V and U of a group.
#[derive(Clone, Copy)]
pub struct Counts {
    pub computed: u32,
    pub missing: u32,
}

// A load: the total energy, the level, and V and U of each group by its number.
#[derive(Clone, Copy)]
pub struct Load {
    pub total: u64,
    pub level: level::Level,
    pub counts: [Counts; GROUPS],
}
