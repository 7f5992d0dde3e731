// The columns of a register's row, counted from 0: id,type,mtow,kind,time and then a level for each point.
// specs/Column.antt has each again, for the contracts: the prover refuses any use of one that differs from the other.
use movement::limits::MAX_POINTS;

pub const IDENTITY: usize = 0;

pub const TYPE: usize = 1;

pub const MASS: usize = 2;

pub const KIND: usize = 3;

pub const TIME: usize = 4;

// The levels stand from here on.
pub const LEVELS: usize = 5;

pub const MAX_COLUMNS: usize = LEVELS + MAX_POINTS;
