// The columns of a flight's row, counted from 0 in the order of specs/Column.antt; a runway, an airport and a type
// designator stand between kind and circuit.
pub const NUMBER: usize = 0;

pub const DATE: usize = 1;

pub const TIME: usize = 2;

pub const CLASS: usize = 3;

pub const KIND: usize = 4;

pub const CIRCUIT: usize = 8;
