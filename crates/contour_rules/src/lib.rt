// The sides of a network's squares, by which contour lines enter and leave them. The theory of these lines stands in
// specs/ and proofs/.
#![tactic(auto)]

// A side of a square, counterclockwise.
#[derive(Clone, Copy)]
pub enum Side {
    South,
    East,
    North,
    West,
}

// A square that a crossing heads into, by its row and column, and the side by which it is entered.
#[derive(Clone, Copy)]
pub struct Square {
    pub row: usize,
    pub col: usize,
    pub side: Side,
}
