// The lines of a text as they come in pieces, whatever each line does: RULES, "Files and the report program". What is
// read of all pieces is what is read of the whole.
#![tactic(auto)]

use refusal::Refusal;

pub mod inner;

// Where the reading of a piece stands: the bytes before `at` are read; `line` is the number of the next line, or of the
// one that is refused.
#[derive(Clone, Copy)]
pub struct Feed {
    pub at: usize,
    pub line: u64,
    pub refusal: Result<(), Refusal>,
}

// The same once a piece is taken: `left` bytes of the next line wait at the front of the buffer. Where a line is
// refused none was moved, and it begins at `at`.
#[derive(Clone, Copy)]
pub struct Piece {
    pub at: usize,
    pub left: usize,
    pub line: u64,
    pub refusal: Result<(), Refusal>,
}

// A reading is to be read on, or it was read to its end, refused before it, or failed.
#[derive(Clone, Copy, PartialEq, Eq)]
pub enum State {
    Going,
    Ended,
    Stopped,
    Failed,
}

// Where the reading of all stands: `left` bytes wait in front of the buffer for the end of line `line`, and `state`
// says whether to read on. A line that is refused stands at `at`.
#[derive(Clone, Copy)]
pub struct Turn {
    pub at: usize,
    pub left: usize,
    pub line: u64,
    pub refusal: Result<(), Refusal>,
    pub state: State,
}
