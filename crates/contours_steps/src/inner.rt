// Steps that ask something of their caller: lines of bytes that were cut off, and texts put where there is room.
pub mod intake;
pub mod put;
