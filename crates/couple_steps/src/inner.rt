// Steps over tables that have room.
pub mod feeding;
pub mod put;
