// Network files in Esri ASCII grid form, read and written: RULES, "Files and the report program".
#![tactic(auto)]

mod head;
mod judge;
mod put;
pub mod read;
mod size;
mod store;
pub mod write;
