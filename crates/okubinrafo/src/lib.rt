// The library for other languages: the functions of include/okubinrafo.h. Each takes any arguments and any lent memory
// and answers 0 or the refusal number of the rules. A slice is a pointer and a length there.
#![tactic(auto)]

mod books;
mod files;
mod loads;
mod maps;
mod networks;
mod rows;
mod sentences;
mod tracks;
