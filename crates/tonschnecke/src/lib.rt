// The C interface, a static library: what include/tonschnecke.h declares. Takes pointers with lengths; gives what the services of reader and editor answer as
// structs of words, by value. Code 0 is an acceptance, since no refusal has number 0; what does not apply is 0.
// Refuses what they refuse. The caller owes valid memory of the lengths given, of which nothing overlaps what is written to. A pointer may be null only where
// its length is 0: the kit does not speak of that for exported functions, so the programs in examples/ try it. C calls it, and Rust by rust/tonschnecke.
// The filter of keys stands on the stack: the header says how much a call needs, and a test calls with as much.
// Reading and writing have files of their own, so that a must-fail edit's line is the only one of its kind there.
#![tactic(auto)]

pub mod reading;
pub mod writing;
