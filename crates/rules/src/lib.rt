// The types of the whole project, in document 01's words and the Rust's, and what each stage makes of one vertex's registers. Each value of each type
// is harmless: whatever a caller hands in, there is an answer, and specs/ says which.
#![tactic(auto)]

pub mod execute;
pub mod finding;
pub mod graph;
pub mod index;
pub mod instruction;
pub mod refusal;
pub mod registers;
pub mod settle;
pub mod state;
pub mod tables;
