// Document 01, "Search", on a lent state.
#![tactic(auto)]

pub mod search;
mod turn;
mod turns;
