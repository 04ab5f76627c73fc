// The decoder's calls on a lent state: an instruction, a word, the searches, the pair list.
#![tactic(auto)]

mod bounds;
pub mod instruct;
pub mod pairs;
pub mod reset;
pub mod search;
pub mod word;
