// One instruction on a lent state: stages 1 to 8.
#![tactic(auto)]

pub mod cycle;
mod growing;
mod rank;
mod report;
mod respond;
mod settled;
mod stages;
mod strongest;
