// The nine calls of a pool, their answers and refusals, and the states of a seat with the table of its steps.
#![tactic(auto)]

pub mod answer;
pub mod call;
pub mod failure;
pub mod fault;
pub mod state;
