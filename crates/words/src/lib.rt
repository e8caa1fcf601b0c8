// The lines of a text, the words of a line, and the numbers that words write.
#![tactic(auto)]

mod cut;
pub mod fault;
pub mod line;
pub mod number;
pub mod token;
