// The lines of a session file: what each says, and what is wrong with one that says nothing.
#![tactic(auto)]

pub mod call;
pub mod fault;
pub mod sizes;
pub mod timescale;
