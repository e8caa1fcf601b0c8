// Tickets: an edit of a pool that cannot be forgotten. A program that lets a ticket go before its edit is settled or given up is refused.
#![tactic(auto)]

pub mod edit;
pub mod ending;
mod open_edit;
pub mod outcome;
pub mod ticket;
