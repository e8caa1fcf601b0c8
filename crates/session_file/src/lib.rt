// A session file as a whole: what it says, or its first fault.
#![tactic(auto)]

mod parts;
pub mod session;
