// What a store of constraint versions is: the version, the refusals, and the reading and the writing store by their meanings.
#![tactic(auto)]

pub mod latest;
pub mod laying;
pub mod reading;
pub mod refusal;
pub mod sizes;
pub mod slots;
pub mod text;
pub mod version;
pub mod writing;
