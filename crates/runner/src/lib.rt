// Calls on a pool, one by one or as a whole list, with the promise that every edit is as if made alone.
#![tactic(auto)]

pub mod perform;
pub mod run;
