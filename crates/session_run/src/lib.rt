// Runs a session file on a pool over a table store, and says what each line answered.
#![tactic(auto)]

pub mod answers;
pub mod session;
