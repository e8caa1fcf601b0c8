// The pool: seats that edit the entries of one store under strict two-phase locking with two-phase commit.
#![tactic(auto)]

mod admission;
mod lock;
mod mask;
pub mod pool;
pub mod table;
