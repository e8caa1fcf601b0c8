// House rules: what a house lets into its chains. Two of them, one by limits on a value and one by its step from the last.
#![tactic(auto)]

pub mod entry_rule;
pub mod house;
pub mod limits;
pub mod range;
pub mod setting;
pub mod step;
