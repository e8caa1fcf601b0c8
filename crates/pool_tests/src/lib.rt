// Tests of the pool over a table store under the house rules: lists of calls with the answers that the rules of docs/POOL.md give; every
// refusal of the pool, the table store and the house rules, reached by a call, and every order of two that can both apply, where a
// refused call has to leave all as it was; the edge cases of the crate `edges`, made to happen; chains as text; and a failure told as another.
// `image_tests` has the refusals of images, and so reaches 15.
#![tactic(auto)]

#[cfg(test)]
mod chains;
#[cfg(test)]
mod edge_cases;
#[cfg(test)]
mod edits;
#[cfg(test)]
mod failures;
#[cfg(test)]
mod fixture;
#[cfg(test)]
mod house_rules;
#[cfg(test)]
mod opening;
#[cfg(test)]
mod orders;
#[cfg(test)]
mod seen;
#[cfg(test)]
mod serials;
#[cfg(test)]
mod stores;
#[cfg(test)]
mod trials;
