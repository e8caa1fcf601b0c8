// Tests of journal images, whole and damaged; of each refusal of an image, and each order of two that can both apply, where all has to
// stay as it was; and of a pool over a journal.
#![tactic(auto)]

#[cfg(test)]
mod images;
#[cfg(test)]
mod refusals;
#[cfg(test)]
mod small;
