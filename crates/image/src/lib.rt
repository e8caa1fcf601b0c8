// The image of a journal: its records, the place of the last record of each entry, and a trailer. docs/IMAGE.md draws it.
#![tactic(auto)]

pub mod copies;
mod heads;
pub mod image;
pub mod reading;
mod trailer;
