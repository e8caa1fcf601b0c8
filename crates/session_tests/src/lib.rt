// Tests of session files: words and numbers, lines, whole files, and what running them prints.
#![tactic(auto)]

#[cfg(test)]
mod files;
#[cfg(test)]
mod lines;
#[cfg(test)]
mod printed;
#[cfg(test)]
mod spelling;
