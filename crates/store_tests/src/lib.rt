// Tests of stores that can be laid out: the same for each, made on a table and on a journal, and then what is special to it, its cells
// or its bytes. And of records as bytes.
#![tactic(auto)]

#[cfg(test)]
mod bytes;
#[cfg(test)]
mod calls;
#[cfg(test)]
mod cells;
#[cfg(test)]
mod records;
