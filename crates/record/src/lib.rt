// One record of a journal: the bytes of one version of one entry; and which lists of records a journal may hold.
#![tactic(auto)]

pub mod record;
