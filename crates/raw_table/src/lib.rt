// The table: the one search, and the calls that read its answer.
#![tactic(auto)]

pub mod find;
pub mod insert;
pub mod probe;
pub mod search;
