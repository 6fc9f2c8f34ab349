// Lines of a list of calls: put together from what reads bring, and read as a call with its numbers and byte strings.
#![tactic(auto)]

pub mod call;
mod fields;
pub mod line;
