// A book slot by slot: rows 11 and 12, opening, the next occupied slot, and the walk.
#![tactic(auto)]

pub mod iter;
pub mod open;
pub mod slot;
