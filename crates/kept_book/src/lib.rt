// The book that a list of calls keeps between its lines, and the call of a line made on it.
#![tactic(auto)]

pub mod book;
