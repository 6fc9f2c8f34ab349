// The bytes of a book: the kinds of number that count in it, its refusals, the check of its header, and a new one.
#![tactic(auto)]

pub mod header;
pub mod init;
pub mod kinds;
pub mod numbers;
pub mod parts;
pub mod refusal;
pub mod table;
