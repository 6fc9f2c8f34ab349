// What a list of calls answers: the words, and the buffer in which they are held until they are written.
#![tactic(auto)]

pub mod answer;
pub mod buffered;
pub mod hex;
pub mod walk;
