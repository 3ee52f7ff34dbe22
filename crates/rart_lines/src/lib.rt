//! What the programs read: the whole input, its lines, and the words of a line.
#![tactic(auto)]

mod input;
mod lines;
mod words;

pub use crate::input::read_all;
pub use crate::lines::Lines;
pub use crate::words::next_word;
