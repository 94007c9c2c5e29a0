// What goes over the steps in words: a batch of either reading for callers in C and Rust, and the parser's next answer
// for the walks inside the library.
#![tactic(auto)]

mod parse_batch;
mod rows;
mod token_batch;

pub use parse_batch::parse;
pub use rows::next;
pub use token_batch::tokenize;
