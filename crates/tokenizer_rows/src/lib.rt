// The rows of answers, seven words each, for callers in C and Rust, and a token read back from its row.
#![tactic(auto)]

mod rows;
mod tokens;

pub use rows::{said_row, token_row};
pub use tokens::{said_in, token_in, word};
