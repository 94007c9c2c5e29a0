// The tokenizer's part of a state in words: read, and written after a step.
#![tactic(auto)]

mod front;

pub use front::{commit, inner_in};
