// One step of a state in words, in place, the tokenizer's or the parser's.
#![tactic(auto)]

mod outcome;
mod step;

pub use step::{Layer, step_in};
