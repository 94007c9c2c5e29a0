// The parser of document 01: a step on a state by value, over the tokenizer's.
#![tactic(auto)]

mod state;

pub use parser_rules::{Awaited, Kept, Section, Sort};
pub use state::State;
pub use tokenizer::{Answer, Step};
