// Document 01's two thin forms over the covered steps: a parser's state that the caller lends, and a reader that holds
// its document.
#![tactic(auto)]

mod parses;
mod tokens;

pub use parses::next;
pub use tokens::Tokenizer;
