// Unescaping over lent words, for callers in C and Rust.
#![tactic(auto)]

mod given;
mod texts;

pub use given::unescape_text;
pub use texts::{PLAIN, REFUSED, WRITTEN, unescape};
