// A parser's state in lent words, for callers in C and Rust.
#![tactic(auto)]

mod words;

pub use words::{KEPT_END, fresh_parser, is_parser, middle_by, restore_parser, store_parser};
