// The look-up over lent words, for callers in C and Rust.
#![tactic(auto)]

mod found;

pub use found::{AT, NOTHING, look_up};
