// The codes behind a backslash: a hexadecimal number between braces, and the five that are one byte.
#![tactic(auto)]

mod codes;

pub use codes::{code_of, simple_of};
