// The bytes of a layout: blanks, line breaks, trimming. And the refusals.
#![tactic(auto)]

mod bytes;
mod refusals;
mod trimming;

pub use bytes::{Part, is_newline, is_same, is_whitespace, line_end, newline_size, starts_with};
pub use refusals::{NoRefusal, Refusal, SyntaxError};
pub use trimming::{Dropped, leading, trim};
