// UTF-8 and scalar values, as the Unicode Standard defines them.
#![tactic(auto)]

mod scalar;
mod utf8;

pub use scalar::{Encoded, encode, is_scalar};
pub use utf8::{Lead, char_len, is_utf8, lead_of};
