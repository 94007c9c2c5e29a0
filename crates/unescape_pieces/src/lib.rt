// A text, one piece at a time: bytes as they stand, a scalar value, or why it is refused.
#![tactic(auto)]

mod cursor;
mod fault;
mod pieces;
mod reading;
mod start;

pub use cursor::{Bytes, Cursor};
pub use fault::Fault;
pub use pieces::{Next, Piece, Spot, next_piece};
pub use start::{Start, Style, start_of};
