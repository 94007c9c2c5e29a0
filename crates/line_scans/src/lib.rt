// Scans within a line, by words of eight bytes.
#![tactic(auto)]

mod words;

pub use words::{line_sixteens, space_eights};
