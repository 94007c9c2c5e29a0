// The look-up of a top-level entry by its key.
#![tactic(auto)]

mod search;

pub use search::{Found, Outcome, entry, look_up};
