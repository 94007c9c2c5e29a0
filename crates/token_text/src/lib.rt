// What a token's text comes to, with no buffer for it.
#![tactic(auto)]

mod same;

pub use same::is_text;
