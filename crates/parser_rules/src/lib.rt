// The parser's rules of document 01: what becomes of one answer of the tokenizer.
#![tactic(auto)]

mod judging;
mod numbers;
mod ruling;

pub use judging::{Judged, judge};
pub use numbers::{awaited, sort};
pub use ruling::{Awaited, Change, Kept, Ruling, Section, Sort, Verdict, rule};
