// A token's text in the document and how it is read, and whether it may be read.
#![tactic(auto)]

mod source;

pub use source::{Source, source_in, source_of};
