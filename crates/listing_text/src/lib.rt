// The listing of a document: the parser's answers as lines of text.
#![tactic(auto)]

mod lines;
mod writing;

pub use lines::listing;
