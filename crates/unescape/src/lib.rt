// Unescaping: a token of a document, or a given text, is the plain part of it, or a text that is written into a lent
// buffer, or a refusal.
#![tactic(auto)]

mod answer;
mod texts;
mod tokens;
mod walk;

pub use answer::{Answer, Error};
pub use texts::{style_of, unescape_text};
pub use tokens::{plain, unescape};
