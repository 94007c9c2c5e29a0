// What unescaping answers.
ghost use Rattle.std.specs.Prelude.{◌≡◌};
ghost use Rattle.unescape.specs.Walk.{refusal};

use text::{Part, SyntaxError};

// The plain part of the document or of the given text, or the length of the text that was written.
#[derive(Clone, Copy)]
pub enum Answer {
    Plain(Part),
    Written(usize),
}

// A refusal with its line and, for an invalid escape code, the part that its message shows; else the empty part at 0,
// as the law and the words of an answer have it.
#[derive(Clone, Copy)]
pub struct Error {
    pub error: SyntaxError,
    pub shown: Part,
}

impl From<SyntaxError> for Error {
    ghost from_gives = { λ e r. r ≡ refusal e };

    fn from(error: SyntaxError) -> Error {
        Error {
            error,
            shown: Part::EMPTY,
        }
    }
}
