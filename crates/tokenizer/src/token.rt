ghost use Rattle.std.specs.Prelude.{◌≡◌};
ghost use Rattle.tokenizer.specs.Token.{line_of, name_of, padded};

use text::{Part, SyntaxError};

// A token with its line and, where it has a text, that part of the document. A multiline value has its indentation's
// part before its text's, as in the Rust. An Outdent has the line of the key or item that opened the section, which
// only the parser knows: the tokenizer's have 0.
#[derive(Clone, Copy)]
pub enum Token {
    Newline(usize),
    Comment(usize, Part),
    Indent(usize),
    Outdent(usize, usize),
    ListItem(usize),
    MapKey(usize, Part),
    Value(usize, Part),
    MultilineHint(usize, Part),
    MultilineValue(usize, Part, Part),
    NoValue(usize),
}

// What a step answers, as the Rust's iterator does: nothing at the end, a token, or a refusal with its line.
pub type Answer = Option<Result<Token, SyntaxError>>;

// A name's bytes, zeros after them, and how many they are, as document 01 has a name.
#[derive(Clone, Copy)]
pub struct Name {
    pub bytes: [u8; 16],
    pub len: usize,
}

// The first 16 bytes of s, or all of them with zeros after.
fn name_from(s: &[u8]) -> Name
    ensures { result ≡ padded s.now }
{
    let mut bytes = [0u8; 16];
    let len = s.len().min(16);
    bytes[..len].copy_from_slice(&s[..len]);
    Name { bytes, len }
}

impl Token {
    // The line on which the token starts.
    #[tactic(auto, unfolding(crate::specs::Token::line_of))]
    pub fn line_number(self) -> usize
        ensures { result ≡ line_of self }
    {
        match self {
            Token::Newline(line) => line,
            Token::Comment(line, _) => line,
            Token::Indent(line) => line,
            Token::Outdent(line, _) => line,
            Token::ListItem(line) => line,
            Token::MapKey(line, _) => line,
            Token::Value(line, _) => line,
            Token::MultilineHint(line, _) => line,
            Token::MultilineValue(line, _, _) => line,
            Token::NoValue(line) => line,
        }
    }

    // What the token is called in messages.
    #[tactic(auto, unfolding(crate::specs::Token::name_of))]
    pub fn name(self) -> Name
        ensures { result ≡ padded (name_of self) }
    {
        match self {
            Token::Newline(_) => name_from(b"newline"),
            Token::Comment(_, _) => name_from(b"comment"),
            Token::Indent(_) => name_from(b"indent"),
            Token::Outdent(_, _) => name_from(b"outdent"),
            Token::ListItem(_) => name_from(b"list item"),
            Token::MapKey(_, _) => name_from(b"map key"),
            Token::Value(_, _) => name_from(b"value"),
            Token::MultilineHint(_, _) => name_from(b"multiline hint"),
            Token::MultilineValue(_, _, _) => name_from(b"multiline value"),
            Token::NoValue(_) => name_from(b"no value"),
        }
    }
}
