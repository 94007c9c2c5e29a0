// An answer in numbers.
ghost use Rattle.std.specs.Prelude.{◌≡◌};
ghost use Rattle.text.specs.Numbers.{number_of};
ghost use Rattle.tokenizer.specs.Token.{bare, with_text, token_values, refusal_number};
ghost use Rattle.tokenizer.specs.Said.{said_by, token_of, answer_by};

use crate::kind;
use crate::token::{Answer, Token};
use text::{Part, Refusal, SyntaxError};

// An answer as its row has it: its kind, 0 for End, 256 and the number for a refusal; its line, its text and its
// indentation; and the line that the parser adds to an Outdent, 0 else. What goes round the loop over steps in words:
// by `Answer` itself a parsing takes up to a quarter longer, since each step then asks three times which token it is.
#[derive(Clone, Copy)]
pub struct Said {
    pub number: usize,
    pub line: usize,
    pub start: usize,
    pub end: usize,
    pub from: usize,
    pub to: usize,
    pub opened: usize,
}

impl Said {
    // The numbers of the answers at which a batch stops: End, and a state that is unfit.
    pub const END: usize = 0;

    pub const UNFIT: usize = 271;

    // What a refusal's number has more.
    pub const REFUSED: usize = 256;

    // A number and a line, with no text.
    pub fn bare(number: usize, line: usize) -> Said
        ensures { result ≡ said_by (bare number line) }
    {
        Said {
            number,
            line,
            start: 0,
            end: 0,
            from: 0,
            to: 0,
            opened: 0,
        }
    }

    // A refusal: its number is above the kinds.
    pub fn refused(refusal: Refusal, line: usize) -> Said
        ensures { result ≡ said_by (bare (refusal_number (number_of refusal)) line) }
    {
        Said::bare(Said::REFUSED + usize::from(refusal), line)
    }

    pub(crate) fn with_text(number: usize, line: usize, p: Part) -> Said
        ensures { result ≡ said_by (with_text number line p) }
    {
        Said {
            start: p.start,
            end: p.end,
            ..Said::bare(number, line)
        }
    }

    // The token of its kind; NoValue for a number that is no other's.
    #[tactic(auto, unfolding(crate::specs::Said::token_of))]
    pub fn token(self) -> Token
        ensures { result ≡ token_of self }
    {
        let line = self.line;
        let p = Part {
            start: self.start,
            end: self.end,
        };
        let indent = Part {
            start: self.from,
            end: self.to,
        };
        match self.number {
            kind::NEWLINE => Token::Newline(line),
            kind::COMMENT => Token::Comment(line, p),
            kind::INDENT => Token::Indent(line),
            kind::OUTDENT => Token::Outdent(line, self.opened),
            kind::LIST_ITEM => Token::ListItem(line),
            kind::MAP_KEY => Token::MapKey(line, p),
            kind::VALUE => Token::Value(line, p),
            kind::MULTILINE_HINT => Token::MultilineHint(line, p),
            kind::MULTILINE_VALUE => Token::MultilineValue(line, indent, p),
            _ => Token::NoValue(line),
        }
    }

    // The answer itself. From 256 on, a number that is no refusal's is 15's.
    #[tactic(auto, unfolding(crate::specs::Said::answer_by))]
    pub fn answer(self) -> Answer
        ensures { result ≡ answer_by self }
    {
        if self.number == Said::END {
            return None;
        }
        if self.number < Said::REFUSED {
            return Some(Ok(self.token()));
        }
        let refusal = Refusal::try_from(self.number - Said::REFUSED).unwrap_or(Refusal::UnfitState);
        Some(Err(SyntaxError {
            refusal,
            line: self.line,
        }))
    }
}

impl From<Token> for Said {
    ghost from_gives = { λ t s. s ≡ said_by (token_values t) };

    #[tactic(auto, unfolding(crate::specs::Token::token_values))]
    fn from(t: Token) -> Said {
        match t {
            Token::Newline(line) => Said::bare(kind::NEWLINE, line),
            Token::Comment(line, p) => Said::with_text(kind::COMMENT, line, p),
            Token::Indent(line) => Said::bare(kind::INDENT, line),
            Token::Outdent(line, opened) => Said {
                opened,
                ..Said::bare(kind::OUTDENT, line)
            },
            Token::ListItem(line) => Said::bare(kind::LIST_ITEM, line),
            Token::MapKey(line, p) => Said::with_text(kind::MAP_KEY, line, p),
            Token::Value(line, p) => Said::with_text(kind::VALUE, line, p),
            Token::MultilineHint(line, p) => Said::with_text(kind::MULTILINE_HINT, line, p),
            Token::MultilineValue(line, indent, p) => Said {
                from: indent.start,
                to: indent.end,
                ..Said::with_text(kind::MULTILINE_VALUE, line, p)
            },
            Token::NoValue(line) => Said::bare(kind::NO_VALUE, line),
        }
    }
}
