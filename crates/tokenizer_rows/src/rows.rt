// The rows of answers.
ghost use Rattle.std.specs.Prelude.{◌≡◌};
ghost use Rattle.tokenizer.specs.Token.{token_values};
ghost use Rattle.tokenizer_rows.specs.Rows.{row_of, row_by};

use tokenizer::{Said, Token};

// The row of what a step says.
pub fn said_row(s: Said) -> [usize; 7]
    ensures { result ≡ row_by s }
{
    [s.number, s.line, s.start, s.end, s.from, s.to, s.opened]
}

// The row of a token.
pub fn token_row(t: Token) -> [usize; 7]
    ensures { result ≡ row_of (token_values t) }
{
    said_row(Said::from(t))
}
