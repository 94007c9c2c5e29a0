// What a row says, and its token.
ghost use Rattle.std.specs.Prelude.{◌≡◌, get_or};
ghost use Rattle.tokenizer_rows.specs.Rows.{said_in, token_in};

use tokenizer::{Said, Token};

// The word at i; 0 where there is none.
pub fn word(w: &[usize], i: usize) -> usize
    ensures { result ≡ get_or w.now i 0 }
{
    w.get(i).copied().unwrap_or(0)
}

// What a row says; a word that it lacks is 0.
pub fn said_in(w: &[usize]) -> Said
    ensures { result ≡ said_in w.now }
{
    Said {
        number: word(w, 0),
        line: word(w, 1),
        start: word(w, 2),
        end: word(w, 3),
        from: word(w, 4),
        to: word(w, 5),
        opened: word(w, 6),
    }
}

// The token of a row.
#[tactic(auto, unfolding(crate::specs::Rows::token_in))]
pub fn token_in(w: &[usize]) -> Token
    ensures { result ≡ token_in w.now }
{
    said_in(w).token()
}
