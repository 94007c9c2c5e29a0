// Unescaping over lent words: the token in a row, the answer in five words.
ghost use Rattle.std.specs.Prelude.{◌≡◌};
ghost use Rattle.answer_words.specs.Texts.{answer_words, is_kind, is_token, has_answer, text_of};

use tokenizer::{State, kind};
use tokenizer_rows::token_in;
use unescape::{Answer, Error};

// The first word of an answer, as C declares it.
pub const PLAIN: usize = 0;

pub const WRITTEN: usize = 1;

pub const REFUSED: usize = 2;

// Five words, as C declares them.
#[tactic(auto, unfolding(crate::specs::Texts::answer_words))]
pub(crate) fn answer_words(answer: Result<Answer, Error>) -> [usize; 5]
    ensures { result ≡ answer_words answer }
{
    match answer {
        Ok(Answer::Plain(p)) => [PLAIN, 0, 0, p.start, p.end],
        Ok(Answer::Written(n)) => [WRITTEN, 0, 0, 0, n],
        Err(e) => [
            REFUSED,
            usize::from(e.error.refusal),
            e.error.line,
            e.shown.start,
            e.shown.end,
        ],
    }
}

// Whether there are tokens of this kind.
pub(crate) fn is_kind(kind: usize) -> bool
    ensures { result ≡ is_kind kind }
{
    (kind::NEWLINE <= kind) & (kind <= kind::NO_VALUE)
}

// Whether the words are a token's row, which may lack its last word.
#[tactic(auto, unfolding(crate::specs::Texts::is_token))]
fn is_token(w: &[usize]) -> bool
    ensures { result ≡ is_token w.now }
{
    if w.len() < 6 {
        return false;
    }
    is_kind(w[0])
}

// Whether there is an answer: over the limit it is 12, whatever the row; else the row must be a token's.
fn has_answer(doc: &[u8], row: &[usize]) -> bool
    ensures { result ≡ has_answer doc.now row.now }
{
    if State::MAX_DOCUMENT < doc.len() {
        return true;
    }
    is_token(row)
}

// Unescapes the token of a row and writes the answer at the front of its words: true; or false, with nothing written,
// where there are fewer than five words for the answer, or the row is no token's and the document is within the limit.
#[tactic(auto, using(std::proofs::lemmas::Bool::Decides::nat_tests), unfolding(crate::specs::Texts::text_of))]
pub fn unescape(doc: &[u8], row: &[usize], out: &mut [u8], answer: &mut [usize]) -> bool
    ensures value { result ≡ (text_of doc.now row.now out.old answer.old).result }
    ensures out_after { out.new ≡ (text_of doc.now row.now out.old answer.old).buffer }
    ensures answer_after { answer.new ≡ (text_of doc.now row.now out.old answer.old).words }
{
    if !has_answer(doc, row) {
        return false;
    }
    let Some(front) = answer.first_chunk_mut::<5>() else {
        return false;
    };
    *front = answer_words(unescape::unescape(token_in(row), doc, out));
    true
}
