// The two thin readers, a step at a time: the parser's `next` over a lent state, and the tokenizer that holds its
// document.
use crate::lines::Numbers;
use parser::State;
use reader::Tokenizer;
use text::SyntaxError;
use tokenizer::{Answer, Said, Token};
use tokenizer_rows::said_row;

// A text of 256 bytes has at most 512 answers; End, then, comes again.
const STEPS: usize = 514;

// A token or a refusal in numbers.
fn told(said: Result<Token, SyntaxError>) -> Said {
    match said {
        Ok(t) => Said::from(t),
        Err(e) => Said::refused(e.refusal, e.line),
    }
}

// Whether the next numbers are the answer's row, without the word behind its parts; End has none.
fn is_next(answer: Answer, numbers: &mut Numbers<'_>) -> bool {
    answer.is_none_or(|said| numbers.are(&said_row(told(said))[..6]))
}

// Whether the numbers are the rows of the answers that come. A loop: by `all`, tried, the proof that `next` may be
// called each time did not close.
fn agrees<F: FnMut() -> Answer>(mut next: F, mut numbers: Numbers<'_>) -> bool
    requires { (f : _) → F.pre f }
{
    for _ in 0..STEPS {
        if !is_next(next(), &mut numbers) {
            return false;
        }
    }
    numbers.rest.is_empty()
}

// The text is a document, the numbers are the rows of its tokens, by the reader.
pub fn reader_agrees(s: &[u8], numbers: Numbers<'_>) -> bool {
    let mut reader = Tokenizer::new(s);
    agrees(|| reader.next(), numbers)
}

// The same of the parser's answers, by `next`.
pub fn next_agrees(s: &[u8], numbers: Numbers<'_>) -> bool {
    let mut state = State::new();
    agrees(|| reader::next(&mut state, s), numbers)
}
