// A tokenizer that holds its document beside its state, as the Rust's does.
ghost use Rattle.std.specs.Prelude.{◌≡◌};
ghost use Rattle.tokenizer.specs.Step.{step_of, fresh};

use text::SyntaxError;
use tokenizer::{Answer, State, Token};

#[derive(Clone, Copy)]
pub struct Tokenizer<'tok> {
    doc: &'tok [u8],
    state: State,
}

impl<'tok> Tokenizer<'tok> {
    // The reading of doc from its start.
    pub fn new(doc: &'tok [u8]) -> Tokenizer<'tok>
        ensures doc_value { result.doc ≡ doc.entry }
        ensures state_value { result.state ≡ fresh }
    {
        Tokenizer {
            doc,
            state: State::new(),
        }
    }
}

impl Iterator for Tokenizer<'_> {
    type Item = Result<Token, SyntaxError>;

    ghost next_gives = { λ r a s.
        (a ≡ (step_of r.doc.now r.state).answer)
        × (s.state ≡ (step_of r.doc.now r.state).state)
        × (s.doc ≡ r.doc) };

    // The answer of one step over the document held; the state held is advanced by it. 12 and 15 leave it the very
    // same and come again, without end.
    fn next(&mut self) -> Answer {
        let m = self.state.step(self.doc);
        self.state = m.state;
        m.answer
    }
}
