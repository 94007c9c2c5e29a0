// The parser's state by value, and the step over it.
ghost use Rattle.std.specs.Prelude.{◌≡◌};
ghost use Rattle.parser.specs.Step.{
  ChangeFits,
  innermost_of,
  after_verdict,
  step_with,
  came_of,
  step_kept,
  step_of,
  fresh,
};

use parser_rules::{Awaited, Change, Kept, Ruling, Section, Verdict, rule};
use text::Refusal;
use tokenizer::{Answer, Step};

// Where the parsing stands. The open sections, the Rust's stack, are the first `count` of `sections`: memory is fixed.
#[derive(Clone, Copy)]
pub struct State {
    pub tokenizer: tokenizer::State,
    pub kept: Kept,
    pub awaited: Awaited,
    pub refused: bool,
    pub sections: [Section; 65],
    pub count: usize,
}

impl State {
    // The state in which every parsing begins.
    #[tactic(auto, unfolding(crate::specs::Step::fresh))]
    pub fn new() -> State
        ensures { result ≡ fresh }
    {
        State {
            tokenizer: tokenizer::State::new(),
            kept: Kept::Nothing,
            awaited: Awaited::Nothing,
            refused: false,
            sections: [Section {
                sort: None,
                line: 0,
            }; 65],
            count: 1,
        }
    }

    // The state after a verdict, with the tokenizer's.
    #[tactic(auto, unfolding(crate::specs::Step::after_verdict, crate::specs::Step::sections_after, crate::specs::Step::count_after))]
    fn after(self, tokenizer: tokenizer::State, v: Verdict) -> State
        requires { ChangeFits v.change self.count }
        ensures { result ≡ after_verdict self tokenizer v }
    {
        let mut sections = self.sections;
        let mut count = self.count;
        match v.change {
            Change::Keep => {}
            Change::Fix(sort) => sections[count - 1].sort = Some(sort),
            Change::Open(line) => {
                sections[count] = Section { sort: None, line };
                count += 1;
            }
            Change::Close => count -= 1,
        }
        State {
            tokenizer,
            kept: v.kept,
            awaited: v.awaited,
            refused: v.answer.is_err(),
            sections,
            count,
        }
    }

    // The innermost section; a record that counts over 65 has none that can be used.
    fn innermost(self) -> Option<Section>
        ensures { result ≡ innermost_of self.sections self.count }
    {
        if self.count == 0 {
            return None;
        }
        if 65 < self.count {
            return None;
        }
        Some(self.sections[self.count - 1])
    }

    // What is made of what came, with the tokenizer's state after it.
    fn step_with(self, came: Answer, tokenizer: tokenizer::State) -> Step<State>
        ensures { result ≡ step_with self came tokenizer }
    {
        match rule(self.awaited, self.innermost(), 65 <= self.count, came) {
            Ruling::Says(v) => {
                let answer = Some(v.answer);
                let state = self.after(tokenizer, v);
                Step { answer, state }
            }
            Ruling::End => Step::ended(self),
            Ruling::Unfit => Step::refused(Refusal::UnfitState, self),
        }
    }

    // What was kept comes again, else the tokenizer's next answer.
    fn came(self, doc: &[u8]) -> Step<tokenizer::State>
        ensures { result ≡ came_of doc.now self.tokenizer self.kept }
    {
        let state = self.tokenizer;
        match self.kept {
            Kept::Nothing => state.step(doc),
            Kept::End => Step::ended(state),
            Kept::Token(t) => Step {
                answer: Some(Ok(t)),
                state,
            },
        }
    }

    // What is made of what was kept, or of the tokenizer's next answer.
    #[tactic(auto, unfolding(crate::specs::Step::step_kept))]
    fn step_kept(self, doc: &[u8]) -> Step<State>
        ensures { result ≡ step_kept doc.now self self.kept }
    {
        let came = self.came(doc);
        self.step_with(came.answer, came.state)
    }

    // One step: the answer, and the state for the next call. 12, 15 and End give the very state back.
    pub fn step(self, doc: &[u8]) -> Step<State>
        ensures { result ≡ step_of doc.now self }
    {
        if tokenizer::State::MAX_DOCUMENT < doc.len() {
            return Step::refused(Refusal::TooLong, self);
        }
        let tokenizer = self.tokenizer;
        if !tokenizer.fits(doc.len()) {
            return Step::refused(Refusal::UnfitState, self);
        }
        if self.refused {
            return Step::ended(self);
        }
        self.step_kept(doc)
    }
}
