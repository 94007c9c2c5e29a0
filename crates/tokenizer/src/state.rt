// The state by value, and the step over it.
ghost use Rattle.std.specs.Prelude.{◌≡◌, ◌≤◌, Some, None, Err};
ghost use Rattle.text.specs.Numbers.{max_open, error};
ghost use Rattle.tokenizer.specs.Step.{inner_of, depth_after, indents_after, fit, step_of, fresh};
ghost use Rattle.tokenizer.specs.Front.{front_of, state_by};

use crate::front::{Advanced, Front, advance, part_fits};
use crate::token::Answer;
use text::{Part, Refusal, SyntaxError};
use tokenizer_rules::{Change, Marks};

// Where the reading stands. What is held, the Rust's current_indent, is the indentation that an Outdent left for the
// next step. The open indentations, the Rust's indent_stack, are the first `depth` of `indents`: memory is
// fixed.
#[derive(Clone, Copy)]
pub struct State {
    pub place: usize,
    pub line: usize,
    pub marks: Marks,
    pub held: Option<Part>,
    pub indents: [Part; 64],
    pub depth: usize,
}

// What a step answers, and the state for the next call: the tokenizer's, or the parser's.
#[derive(Clone, Copy)]
pub struct Step<S> {
    pub answer: Answer,
    pub state: S,
}

fn indents_after(change: Change, indent: Part, indents: [Part; 64], depth: usize) -> [Part; 64]
    requires { depth_after change depth ≤ max_open }
    ensures { result ≡ indents_after change indent indents depth }
{
    let mut out = indents;
    if let Change::Open = change {
        out[depth] = indent;
    }
    out
}

impl<S> Step<S> {
    // A refusal that gives the very state back.
    pub fn refused(refusal: Refusal, state: S) -> Step<S>
        ensures { result ≡ record { answer = Some (Err (error refusal 0)); state = state } }
    {
        let answer = Some(Err(SyntaxError { refusal, line: 0 }));
        Step { answer, state }
    }

    // The end, which gives the very state back.
    pub fn ended(state: S) -> Step<S>
        ensures { result ≡ record { answer = None; state = state } }
    {
        Step {
            answer: None,
            state,
        }
    }
}

impl State {
    // The longest document, in bytes, and the most sections open at once.
    pub const MAX_DOCUMENT: usize = 16_777_216;

    pub const MAX_OPEN: usize = tokenizer_rules::MAX_OPEN;

    // The state in which every reading begins.
    #[tactic(auto, unfolding(crate::specs::Step::fresh))]
    pub fn new() -> State
        ensures { result ≡ fresh }
    {
        State {
            place: 0,
            line: 1,
            marks: Marks {
                indent: true,
                value: false,
                multiline: false,
            },
            held: None,
            indents: [Part::EMPTY; 64],
            depth: 0,
        }
    }

    // The state but for the open indentations.
    pub fn front(self) -> Front
        ensures { result ≡ front_of self }
    {
        let marks = self.marks;
        let held = self.held;
        Front {
            place: self.place,
            line: self.line,
            marks,
            held,
            depth: self.depth,
        }
    }

    // Whether the state can be one of a document of n bytes; where not, it is unfit.
    pub fn fits(self, n: usize) -> bool
        ensures { result ≡ fit n self }
    {
        if !self.front().fits(n) {
            return false;
        }
        self.indents[..self.depth].iter().all(|p| part_fits(*p, n))
    }

    // The innermost open indentation, which is the last one, or the empty one where none is open.
    fn innermost(self) -> Part
        requires { self.depth ≤ max_open }
        ensures { result ≡ inner_of self.indents self.depth }
    {
        if self.depth == 0 {
            return Part::EMPTY;
        }
        self.indents[self.depth - 1]
    }

    // The state with what a step leaves.
    #[tactic(auto, unfolding(crate::specs::Front::state_by))]
    fn after(self, m: Advanced) -> State
        requires { depth_after m.change self.depth ≤ max_open }
        ensures { result ≡ state_by self m }
    {
        let front = m.front;
        let marks = front.marks;
        let held = front.held;
        let open = self.indents;
        State {
            place: front.place,
            line: front.line,
            marks,
            held,
            indents: indents_after(m.change, m.indent, open, self.depth),
            depth: front.depth,
        }
    }

    // One step: the answer, and the state for the next call. 12 and 15 give the very state back.
    pub fn step(self, doc: &[u8]) -> Step<State>
        ensures { result ≡ step_of doc.now self }
    {
        if State::MAX_DOCUMENT < doc.len() {
            return Step::refused(Refusal::TooLong, self);
        }
        if !self.fits(doc.len()) {
            return Step::refused(Refusal::UnfitState, self);
        }
        let m = advance(doc, self.front(), self.innermost());
        let answer = m.said.answer();
        let state = self.after(m);
        Step { answer, state }
    }
}
