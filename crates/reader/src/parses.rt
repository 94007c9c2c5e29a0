// The parser's step over a state that the caller lends.
ghost use Rattle.std.specs.Prelude.{◌≡◌};
ghost use Rattle.parser.specs.Step.{step_of};

use parser::{Answer, State};

// The answer of one step; the lent state is advanced by it. 12, 15 and End leave it the very same.
pub fn next(state: &mut State, doc: &[u8]) -> Answer
    ensures value { result ≡ (step_of doc.now state.old).answer }
    ensures state_after { state.new ≡ (step_of doc.now state.old).state }
{
    let m = state.step(doc);
    *state = m.state;
    m.answer
}
