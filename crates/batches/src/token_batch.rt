// A batch of the tokenizer's steps.
ghost use Rattle.std.specs.Prelude.{◌≡◌};
ghost use Rattle.batches.specs.Batch.{batch_of};

use crate::rows::{TOO_LONG, UNFIT, take_rows};
use step_words::Layer;
use tokenizer::State;
use tokenizer_words::{paste, restore};

// Takes answers until End comes or no room is left for a row: how many; or, with nothing written, a refusal, 12 before
// 15.
pub fn tokenize(doc: &[u8], state: &mut [usize], rows: &mut [usize]) -> usize
    ensures value { result ≡ (batch_of doc.now state.old rows.old).result }
    ensures state_after { state.new ≡ (batch_of doc.now state.old rows.old).words }
    ensures rows_after { rows.new ≡ (batch_of doc.now state.old rows.old).rows }
{
    if State::MAX_DOCUMENT < doc.len() {
        return TOO_LONG;
    }
    let mut words = [0usize; 278];
    if !restore(doc.len(), state, &mut words) {
        return UNFIT;
    }
    let t = take_rows(doc, Layer::Tokenizer, &mut words, rows);
    paste(&words[..137], 0, state);
    t.rows
}
