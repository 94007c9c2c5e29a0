// What goes over the steps: rows, up to a stop, for the batches, and one row for the walks inside the library.
ghost use Rattle.std.specs.Prelude.{◌≡◌, ◌/◌, length};
ghost use Rattle.tokenizer_rows.specs.Rows.{row_by, rows_in};
ghost use Rattle.batches.specs.Batch.{taken};
ghost use Rattle.batches.specs.Walks.{stepping, last_of, next_of};

use step_words::{Layer, step_in};
use text::Refusal;
use tokenizer::{Said, State};
use tokenizer_rows::said_row;

// The refusals before the first step: 2^63, which is above any count of rows, and 12 or 15. Numbers, since C has one
// for a batch's answer.
pub(crate) const TOO_LONG: usize = 0x8000_0000_0000_000C;

pub(crate) const UNFIT: usize = 0x8000_0000_0000_000F;

// How many rows were taken, and the number that stopped there; none where no room was left.
#[derive(Clone, Copy)]
pub(crate) struct Took {
    pub(crate) rows: usize,
    pub(crate) last: Option<usize>,
}

// Takes answers until End or 15 comes or no room is left for a row. The state stands in the words, and stays there.
pub(crate) fn take_rows(doc: &[u8], layer: Layer, w: &mut [usize; 278], rows: &mut [usize]) -> Took
    ensures rows_value { result.rows ≡ length (taken (stepping layer doc.now) (length rows.old / 7) w.old).answers }
    ensures last_value { result.last ≡ last_of (stepping layer doc.now) (length rows.old / 7) w.old }
    ensures w_after { w.new ≡ (taken (stepping layer doc.now) (length rows.old / 7) w.old).state }
    ensures rows_after { rows.new ≡ rows_in (taken (stepping layer doc.now) (length rows.old / 7) w.old).answers rows.old }
{
    let room = rows.len() / 7;
    for n in 0..room {
        let last = step_in(doc, layer, w, &mut rows[7 * n..7 * n + 7]);
        if last.is_some() {
            return Took { rows: n, last };
        }
    }
    Took {
        rows: room,
        last: None,
    }
}

// The parser's next answer, in its row, and the words after it: 12, then 15 where what this step uses is unfit, then
// the step. Of the words of a fit state it is the parser's step.
pub fn next(doc: &[u8], words: &mut [usize; 278], row: &mut [usize; 7])
    ensures words_after { words.new ≡ (next_of doc.now words.old).words }
    ensures row_after { row.new ≡ row_by (next_of doc.now words.old).said }
{
    if State::MAX_DOCUMENT < doc.len() {
        *row = said_row(Said::refused(Refusal::TooLong, 0));
        return;
    }
    let t = take_rows(doc, Layer::Parser, words, row);
    if let Some(last) = t.last {
        *row = said_row(Said::bare(last, 0));
    }
}
