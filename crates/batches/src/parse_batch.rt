// A batch of the parser's steps.
ghost use Rattle.std.specs.Prelude.{◌≡◌, ◌&&◌, eqb, ltb};
ghost use Rattle.batches.specs.Batch.{parse_batch_of};
ghost use Rattle.step_words.specs.Stepping.{step_in};
ghost use Rattle.step_words.specs.declared.step.Layer.TheVariants.{Parser};

use crate::rows::{TOO_LONG, UNFIT, take_rows};
use parser_words::restore_parser;
use step_words::Layer;
use tokenizer::{Said, State};
use tokenizer_words::paste;

// Whether the first step is 15 where fewer than seven words leave no room for its row: it is tried on a copy of the
// words.
fn starts_unfit(doc: &[u8], words: &[usize; 278], room: usize) -> bool
    ensures { result ≡ (ltb room 7 && eqb (step_in Parser doc.now words.now).said.number 271) }
{
    if 7 <= room {
        return false;
    }
    let mut tried = *words;
    let mut row = [0usize; 7];
    let t = take_rows(doc, Layer::Parser, &mut tried, &mut row);
    t.last == Some(Said::UNFIT)
}

// Takes answers until End or 15 comes or no room is left for a row: how many; or, with nothing written, a refusal: 12,
// or 15 where the words or the first step say so.
pub fn parse(doc: &[u8], state: &mut [usize], rows: &mut [usize]) -> usize
    ensures value { result ≡ (parse_batch_of doc.now state.old rows.old).result }
    ensures state_after { state.new ≡ (parse_batch_of doc.now state.old rows.old).words }
    ensures rows_after { rows.new ≡ (parse_batch_of doc.now state.old rows.old).rows }
{
    if State::MAX_DOCUMENT < doc.len() {
        return TOO_LONG;
    }
    let mut words = [0usize; 278];
    if !restore_parser(doc.len(), state, &mut words) {
        return UNFIT;
    }
    if starts_unfit(doc, &words, rows.len()) {
        return UNFIT;
    }
    let t = take_rows(doc, Layer::Parser, &mut words, rows);
    if (t.rows == 0) & (t.last == Some(Said::UNFIT)) {
        return UNFIT;
    }
    paste(&words, 0, state);
    t.rows
}
