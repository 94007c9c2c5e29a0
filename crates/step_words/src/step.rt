// One step of a state in words, in place: what came is judged, and only then is anything written.
ghost use Rattle.std.specs.Prelude.{◌≡◌};
ghost use Rattle.step_words.specs.Stepping.{
  refused_in,
  kept_number,
  kept_said,
  came_in,
  judged_in,
  stops_at,
  stop_of,
  given_on,
  ruled_on,
  step_in,
  row_in,
};

use crate::outcome::{outcome_of, put_outcome, sort_at};
use front_words::{commit, inner_in};
use parser_rules::{Judged, judge};
use parser_words::KEPT_END;
use tokenizer::{Advanced, Said, advance};
use tokenizer_rows::{said_in, said_row};
use tokenizer_words::{front_in, paste};

// Whose step it is: the tokenizer's, of the first 137 words, or the parser's. An enum that is asked in three places,
// no type parameter: the plan of a step is large, and is compiled once.
#[derive(Clone, Copy)]
pub enum Layer {
    Tokenizer,
    Parser,
}

// Whether the parser has refused.
#[tactic(auto, unfolding(crate::specs::Stepping::refused_in))]
fn is_refused(layer: Layer, w: &[usize; 278]) -> bool
    ensures { result ≡ refused_in layer w.now }
{
    match layer {
        Layer::Tokenizer => false,
        Layer::Parser => w[137] == 1,
    }
}

// The number of what the parser kept; 0 for nothing.
#[tactic(auto, unfolding(crate::specs::Stepping::kept_number))]
fn kept_number(layer: Layer, w: &[usize; 278]) -> usize
    ensures { result ≡ kept_number layer w.now }
{
    match layer {
        Layer::Tokenizer => Said::END,
        Layer::Parser => w[140],
    }
}

// What was kept, as what a step says.
fn kept_said(w: &[usize; 278]) -> Said
    ensures { result ≡ kept_said w.now }
{
    if w[140] == KEPT_END {
        return Said::bare(Said::END, 0);
    }
    said_in(&w[140..146])
}

// What was kept comes again and moves nothing, else the tokenizer's next.
fn came(doc: &[u8], layer: Layer, w: &[usize; 278]) -> Advanced
    ensures { result ≡ came_in layer doc.now w.now }
{
    let front = front_in(w);
    if kept_number(layer, w) == Said::END {
        let inner = inner_in(front.depth, w);
        let m = advance(doc, front, inner);
        return m;
    }
    let said = kept_said(w);
    Advanced::unmoved(said, front)
}

// What the parser makes of an answer of that number.
#[tactic(auto, unfolding(crate::specs::Stepping::judged_in))]
fn judged(number: usize, w: &[usize; 278]) -> Judged
    ensures { result ≡ judged_in number w.now }
{
    let count = w[147];
    let innermost = sort_at(count, w);
    judge(number, w[138], innermost, 65 <= count)
}

// End and 15 stop: nothing is written.
#[tactic(auto, unfolding(crate::specs::Stepping::stops_at))]
fn stops(number: usize) -> bool
    ensures { result ≡ stops_at number }
{
    (number == Said::END) | (number == Said::UNFIT)
}

// The tokenizer's step gives on what came.
fn give_on(m: Advanced, w: &mut [usize; 278], row: &mut [usize]) -> Option<usize>
    ensures value { result ≡ stop_of (given_on m w.old).said.number }
    ensures w_after { w.new ≡ (given_on m w.old).words }
    ensures row_after { row.new ≡ row_in (given_on m w.old).said row.old }
{
    let said = m.said;
    if stops(said.number) {
        return Some(said.number);
    }
    let words = said_row(said);
    paste(&words, 0, row);
    commit(m, w);
    None
}

// The parser's judges it.
#[tactic(auto, using(crate::proofs::Judgements::outcome_fits))]
fn rule_on(m: Advanced, w: &mut [usize; 278], row: &mut [usize]) -> Option<usize>
    ensures value { result ≡ stop_of (ruled_on m w.old).said.number }
    ensures w_after { w.new ≡ (ruled_on m w.old).words }
    ensures row_after { row.new ≡ row_in (ruled_on m w.old).said row.old }
{
    let said = m.said;
    let v = judged(said.number, w);
    let o = outcome_of(v, said, w);
    let answer = o.answer;
    if stops(answer.number) {
        return Some(answer.number);
    }
    let count = w[147];
    let words = said_row(answer);
    paste(&words, 0, row);
    commit(m, w);
    put_outcome(o, count, w);
    None
}

// One step, with its row at the front of the lent one; or, with nothing written, the number that stops: of End or 15.
#[tactic(auto, unfolding(crate::specs::Stepping::step_in, crate::specs::Stepping::stops_at))]
pub fn step_in(doc: &[u8], layer: Layer, w: &mut [usize; 278], row: &mut [usize]) -> Option<usize>
    ensures value { result ≡ stop_of (step_in layer doc.now w.old).said.number }
    ensures w_after { w.new ≡ (step_in layer doc.now w.old).words }
    ensures row_after { row.new ≡ row_in (step_in layer doc.now w.old).said row.old }
{
    if is_refused(layer, w) {
        return Some(Said::END);
    }
    let m = came(doc, layer, w);
    match layer {
        Layer::Tokenizer => give_on(m, w, row),
        Layer::Parser => rule_on(m, w, row),
    }
}
