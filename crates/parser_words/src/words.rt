// A parser's state in the words of a lent slice, in the order of specs/ParserWords.
ghost use Rattle.std.specs.Prelude.{◌≡◌, cond, ◌&&◌, ◌≤◌, leb, length, take, drop};
ghost use Rattle.tokenizer.specs.Step.{fit};
ghost use Rattle.tokenizer_words.specs.Words.{pasted, pasted_in, held_words, state_in};
ghost use Rattle.parser.specs.Step.{max_sections};
ghost use Rattle.parser_words.specs.ParserWords.{
  parser_size,
  section_words,
  said_of,
  middle_by,
  middle_words,
  parser_stored_in,
  awaited_in,
  kept_in,
  parser_in,
  are_sorts,
  parser_readable,
  fresh_parser_in,
};

use parser::{Awaited, Kept, Section, State};
use parser_rules::{awaited, sort};
use tokenizer::Said;
use tokenizer_rows::{token_in, word};
use tokenizer_words::{flag_of, held_by, held_words, is_fit, is_readable, paste, store};

// The word of what is kept where that is End: the next after the kinds.
pub const KEPT_END: usize = 11;

// Whether the sorts of the 65 sections are sorts.
fn are_sorts(w: &[usize]) -> bool
    requires { parser_size ≤ length w.now }
    ensures { result ≡ are_sorts max_sections (drop 148 w.now) }
{
    (0..65).all(|k| w[148 + 2 * k] <= sort::LIST)
}

// Whether the words are a parser's state.
pub fn is_parser(w: &[usize]) -> bool
    ensures { result ≡ parser_readable w.now }
{
    if w.len() < 278 {
        return false;
    }
    let front = is_readable(w);
    let sorts = are_sorts(w);
    front & ((w[137] <= 1) & ((w[138] <= awaited::MULTILINE) & ((w[140] <= KEPT_END) & sorts)))
}

#[tactic(auto, unfolding(crate::specs::ParserWords::awaited_in))]
fn awaited_in(n: usize, line: usize) -> Awaited
    ensures { result ≡ awaited_in n line }
{
    match n {
        awaited::VALUE => Awaited::Value(line),
        awaited::MULTILINE => Awaited::Multiline(line),
        _ => Awaited::Nothing,
    }
}

#[tactic(auto, unfolding(crate::specs::ParserWords::kept_in))]
fn kept_in(w: &[usize]) -> Kept
    ensures { result ≡ kept_in w.now }
{
    let number = word(w, 0);
    if number == Said::END {
        return Kept::Nothing;
    }
    if number == KEPT_END {
        return Kept::End;
    }
    Kept::Token(token_in(w))
}

// What is kept, as what a step says.
fn said_of(k: Kept) -> Said
    ensures { result ≡ said_of k }
{
    match k {
        Kept::Nothing => Said::bare(Said::END, 0),
        Kept::End => Said::bare(KEPT_END, 0),
        Kept::Token(t) => Said::from(t),
    }
}

// The eleven words between the tokenizer's and the sections'.
pub fn middle_by(
    refused: bool,
    awaited: usize,
    line: usize,
    kept: Said,
    count: usize,
) -> [usize; 11]
    ensures { result ≡ middle_by refused awaited line kept count }
{
    [
        flag_of(refused),
        awaited,
        line,
        kept.number,
        kept.line,
        kept.start,
        kept.end,
        kept.from,
        kept.to,
        kept.opened,
        count,
    ]
}

#[tactic(auto, unfolding(crate::specs::ParserWords::middle_words))]
fn middle(s: State) -> [usize; 11]
    ensures { result ≡ middle_words s }
{
    let awaited = s.awaited;
    let kept = said_of(s.kept);
    middle_by(s.refused, awaited.number(), awaited.line(), kept, s.count)
}

// Writes the sections, two words each, after the 148, as tokenizer_words writes its slots.
fn put_sections(sections: [Section; 65], w: &mut [usize])
    requires { parser_size ≤ length w.old }
    ensures { w.new ≡ pasted (section_words sections) 148 w.old }
{
    for (k, s) in sections.iter().enumerate() {
        w[148 + 2 * k] = s.sort_number();
        w[149 + 2 * k] = s.line;
    }
}

// Writes the state at the front of the words: true; or false, with nothing written, where there are fewer than 278.
pub fn store_parser(s: State, words: &mut [usize]) -> bool
    ensures value { result ≡ leb parser_size (length words.old) }
    ensures words_after { words.new ≡ parser_stored_in s words.old }
{
    if words.len() < 278 {
        return false;
    }
    let tokenizer = s.tokenizer;
    let sections = s.sections;
    let m = middle(s);
    store(tokenizer, words);
    paste(&m, 137, words);
    put_sections(sections, words);
    true
}

// The eleven words again, with 0 for those that stand for nothing.
#[tactic(auto, unfolding(crate::specs::ParserWords::middle_words, crate::specs::ParserWords::parser_in))]
fn middle_in(w: &[usize]) -> [usize; 11]
    requires { parser_size ≤ length w.now }
    ensures { result ≡ middle_words (parser_in w.now) }
{
    let kept = said_of(kept_in(&w[140..146]));
    let awaited = awaited_in(w[138], w[139]);
    middle_by(w[137] == 1, awaited.number(), awaited.line(), kept, w[147])
}

// Copies the words of a state, with 0 for those that stand for nothing.
fn copy_parser(src: &[usize], dst: &mut [usize])
    requires { parser_size ≤ length src.now }
    ensures { dst.new ≡ pasted_in (middle_words (parser_in src.now)) 137 (pasted_in (held_words (state_in src.now).held) 5 (pasted_in (take parser_size src.now) 0 dst.old)) }
{
    let held = held_by(src[5], src[6], src[7]);
    let h = held_words(held);
    let m = middle_in(src);
    paste(&src[..278], 0, dst);
    paste(&h, 5, dst);
    paste(&m, 137, dst);
}

// Stores at the front of dst the state of src: true; or false, with nothing written, where it is no state, or does not
// fit a document of n bytes. The state never leaves its words: see `restore` of tokenizer_words.
pub fn restore_parser(n: usize, src: &[usize], dst: &mut [usize]) -> bool
    ensures value { result ≡ (parser_readable src.now && fit n (parser_in src.now).tokenizer) }
    ensures dst_after { dst.new ≡ cond result (parser_stored_in (parser_in src.now) dst.old) dst.old }
{
    if !is_parser(src) {
        return false;
    }
    if !is_fit(n, src) {
        return false;
    }
    if dst.len() < 278 {
        return true;
    }
    copy_parser(src, dst);
    true
}

// Writes the fresh state at the front: true; or false, with nothing written, where there are fewer than 278 words.
pub fn fresh_parser(state: &mut [usize]) -> bool
    ensures value { result ≡ leb parser_size (length state.old) }
    ensures state_after { state.new ≡ fresh_parser_in state.old }
{
    store_parser(State::new(), state)
}
