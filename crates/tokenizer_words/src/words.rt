// A state in the words of a lent slice, in the order of specs/Words.
ghost use Rattle.std.specs.Prelude.{◌≡◌, cond, ◌&&◌, ◌≤◌, leb, length, take};
ghost use Rattle.tokenizer.specs.Step.{fit};
ghost use Rattle.tokenizer.specs.Front.{front_of};
ghost use Rattle.tokenizer_words.specs.Words.{
  tokenizer_size,
  pasted,
  pasted_in,
  flag,
  held_words,
  held_by,
  part_words,
  front_words,
  stored_in,
  state_in,
  readable,
  fresh_in,
};

use text::Part;
use tokenizer::{Front, State, part_fits};
use tokenizer_rows::word;
use tokenizer_rules::Marks;

// Whether the words are a state's.
pub fn is_readable(w: &[usize]) -> bool
    ensures { result ≡ readable w.now }
{
    if w.len() < 137 {
        return false;
    }
    (w[2] <= 1) & ((w[3] <= 1) & ((w[4] <= 1) & (w[5] <= 1)))
}

// What is held, by its three words.
pub fn held_by(held: usize, start: usize, end: usize) -> Option<Part>
    ensures { result ≡ held_by held start end }
{
    (held == 1).then_some(Part { start, end })
}

// The state in the words but for the slots; a word that they lack is 0.
#[tactic(auto, unfolding(crate::specs::Words::state_in))]
pub fn front_in(w: &[usize]) -> Front
    ensures { result ≡ front_of (state_in w.now) }
{
    let held = held_by(word(w, 5), word(w, 6), word(w, 7));
    Front {
        place: word(w, 0),
        line: word(w, 1),
        marks: Marks {
            indent: word(w, 2) == 1,
            value: word(w, 3) == 1,
            multiline: word(w, 4) == 1,
        },
        held,
        depth: word(w, 8),
    }
}

// Whether the words are a state's, and it fits a document of n bytes: tokenizer::State::fits, by the words.
pub fn is_fit(n: usize, w: &[usize]) -> bool
    ensures { result ≡ (readable w.now && fit n (state_in w.now)) }
{
    if !is_readable(w) {
        return false;
    }
    let front = front_in(w);
    if !front.fits(n) {
        return false;
    }
    (0..front.depth).all(|i| {
        let p = Part {
            start: w[9 + 2 * i],
            end: w[10 + 2 * i],
        };
        part_fits(p, n)
    })
}

// A mark's word.
#[tactic(auto, unfolding(crate::specs::Words::flag))]
pub fn flag_of(b: bool) -> usize
    ensures { result ≡ flag b }
{
    usize::from(b)
}

// The words of what is held.
pub fn held_words(h: Option<Part>) -> [usize; 3]
    ensures { result ≡ held_words h }
{
    match h {
        None => [0, 0, 0],
        Some(p) => [1, p.start, p.end],
    }
}

// The nine words before the slots.
#[tactic(auto, unfolding(crate::specs::Words::front_words), using(crate::proofs::Slots::held_depth))]
pub fn front_words(f: Front) -> [usize; 9]
    ensures { result ≡ front_words f }
{
    let marks = f.marks;
    let h = held_words(f.held);
    [
        f.place,
        f.line,
        flag_of(marks.indent),
        flag_of(marks.value),
        flag_of(marks.multiline),
        h[0],
        h[1],
        h[2],
        f.depth,
    ]
}

// Copies src over the words of dst from `at` on; nothing where it does not fit.
pub fn paste(src: &[usize], at: usize, dst: &mut [usize])
    ensures { dst.new ≡ pasted_in src.now at dst.old }
{
    if dst.len() < at {
        return;
    }
    if dst.len() - at < src.len() {
        return;
    }
    dst[at..at + src.len()].copy_from_slice(src);
}

// Writes the slots, two words each, after the nine. parser_words has a loop like it for its sections: a function for
// both would take a closure, a place and a bound, and be longer than the two.
fn put_indents(indents: [Part; 64], w: &mut [usize])
    requires { tokenizer_size ≤ length w.old }
    ensures { w.new ≡ pasted (part_words indents) 9 w.old }
{
    for (k, p) in indents.iter().enumerate() {
        w[9 + 2 * k] = p.start;
        w[10 + 2 * k] = p.end;
    }
}

// Writes the state at the front of the words: true; or false, with nothing written, where there are fewer than 137.
pub fn store(s: State, words: &mut [usize]) -> bool
    ensures value { result ≡ leb tokenizer_size (length words.old) }
    ensures words_after { words.new ≡ stored_in s words.old }
{
    if words.len() < 137 {
        return false;
    }
    let indents = s.indents;
    let front = front_words(s.front());
    paste(&front, 0, words);
    put_indents(indents, words);
    true
}

// Copies the words of a state, with 0 for those of what is not held.
fn copy_state(src: &[usize], dst: &mut [usize])
    requires { tokenizer_size ≤ length src.now }
    ensures { dst.new ≡ pasted_in (held_words (state_in src.now).held) 5 (pasted_in (take tokenizer_size src.now) 0 dst.old) }
{
    let held = held_by(src[5], src[6], src[7]);
    let h = held_words(held);
    paste(&src[..137], 0, dst);
    paste(&h, 5, dst);
}

// Stores at the front of dst the state of src (parser_words has the same of its state: a trait over the two would need
// five functions, which are these): true; or false, with nothing written, where it is no state, or does not fit a
// document of n bytes. The state never leaves its words: by value it would be copied more than once.
pub fn restore(n: usize, src: &[usize], dst: &mut [usize]) -> bool
    ensures value { result ≡ (readable src.now && fit n (state_in src.now)) }
    ensures dst_after { dst.new ≡ cond result (stored_in (state_in src.now) dst.old) dst.old }
{
    if !is_fit(n, src) {
        return false;
    }
    if dst.len() < 137 {
        return true;
    }
    copy_state(src, dst);
    true
}

// Writes the fresh state at the front: true; or false, with nothing written, where there are fewer than 137 words.
pub fn fresh(state: &mut [usize]) -> bool
    ensures value { result ≡ leb tokenizer_size (length state.old) }
    ensures state_after { state.new ≡ fresh_in state.old }
{
    store(State::new(), state)
}
