// The tokenizer's part of the words: but for the slot of an indentation that opens, a step writes only the nine words
// before the slots.
ghost use Rattle.std.specs.Prelude.{◌≡◌, drop};
ghost use Rattle.text.specs.Numbers.{max_open};
ghost use Rattle.tokenizer.specs.Step.{inner_of};
ghost use Rattle.tokenizer_words.specs.Words.{parts_in};
ghost use Rattle.front_words.specs.Fronts.{slot_in, committed};

use text::Part;
use tokenizer::{Advanced, State};
use tokenizer_rules::Change;
use tokenizer_words::{front_words, paste};

// The innermost of the open indentations in the slots; empty where there is none.
pub fn inner_in(depth: usize, w: &[usize; 278]) -> Part
    ensures { result ≡ inner_of (parts_in max_open (drop 9 w.now)) depth }
{
    if depth == 0 {
        return Part::EMPTY;
    }
    if State::MAX_OPEN < depth {
        return Part::EMPTY;
    }
    Part {
        start: w[7 + 2 * depth],
        end: w[8 + 2 * depth],
    }
}

fn put_slot(change: Change, indent: Part, depth: usize, w: &mut [usize; 278])
    ensures { w.new ≡ slot_in change indent depth w.old }
{
    if let Change::Open = change {
        if depth < State::MAX_OPEN {
            let slot = [indent.start, indent.end];
            paste(&slot, 9 + 2 * depth, w);
        }
    }
}

// Writes what a step comes to.
#[tactic(auto, unfolding(crate::specs::Fronts::committed))]
pub fn commit(m: Advanced, w: &mut [usize; 278])
    ensures { w.new ≡ committed m w.old }
{
    let depth = w[8];
    let front = front_words(m.front);
    paste(&front, 0, w);
    put_slot(m.change, m.indent, depth, w);
}
