// Unescaping given bytes over lent words: a token's kind says how they are read, the answer is in five words.
ghost use Rattle.std.specs.Prelude.{◌≡◌};
ghost use Rattle.answer_words.specs.Given.{given_text_of};

use crate::texts::{answer_words, is_kind};

// Unescapes the text of a token, given the token's kind and line, and writes the answer at the front of its words:
// true; or false, with nothing written, where there is no such kind or there are fewer than five words for the answer.
#[tactic(auto, using(std::proofs::lemmas::Bool::Decides::nat_tests), unfolding(crate::specs::Given::given_text_of))]
pub fn unescape_text(
    kind: usize,
    line: usize,
    text: &[u8],
    indent: &[u8],
    out: &mut [u8],
    answer: &mut [usize],
) -> bool
    ensures value { result ≡ (given_text_of kind line text.now indent.now out.old answer.old).result }
    ensures out_after { out.new ≡ (given_text_of kind line text.now indent.now out.old answer.old).buffer }
    ensures answer_after { answer.new ≡ (given_text_of kind line text.now indent.now out.old answer.old).words }
{
    if !is_kind(kind) {
        return false;
    }
    let Some(front) = answer.first_chunk_mut::<5>() else {
        return false;
    };
    let reading = unescape::style_of(kind);
    let a = unescape::unescape_text(reading, text, indent, line, out);
    *front = answer_words(a);
    true
}
