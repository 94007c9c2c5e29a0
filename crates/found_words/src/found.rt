// The look-up over lent words: the answer in five words.
ghost use Rattle.std.specs.Prelude.{◌≡◌, leb, length};
ghost use Rattle.found_words.specs.Found.{found_words, found_in};

use answer_words::REFUSED;
use look_up::Outcome;

// The first word of an answer, as C declares it; a refusal's is that of unescaping.
pub const NOTHING: usize = 0;

pub const AT: usize = 1;

// Five words, as C declares them.
#[tactic(auto, unfolding(crate::specs::Found::found_words))]
fn found_words(answer: Outcome) -> [usize; 5]
    ensures { result ≡ found_words answer }
{
    match answer {
        Ok(None) => [NOTHING, 0, 0, 0, 0],
        Ok(Some(found)) => [AT, 0, found.line, found.part.start, found.part.end],
        Err(e) => [REFUSED, e.refusal.into(), e.line, 0, 0],
    }
}

// Looks the name up and writes the answer at the front of its words: true; or false, with nothing written, where there
// are fewer than five.
#[tactic(auto, using(std::proofs::lemmas::Bool::Decides::nat_tests), unfolding(crate::specs::Found::found_in))]
pub fn look_up(doc: &[u8], wanted: &[u8], answer: &mut [usize]) -> bool
    ensures value { result ≡ leb 5 (length answer.old) }
    ensures answer_after { answer.new ≡ found_in doc.now wanted.now answer.old }
{
    let Some(front) = answer.first_chunk_mut::<5>() else {
        return false;
    };
    *front = found_words(look_up::look_up(doc, wanted));
    true
}
