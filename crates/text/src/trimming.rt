ghost use Rattle.std.specs.Prelude.{◌≡◌, ◌≤◌, length};
ghost use Rattle.std.specs.List.{prefix_len};
ghost use Rattle.text.specs.Trimming.{dropped, kept_end, trimmed};

use crate::bytes::{Part, is_newline, is_whitespace};
use line_scans::space_eights;

// Which bytes trimming drops.
#[derive(Clone, Copy, Debug, PartialEq, Eq)]
pub enum Dropped {
    Blanks,
    BlanksAndBreaks,
}

impl Dropped {
    #[tactic(auto, unfolding(crate::specs::Trimming::dropped))]
    fn drops(self, b: u8) -> bool
        ensures { result ≡ dropped self b }
    {
        match self {
            Dropped::Blanks => is_whitespace(b),
            Dropped::BlanksAndBreaks => is_whitespace(b) || is_newline(b),
        }
    }

    // How many dropped bytes s begins with, byte by byte.
    fn before(self, s: &[u8]) -> usize
        ensures value { result ≡ prefix_len (dropped self) s.now }
        ensures within { result ≤ length s.now }
    {
        s.iter().take_while(|b| self.drops(**b)).count()
    }

    // The length of s without the dropped bytes that it ends with.
    fn kept_end(self, s: &[u8]) -> usize
        ensures { result ≡ kept_end (dropped self) s.now }
    {
        match s.iter().rposition(|b| !self.drops(*b)) {
            Some(last) => last + 1,
            None => 0,
        }
    }
}

// How many dropped bytes s begins with: mostly none. Each kind drops spaces, so eights of them may be passed.
#[tactic(auto, using(crate::proofs::Skipped::spaces, crate::proofs::Front::from))]
pub fn leading(which: Dropped, s: &[u8]) -> usize
    ensures { result ≡ prefix_len (dropped which) s.now }
{
    if !s.first().is_some_and(|b| which.drops(*b)) {
        return 0;
    }
    let spaces = space_eights(s);
    spaces + which.before(&s[spaces..])
}

// The part of s without the dropped bytes at both ends; where all are dropped, the empty part at the start. Texts
// seldom begin with eight spaces, so they are read one by one: with the eights, this would be too large to be compiled
// into the readers.
#[tactic(auto, unfolding(crate::specs::Trimming::trimmed))]
pub fn trim(which: Dropped, s: &[u8]) -> Part
    ensures { result ≡ trimmed (dropped which) s.now }
{
    let end = which.kept_end(s);
    if end == 0 {
        return Part::EMPTY;
    }
    Part {
        start: which.before(s),
        end,
    }
}
