// The rest of a document from a step's place on, and how many of its bytes are passed.
ghost use Rattle.std.specs.Prelude.{◌≡◌, ◌+◌, ◌≤◌, length, take, option_map};
ghost use Rattle.text.specs.Bytes.{shifted_by};
ghost use Rattle.text.specs.declared.trimming.Dropped.TheVariants.{Blanks};
ghost use Rattle.tokenizer_scans.specs.Scans.{checked_of};

use text::{Dropped, Part};
use tokenizer_scans::checked;

#[derive(Clone, Copy)]
pub(crate) struct Cursor<'a> {
    pub(crate) rest: &'a [u8],
    pub(crate) at: usize,
    ghost within: { at ≤ length rest.now },
}

impl<'a> Cursor<'a> {
    ghost use Rattle.tokenizer_rules.specs.Cursor.{text_of};

    // What stands behind the bytes that are passed.
    pub(crate) fn text(&self) -> &'a [u8]
        ensures { result.now ≡ text_of self.now }
    {
        &self.rest[self.at..]
    }

    // The same rest with n more bytes passed.
    pub(crate) fn after(&self, n: usize) -> Cursor<'a>
        requires { self.now.at + n ≤ length self.now.rest.now }
        ensures rest { result.rest.now ≡ self.now.rest.now }
        ensures at { result.at ≡ self.now.at + n }
    {
        Cursor {
            rest: self.rest,
            at: self.at + n,
        }
    }

    // The trimmed part of the next n bytes, counted from the step's place, if they are UTF-8.
    #[tactic(auto, using(crate::proofs::Plans::part_le))]
    pub(crate) fn read(&self, n: usize) -> Option<Part>
        requires { self.now.at + n ≤ length self.now.rest.now }
        ensures { result ≡ option_map (shifted_by self.now.at) (checked_of Blanks (take n (text_of self.now))) }
    {
        let text = self.text();
        let p = checked(Dropped::Blanks, &text[..n])?;
        Some(Part {
            start: self.at + p.start,
            end: self.at + p.end,
        })
    }
}
